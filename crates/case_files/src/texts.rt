// Bytes as texts.
use std::alloc::{AllocError, Global};
use std::fmt::Write;

/// The hash FNV-1a of 64 bits.
pub fn fnv(bytes: &[u8]) -> u64 {
    let mut hash = 0xCBF2_9CE4_8422_2325u64;
    for byte in bytes {
        hash = (hash ^ u64::from(*byte)).wrapping_mul(0x0100_0000_01B3);
    }
    hash
}

// Hexadecimal digits, with a gap before each further four bytes.
fn digits(alloc: Global, bytes: &[u8], gap: &str) -> Result<String, AllocError> {
    let mut text = String::new(alloc);
    for at in 0..bytes.len() {
        if at > 0 && at % 4 == 0 {
            text.push_str(gap)?;
        }
        let byte = bytes[at];
        text.push_str(format!(in alloc; "{byte:02X}")?.as_str())?;
    }
    Ok(text)
}

// The length, and the hash.
fn length_and_hash(alloc: Global, bytes: &[u8]) -> Result<String, AllocError> {
    let (length, hash) = (bytes.len(), fnv(bytes));
    format!(in alloc; "{length} bytes {hash:016X}")
}

/// Up to 32 bytes in hexadecimal digits; for more, their number and their [`fnv`].
///
/// # Errors
///
/// Out of memory.
pub fn told(alloc: Global, bytes: &[u8]) -> Result<String, AllocError> {
    if bytes.len() <= 32 {
        digits(alloc, bytes, "")
    } else {
        length_and_hash(alloc, bytes)
    }
}

/// Up to 64 texels in hexadecimal digits with a blank between two; for more, the number of their
/// bytes and their [`fnv`].
///
/// # Errors
///
/// Out of memory.
pub fn told_texels(alloc: Global, raster: &[u8]) -> Result<String, AllocError> {
    if raster.len() <= 256 {
        digits(alloc, raster, " ")
    } else {
        length_and_hash(alloc, raster)
    }
}

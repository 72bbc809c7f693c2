// Numbers and bytes that texts write.
ghost use Rattle.std.specs.Prelude.{◌<◌};

use std::alloc::{AllocError, Global};
use std::io;

/// The error of an unreadable row.
pub fn bad_row() -> io::Error {
    io::Error::from(io::ErrorKind::InvalidData)
}

/// The number that decimal digits write.
///
/// # Errors
///
/// If the text is not a number of 32 bits.
pub fn number(text: &str) -> io::Result<u32> {
    match text.parse() {
        Ok(number) => Ok(number),
        Err(_) => Err(bad_row()),
    }
}

/// The `N` numbers of a text, with a blank between two; 0 for each that is missing.
///
/// # Errors
///
/// As [`number`].
pub fn numbers<const N: usize>(text: &str) -> io::Result<[u32; N]> {
    let mut all = [0; N];
    let mut at = 0usize;
    for part in text.split(' ') {
        if at < N {
            all[at] = number(part)?;
            at += 1;
        }
    }
    Ok(all)
}

/// A number of 16 bits.
///
/// # Errors
///
/// If the number has more bits.
pub fn short(number: u32) -> io::Result<u16> {
    if number < 65536 {
        Ok(number as u16)
    } else {
        Err(bad_row())
    }
}

/// A number of one byte.
///
/// # Errors
///
/// If the number has more bits.
pub fn small(number: u32) -> io::Result<u8> {
    if number < 256 {
        Ok(number as u8)
    } else {
        Err(bad_row())
    }
}

/// The small numbers of a text with a comma between two; none for `-`.
///
/// # Errors
///
/// As for [`number`] and [`small`], and if memory runs out.
pub fn small_numbers(alloc: Global, text: &str) -> io::Result<Vec<u8>> {
    let mut all = Vec::new(alloc);
    if text != "-" {
        for part in text.split(',') {
            all.push(small(number(part)?)?)?;
        }
    }
    Ok(all)
}

// The value of a hexadecimal digit; that of another letter is below 16 too.
fn value_of(digit: u8) -> u8
    ensures { result < 16 }
{
    match digit {
        b'0'..=b'9' => digit - b'0',
        b'A'..=b'F' => digit - b'A' + 10,
        _ => 0,
    }
}

// The byte of two digits.
fn byte_of(high: u8, low: u8) -> u8 {
    value_of(high) * 16 + value_of(low)
}

/// The byte that two hexadecimal digits at a place write.
pub fn byte_at(digits: &[u8], at: usize) -> u8 {
    let high = digits.get(at).copied().unwrap_or(0);
    let low = digits.get(at.saturating_add(1)).copied().unwrap_or(0);
    byte_of(high, low)
}

/// The block of 32 hexadecimal digits.
pub fn block_of_digits(digits: &str) -> [u8; 16] {
    let mut block = [0; 16];
    for k in 0..16usize {
        block[k] = byte_at(digits.as_bytes(), 2 * k);
    }
    block
}

/// Adds the bytes of hexadecimal digits.
pub fn add_hex(file: &mut Vec<u8>, text: &str) -> Result<(), AllocError> {
    let digits = text.as_bytes();
    for k in 0..digits.len() / 2 {
        file.push(byte_of(digits[2 * k], digits[2 * k + 1]))?;
    }
    Ok(())
}

/// Puts the bytes of hexadecimal digits at a place, up to the end of the file.
pub fn put_hex(file: &mut [u8], at: usize, text: &str) {
    let digits = text.as_bytes();
    for k in 0..digits.len() / 2 {
        let place = at.saturating_add(k);
        if place < file.len() {
            file[place] = byte_of(digits[2 * k], digits[2 * k + 1]);
        }
    }
}

// Adds the meaning of the text after a backslash: a byte, then bytes as they are.
fn add_escaped(file: &mut Vec<u8>, text: &str) -> Result<(), AllocError> {
    let (byte, rest) = match text.as_bytes() {
        [b'n', rest @ ..] => (b'\n', rest),
        [b'r', rest @ ..] => (b'\r', rest),
        [b't', rest @ ..] => (b'\t', rest),
        [b'x', high, low, rest @ ..] => (byte_of(*high, *low), rest),
        other => (b'\\', other),
    };
    file.push(byte)?;
    file.extend_from_slice(rest)
}

/// Adds a text with `\n`, `\r`, `\t` and `\xHH`.
pub fn add_text(file: &mut Vec<u8>, text: &str) -> Result<(), AllocError> {
    let (plain, escaped) = text.split_once('\\').unwrap_or((text, ""));
    file.extend_from_slice(plain.as_bytes())?;
    if plain.len() < text.len() {
        for part in escaped.split('\\') {
            add_escaped(file, part)?;
        }
    }
    Ok(())
}

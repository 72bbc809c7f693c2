// PAM files of texels that numbers make.
use crate::digits::numbers;
use partition_hash::hash52;
use std::alloc::{AllocError, Global};
use std::io;

// Adds the header of an image, with a line for alpha if the image has it.
fn add_header(
    alloc: Global,
    file: &mut Vec<u8>,
    width: u32,
    height: u32,
    depth: u32,
    tuple: &str,
) -> Result<(), AllocError> {
    let header = format!(in alloc;
        "P7\nWIDTH {width}\nHEIGHT {height}\nDEPTH {depth}\nMAXVAL 255\n{tuple}ENDHDR\n"
    )?;
    file.extend_from_slice(header.as_bytes())
}

// A hashed texel, or one of a colour.
fn texel_of(kind: &str, first: u32, place: u32) -> [u8; 4] {
    if kind == "hash" {
        hash52(first.wrapping_add(place)).to_le_bytes()
    } else {
        first.to_be_bytes()
    }
}

// Adds `count` texels from a place on: hashed ones, or of one colour.
fn add_texels(
    file: &mut Vec<u8>,
    kind: &str,
    first: u32,
    place: u32,
    count: u32,
    depth: u32,
) -> Result<(), AllocError> {
    for k in 0..count {
        let texel = texel_of(kind, first, place.wrapping_add(k));
        file.extend_from_slice(&texel[..depth.min(4) as usize])?;
    }
    Ok(())
}

/// Adds images: a number, width, height, the number of images, and the depth. The first number is
/// that of the first hashed texel, or the colour.
pub fn add_images(alloc: Global, file: &mut Vec<u8>, kind: &str, rule: &str) -> io::Result<()> {
    let [first, width, height, count, depth] = numbers::<5>(rule)?;
    let tuple = if kind == "hash" {
        ""
    } else {
        "TUPLTYPE RGB_ALPHA\n"
    };
    let texels = width.saturating_mul(height);
    for k in 0..count {
        add_header(alloc, file, width, height, depth, tuple)?;
        add_texels(file, kind, first, texels.wrapping_mul(k), texels, depth)?;
    }
    Ok(())
}

// A channel of slopes: how it grows by column and by row, from where.
fn channel(from: u32, across: u32, down: u32, x: u32, y: u32) -> u8 {
    let grown = from
        .wrapping_add(across.wrapping_mul(x))
        .wrapping_add(down.wrapping_mul(y));
    (grown % 256) as u8
}

/// Adds an image of slopes: width, height, and for red, green and blue the first value and the
/// increments per column and per row.
pub fn add_slopes(alloc: Global, file: &mut Vec<u8>, rule: &str) -> io::Result<()> {
    let [width, height, red, rx, ry, green, gx, gy, blue, bx, by] = numbers::<11>(rule)?;
    add_header(alloc, file, width, height, 4, "TUPLTYPE RGB_ALPHA\n")?;
    for place in 0..width.saturating_mul(height) {
        let (x, y) = (place % width.max(1), place / width.max(1));
        let texel = [
            channel(red, rx, ry, x, y),
            channel(green, gx, gy, x, y),
            channel(blue, bx, by, x, y),
            255,
        ];
        file.extend_from_slice(&texel)?;
    }
    Ok(())
}

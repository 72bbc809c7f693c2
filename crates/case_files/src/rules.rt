// Files by rules.
use crate::changes::{put_keys, turn_words};
use crate::digits::{add_hex, add_text, bad_row, number, put_hex};
use crate::pictures::{add_images, add_slopes};
use std::alloc::{AllocError, Global};
use std::io;
use tex_shelf::MemoryShelf;

// Adds bytes by hexadecimal digits or by a text.
fn add_once(file: &mut Vec<u8>, kind: &str, bytes: &str) -> Result<(), AllocError> {
    if kind == "hex" {
        add_hex(file, bytes)
    } else {
        add_text(file, bytes)
    }
}

// Adds bytes `count` times.
fn add_each(file: &mut Vec<u8>, count: u32, kind: &str, bytes: &str) -> Result<(), AllocError> {
    for _ in 0..count {
        add_once(file, kind, bytes)?;
    }
    Ok(())
}

// Adds bytes a number of times: `COUNT hex DIGITS` or `COUNT text TEXT`.
fn add_times(file: &mut Vec<u8>, rule: &str) -> io::Result<()> {
    let (count, rule) = rule.split_once(' ').unwrap_or((rule, ""));
    let (kind, bytes) = rule.split_once(' ').unwrap_or((rule, ""));
    Ok(add_each(file, number(count)?, kind, bytes)?)
}

// Adds `count` bytes, each by its place: 0 to 250, and again from 0.
fn add_ramp(file: &mut Vec<u8>, count: u32) -> Result<(), AllocError> {
    for at in 0..count {
        file.push((at % 251) as u8)?;
    }
    Ok(())
}

// Puts bytes at a place: `PLACE DIGITS`.
fn put_at(file: &mut [u8], rule: &str) -> io::Result<()> {
    let (place, digits) = rule.split_once(' ').unwrap_or((rule, ""));
    put_hex(file, number(place)? as usize, digits);
    Ok(())
}

// Drops the first `count` bytes.
fn skip(alloc: Global, file: &mut Vec<u8>, count: usize) -> Result<(), AllocError> {
    let rest = file[count.min(file.len())..].to_vec(alloc)?;
    *file = rest;
    Ok(())
}

// Adds the file of this name.
fn add_file(shelf: &MemoryShelf, file: &mut Vec<u8>, name: &str) -> io::Result<()> {
    match shelf.file(name) {
        Some(bytes) => Ok(file.extend_from_slice(bytes)?),
        None => Err(bad_row()),
    }
}

// Does what a piece says.
fn apply(alloc: Global, shelf: &MemoryShelf, file: &mut Vec<u8>, piece: &str) -> io::Result<()> {
    let (key, value) = piece.split_once(' ').unwrap_or((piece, ""));
    match key {
        "" => Ok(()),
        "hex" => Ok(add_hex(file, value)?),
        "text" => Ok(add_text(file, value)?),
        "times" => add_times(file, value),
        "ramp" => Ok(add_ramp(file, number(value)?)?),
        "at" => put_at(file, value),
        "skip" => Ok(skip(alloc, file, number(value)? as usize)?),
        "cut" => Ok(file.truncate(number(value)? as usize)),
        "keys" => Ok(put_keys(alloc, file, number(value)?)?),
        "big" => Ok(turn_words(file)),
        "hash" | "colour" => add_images(alloc, file, key, value),
        "slopes" => add_slopes(alloc, file, value),
        _ => add_file(shelf, file, piece),
    }
}

/// The file of a rule. Pieces, with `;` between two, add bytes: `NAME` those of a file of the
/// shelf, `hex DIGITS`, `text TEXT` with `\n`, `\r`, `\t` and `\xHH`, `times COUNT hex DIGITS` or
/// `times COUNT text TEXT`, `ramp COUNT` bytes of 0 to 250, PAM images by `hash NUMBER WIDTH HEIGHT
/// COUNT DEPTH`, or by `colour` with a colour as the number, and by `slopes WIDTH HEIGHT` with
/// three numbers for each of red, green and blue. Or they change the bytes so far: `at PLACE
/// DIGITS`, `cut LENGTH`, `skip COUNT` first bytes, `keys COUNT` bytes instead of a KTX file's
/// keys, and `big`, which reverses its words.
///
/// # Errors
///
/// If a number or a file is missing, or memory.
pub fn file_by(alloc: Global, shelf: &MemoryShelf, rule: &str) -> io::Result<Vec<u8>> {
    let mut file = Vec::new(alloc);
    for piece in rule.split(';') {
        apply(alloc, shelf, &mut file, piece)?;
    }
    Ok(file)
}

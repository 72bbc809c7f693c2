// Sequences, and fields of blocks.
ghost use Rattle.std.specs.Prelude.{◌<◌, ◌↔◌, IsTrue};
ghost use Rattle.std.specs.List.{All};

use astc_model::Level;
use case_files::{bad_row, block_of_digits, number, numbers, short, small, small_numbers, told};
use ise_codec::{
    bits_of_bytes, bytes_of_bits, field, read_sequence, reversed, set_field, write_sequence,
};
use std::alloc::Global;
use std::io;

// The level of a count.
fn level_of(count: u32) -> io::Result<Level> {
    match Level::of(short(count)?) {
        Some(level) => Ok(level),
        None => Err(bad_row()),
    }
}

/// The number of bits of a sequence: `COUNT N`.
pub fn length_answer(alloc: Global, words: &str) -> io::Result<String> {
    let [count, n] = numbers::<2>(words)?;
    let level = level_of(count)?;
    if n > 64 {
        return Err(bad_row());
    }
    Ok(format!(in alloc; "{}", level.bits(n))?)
}

fn all_under(values: &[u8], count: u16) -> bool
    ensures { IsTrue result ↔ All (λ v. v < count) values.now }
{
    values.iter().all(|v| u16::from(*v) < count)
}

// The bits of a sequence, if there is one, and the number of values.
fn written(level: Level, values: &[u8]) -> Option<(u128, u32)> {
    if values.len() > 64 || !all_under(values, level.count()) {
        return None;
    }
    let count = values.len() as u32;
    if level.bits(count) > 128 {
        return None;
    }
    Some((write_sequence(level, values), count))
}

// The values at a place of a block.
fn read(alloc: Global, block: u128, at: u32, level: Level, count: u32) -> io::Result<String> {
    if count > 64 {
        return Err(bad_row());
    }
    let bits = level.bits(count);
    if at > 128 || bits > 128 - at {
        return Err(bad_row());
    }
    let values = read_sequence(block, at, level, count);
    Ok(format!(in alloc; "{:?}", values.as_slice())?)
}

/// The bits of a sequence, and the result of reading them: `COUNT VALUES`.
pub fn written_sequence_answer(alloc: Global, words: &str) -> io::Result<String> {
    let (count, values) = words.split_once(' ').unwrap_or((words, ""));
    let level = level_of(number(count)?)?;
    let values = small_numbers(alloc, values)?;
    match written(level, values.as_slice()) {
        Some((bits, count)) => {
            let back = read(alloc, bits, 0, level, count)?;
            Ok(format!(in alloc; "{bits:X}, read as {back}")?)
        }
        None => Err(bad_row()),
    }
}

// The number of a block whose digits begin with the highest.
fn bits_of(digits: &str) -> u128 {
    u128::from_be_bytes(block_of_digits(digits))
}

/// The values of a sequence: `COUNT PLACE BLOCK N`, the block with its highest digit first.
pub fn sequence_answer(alloc: Global, words: &str) -> io::Result<String> {
    let (count, rest) = words.split_once(' ').unwrap_or((words, ""));
    let (at, rest) = rest.split_once(' ').unwrap_or((rest, ""));
    let (digits, n) = rest.split_once(' ').unwrap_or((rest, ""));
    let level = level_of(number(count)?)?;
    read(alloc, bits_of(digits), number(at)?, level, number(n)?)
}

// A block with another value in a field of eight bits, or of none.
fn with_value(block: u128, at: u32, n: u32, value: u8) -> Option<u128> {
    match n {
        0 if at <= 128 && value == 0 => Some(set_field(block, at, 0, 0)),
        8 if at <= 120 => Some(set_field(block, at, 8, u128::from(value))),
        _ => None,
    }
}

// A field, or a block with this value there.
fn told_field(alloc: Global, block: u128, at: u32, n: u32, value: &str) -> io::Result<String> {
    if at > 128 || n > 128 - at {
        return Err(bad_row());
    }
    if value.is_empty() {
        return Ok(format!(in alloc; "{:X}", field(block, at, n))?);
    }
    match with_value(block, at, n, small(number(value)?)?) {
        Some(block) => Ok(format!(in alloc; "{block:032X}")?),
        None => Err(bad_row()),
    }
}

/// A field of a block, or the block with another value there, or turned round: `BLOCK PLACE WIDTH`,
/// `BLOCK PLACE WIDTH VALUE`, `BLOCK`.
pub fn field_answer(alloc: Global, words: &str) -> io::Result<String> {
    let (digits, rest) = words.split_once(' ').unwrap_or((words, ""));
    let block = bits_of(digits);
    if rest.is_empty() {
        return Ok(format!(in alloc; "{:032X}", reversed(block))?);
    }
    let (at, rest) = rest.split_once(' ').unwrap_or((rest, ""));
    let (n, value) = rest.split_once(' ').unwrap_or((rest, ""));
    told_field(alloc, block, number(at)?, number(n)?, value)
}

/// The number of a block's bytes, and its bytes again.
pub fn bytes_answer(alloc: Global, words: &str) -> io::Result<String> {
    let bits = bits_of_bytes(&block_of_digits(words));
    let bytes = told(alloc, &bytes_of_bits(bits))?;
    Ok(format!(in alloc; "{bits:032X}, written as {bytes}")?)
}

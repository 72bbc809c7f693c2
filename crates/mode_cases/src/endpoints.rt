// Endpoint modes.
use astc_model::Box8;
use case_files::{bad_row, byte_at, number, small, small_numbers};
use endpoint_modes::{EndpointMode, endpoints, ideal};
use std::alloc::Global;
use std::io;

// The text for values that a mode does not take.
fn none(alloc: Global) -> io::Result<String> {
    Ok(String::from_str(alloc, "none")?)
}

/// The two colours that values stand for: `MODE VALUES`.
pub fn colours_answer(alloc: Global, words: &str) -> io::Result<String> {
    let (cem, values) = words.split_once(' ').unwrap_or((words, ""));
    let cem = small(number(cem)?)?;
    let values = small_numbers(alloc, values)?;
    let values = values.as_slice();
    if EndpointMode::of(cem).is_none() {
        return none(alloc);
    }
    if values.len() != 2 * (usize::from(cem) / 4 + 1) {
        return none(alloc);
    }
    let (first, second) = endpoints(cem, values);
    Ok(format!(in alloc; "{first:?} {second:?}")?)
}

// The colour of eight hexadecimal digits.
fn colour_of(digits: &str) -> [u8; 4] {
    let mut colour = [0u8; 4];
    for c in 0..4usize {
        colour[c] = byte_at(digits.as_bytes(), 2 * c);
    }
    colour
}

/// The ideal values of a mode: `MODE FLIP LEAST GREATEST`.
pub fn ideal_answer(alloc: Global, words: &str) -> io::Result<String> {
    let (cem, rest) = words.split_once(' ').unwrap_or((words, ""));
    let (flip, rest) = rest.split_once(' ').unwrap_or((rest, ""));
    let (lo, hi) = rest.split_once(' ').unwrap_or((rest, ""));
    let (cem, flip) = (small(number(cem)?)?, small(number(flip)?)?);
    if EndpointMode::of(cem).is_none() {
        return Err(bad_row());
    }
    let bounds = Box8 {
        lo: colour_of(lo),
        hi: colour_of(hi),
    };
    let found = ideal(cem, flip, &bounds);
    Ok(format!(in alloc; "{:?}", found.as_slice())?)
}

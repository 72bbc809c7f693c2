// Names and what they stand for.
use astc_model::{ChannelWeights, Flavour, FootprintName, Preset};
use case_files::{bad_row, number, small_numbers};
use std::alloc::Global;
use std::io;

/// A footprint by its word: its name, by its sides too, and its numbers in both flavours.
pub fn footprint_answer(alloc: Global, word: &str) -> io::Result<String> {
    let Some(name) = FootprintName::from_word(word) else {
        return Ok(String::from_str(alloc, "none")?);
    };
    let (width, height) = name.sides();
    let by_sides = FootprintName::of(width as usize, height as usize);
    let (linear, srgb) = (name.gl(Flavour::Linear), name.gl(Flavour::Srgb));
    Ok(format!(in alloc; "{name:?} {width} {height} {by_sides:?} {linear:X} {srgb:X}")?)
}

/// The footprint and flavour of a format's number, or the footprint of sides: `NUMBER`, or `WIDTH
/// by HEIGHT`.
pub fn format_answer(alloc: Global, words: &str) -> io::Result<String> {
    match words.split_once(" by ") {
        Some((width, height)) => {
            let (width, height) = (number(width)? as usize, number(height)? as usize);
            Ok(format!(in alloc; "{:?}", FootprintName::of(width, height))?)
        }
        None => Ok(format!(in alloc; "{:?}", FootprintName::from_gl(number(words)?))?),
    }
}

/// A preset by its word.
pub fn preset_answer(alloc: Global, word: &str) -> io::Result<String> {
    Ok(format!(in alloc; "{:?}", Preset::from_word(word))?)
}

/// Weights of channels, if there are such.
pub fn channels_answer(alloc: Global, words: &str) -> io::Result<String> {
    match small_numbers(alloc, words)?.as_slice() {
        [red, green, blue, alpha] => match ChannelWeights::new([*red, *green, *blue, *alpha]) {
            Some(weights) => Ok(format!(in alloc; "{:?}", weights.of())?),
            None => Ok(String::from_str(alloc, "none")?),
        },
        [] => Ok(format!(in alloc; "{:?}", ChannelWeights::even().of())?),
        _ => Err(bad_row()),
    }
}

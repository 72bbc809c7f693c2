// Levels, and the values of their integers.
use astc_model::Level;
use case_files::{number, short};
use quant_tables::{colour_value, nearest_colour, nearest_weight, weight_value};
use std::alloc::{AllocError, Global};
use std::io;

/// A level by its count: its count, digit and low bits.
pub fn level_answer(alloc: Global, words: &str) -> io::Result<String> {
    match Level::of(short(number(words)?)?) {
        Some(level) => {
            let (count, digit, low_bits) = (level.count(), level.digit(), level.low_bits());
            Ok(format!(in alloc; "{count} {digit:?} {low_bits}")?)
        }
        None => Ok(String::from_str(alloc, "none")?),
    }
}

// The values of a list, a run of the same as `VALUExCOUNT`.
fn told_runs(alloc: Global, values: &[u8]) -> Result<String, AllocError> {
    let mut text = String::new(alloc);
    let mut run = 0usize;
    for k in 0..values.len() {
        run = run.saturating_add(1);
        let value = values[k];
        if values.get(k.saturating_add(1)).copied() != Some(value) {
            let gap = if text.is_empty() { "" } else { " " };
            let found = if run == 1 {
                format!(in alloc; "{gap}{value}")?
            } else {
                format!(in alloc; "{gap}{value}x{run}")?
            };
            text.push_str(found.as_str())?;
            run = 0;
        }
    }
    Ok(text)
}

// The values of the integers of a level of colours.
fn colour_values(alloc: Global, level: Level) -> Result<Vec<u8>, AllocError> {
    let mut values = Vec::new(alloc);
    for i in 0..level.count() {
        if level.count() >= 6 && i < 256 {
            values.push(colour_value(level, i as u8))?;
        }
    }
    Ok(values)
}

// The integers that are nearest to the bytes.
fn nearest_colours(alloc: Global, level: Level) -> Result<Vec<u8>, AllocError> {
    let mut nearest = Vec::new(alloc);
    for value in 0..256u32 {
        if level.count() >= 6 {
            nearest.push(nearest_colour(level, value as u8))?;
        }
    }
    Ok(nearest)
}

/// The values of the integers of a level of colours, and the integers that are nearest to 0 to 255.
pub fn colour_values_answer(alloc: Global, words: &str) -> io::Result<String> {
    let Some(level) = Level::of(short(number(words)?)?) else {
        return Ok(String::from_str(alloc, "none")?);
    };
    let values = told_runs(alloc, &colour_values(alloc, level)?)?;
    let nearest = told_runs(alloc, &nearest_colours(alloc, level)?)?;
    Ok(format!(in alloc; "{values}, nearest {nearest}")?)
}

// The values of the integers of a level of weights.
fn weight_values(alloc: Global, level: Level) -> Result<Vec<u8>, AllocError> {
    let mut values = Vec::new(alloc);
    for i in 0..level.count() {
        if level.count() <= 32 {
            values.push(weight_value(level, i as u8))?;
        }
    }
    Ok(values)
}

// The integers that are nearest to the weights.
fn nearest_weights(alloc: Global, level: Level) -> Result<Vec<u8>, AllocError> {
    let mut nearest = Vec::new(alloc);
    for weight in 0..65u8 {
        if level.count() <= 32 {
            nearest.push(nearest_weight(level, weight))?;
        }
    }
    Ok(nearest)
}

/// The values of the integers of a level of weights, and the integers that are nearest to 0 to 64.
pub fn weight_values_answer(alloc: Global, words: &str) -> io::Result<String> {
    let Some(level) = Level::of(short(number(words)?)?) else {
        return Ok(String::from_str(alloc, "none")?);
    };
    let values = told_runs(alloc, &weight_values(alloc, level)?)?;
    let nearest = told_runs(alloc, &nearest_weights(alloc, level)?)?;
    Ok(format!(in alloc; "{values}, nearest {nearest}")?)
}

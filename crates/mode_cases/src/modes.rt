// Block modes, and faults of shapes.
ghost use Rattle.astc_model.specs.Modes.{IsInModeRange};

use arrayvec::ArrayVec;
use astc_model::{BlockFault, Coded, FootprintName, for_footprint};
use block_mode::{
    Mode, colour_count, colour_level, colour_shape, colour_start, grid_fault, high_mode_bits,
    mode_of, plane_bits, shape_fault, weight_bits, weight_count,
};
use case_files::{bad_row, number, numbers, short, small};
use std::alloc::{AllocError, Global};
use std::io;

// A mode as the columns and rows of its grid, its level's count and its planes.
fn told_mode(alloc: Global, mode: Option<Mode>) -> Result<String, AllocError> {
    match mode {
        Some(mode) => {
            let (columns, rows, planes) = (mode.across, mode.down, mode.planes);
            let count = mode.level.count();
            format!(in alloc; "{columns}x{rows}/{count}/{planes}")
        }
        None => String::from_str(alloc, "-"),
    }
}

/// Sixteen modes from a number on.
pub fn modes_answer(alloc: Global, words: &str) -> io::Result<String> {
    let first = number(words)?;
    if first > 2032 {
        return Err(bad_row());
    }
    let mut text = String::new(alloc);
    for k in 0..16u32 {
        let gap = if k == 0 { "" } else { " " };
        text.push_str(gap)?;
        text.push_str(told_mode(alloc, mode_of((first + k) as u16))?.as_str())?;
    }
    Ok(text)
}

// A coded block without integers, whose parts all have one colour endpoint mode.
fn shape_of(mode: u16, parts: u8, cem: u8) -> Coded {
    let mut cems = [0; 4];
    for part in 0..4usize {
        if part < usize::from(parts) {
            cems[part] = cem;
        }
    }
    Coded {
        mode,
        parts,
        seed: 0,
        selector: 0,
        cems,
        colours: ArrayVec::new(),
        weights: ArrayVec::new(),
        plane: 0,
    }
}

fn fault_of<const W: usize, const H: usize>(mode: u16, parts: u8, cem: u8) -> Option<BlockFault> {
    let shape = shape_of(mode, parts, cem);
    if shape.parts > 4 {
        return None;
    }
    shape_fault::<W, H>(&shape)
}

/// The first fault of a shape whose parts all have one colour endpoint mode: `FOOTPRINT MODE PARTS
/// ENDPOINT_MODE`.
pub fn fault_answer(alloc: Global, words: &str) -> io::Result<String> {
    let (name, rest) = words.split_once(' ').unwrap_or((words, ""));
    let [mode, parts, cem] = numbers::<3>(rest)?;
    let (mode, parts, cem) = (short(mode)?, small(parts)?, small(cem)?);
    let Some(name) = FootprintName::from_word(name) else {
        return Err(bad_row());
    };
    let fault = for_footprint!(name, fault_of(mode, parts, cem));
    Ok(format!(in alloc; "{fault:?}")?)
}

// The sizes that a mode has room for.
fn told_sizes(alloc: Global, mode: &Mode) -> io::Result<String>
    requires { IsInModeRange mode.now }
{
    let count = weight_count(mode);
    let fault = grid_fault::<4, 4>(mode);
    if count > 64 {
        return Err(bad_row());
    }
    let (bits, plane) = (weight_bits(mode), plane_bits(mode));
    Ok(format!(in alloc;
        "{count} weights of {bits} bits, {plane} for the plane, {fault:?} on 4x4"
    )?)
}

// The first bit of the colours, and their level.
fn told_colours(alloc: Global, mode: &Mode, parts: u8, selector: u8, cem: u8) -> io::Result<String>
    requires { IsInModeRange mode.now }
{
    let cems = [cem; 4];
    let weights = weight_count(mode);
    if parts > 4 || weights > 64 {
        return Err(bad_row());
    }
    let (count, start) = (colour_count(parts, &cems), colour_start(parts));
    let high = high_mode_bits(parts, selector);
    let shape = colour_shape(mode, parts, selector, &cems);
    if count > 18 {
        return Err(bad_row());
    }
    let level = colour_level(mode, parts, selector, count as u8);
    Ok(format!(in alloc; "{count} colours from {start}, {high} high bits, {level:?}, {shape:?}")?)
}

// The sizes of a mode, and of colours beside it.
fn told_shape(alloc: Global, mode: &Mode, parts: u8, selector: u8, cem: u8) -> io::Result<String>
    requires { IsInModeRange mode.now }
{
    let sizes = told_sizes(alloc, mode)?;
    let colours = told_colours(alloc, mode, parts, selector, cem)?;
    Ok(format!(in alloc; "{sizes}, {colours}")?)
}

/// The sizes of a shape: `MODE PARTS SELECTOR ENDPOINT_MODE`.
pub fn shape_answer(alloc: Global, words: &str) -> io::Result<String> {
    let [mode, parts, selector, cem] = numbers::<4>(words)?;
    let (parts, selector, cem) = (small(parts)?, small(selector)?, small(cem)?);
    match mode_of(short(mode)?) {
        Some(mode) => told_shape(alloc, &mode, parts, selector, cem),
        None => Err(bad_row()),
    }
}

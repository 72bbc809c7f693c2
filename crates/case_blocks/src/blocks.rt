// Blocks by their fields.
use arrayvec::ArrayVec;
use astc_model::{Block, Coded, Constant};
use case_files::{bad_row, numbers, short, small, small_numbers};
use std::alloc::{AllocError, Global};
use std::io;

// A word of a row, and the text after it.
fn cut(text: &str) -> (&str, &str) {
    text.split_once(' ').unwrap_or((text, ""))
}

// Four numbers of 16 bits.
fn four(text: &str) -> io::Result<[u16; 4]> {
    let [first, second, third, fourth] = numbers::<4>(text)?;
    Ok([short(first)?, short(second)?, short(third)?, short(fourth)?])
}

// A constant by red, green, blue and alpha and its extent: `R G B A of S T P Q`.
fn constant(text: &str) -> io::Result<Block> {
    let (rgba, extent) = text.split_once(" of ").unwrap_or((text, ""));
    Ok(Block::Constant(Constant {
        rgba: four(rgba)?,
        extent: four(extent)?,
    }))
}

// The integers of a list, as many as there is room for.
fn integers<const N: usize>(alloc: Global, text: &str) -> io::Result<ArrayVec<u8, N>> {
    match ArrayVec::try_from(small_numbers(alloc, text)?.as_slice()) {
        Ok(list) => Ok(list),
        Err(_) => Err(bad_row()),
    }
}

// The endpoint modes of four parts.
fn cems_of(alloc: Global, text: &str) -> io::Result<[u8; 4]> {
    match small_numbers(alloc, text)?.as_slice() {
        [first, second, third, fourth] => Ok([*first, *second, *third, *fourth]),
        _ => Err(bad_row()),
    }
}

// A coded block without integers.
fn shape(text: &str) -> io::Result<Coded> {
    let [mode, parts, seed, selector, plane] = numbers::<5>(text)?;
    Ok(Coded {
        mode: short(mode)?,
        parts: small(parts)?,
        seed: short(seed)?,
        selector: small(selector)?,
        cems: [0; 4],
        colours: ArrayVec::new(),
        weights: ArrayVec::new(),
        plane: small(plane)?,
    })
}

// A coded block.
fn coded(alloc: Global, text: &str) -> io::Result<Block> {
    let (head, lists) = text.split_once(" of ").unwrap_or((text, ""));
    let (cems, rest) = cut(lists);
    let (colours, weights) = cut(rest);
    let mut block = shape(head)?;
    block.cems = cems_of(alloc, cems)?;
    block.colours = integers(alloc, colours)?;
    block.weights = integers(alloc, weights)?;
    Ok(Block::Coded(block))
}

/// A block by its fields: `constant R G B A of S T P Q`, or `MODE PARTS SEED SELECTOR PLANE of CEMS
/// COLOURS WEIGHTS`, the lists with a comma between two.
///
/// # Errors
///
/// If a number is missing, or memory.
pub fn block_of_fields(alloc: Global, text: &str) -> io::Result<Block> {
    match text.strip_prefix("constant ") {
        Some(rest) => constant(rest),
        None => coded(alloc, text),
    }
}

// The fields of a coded block.
fn told_coded(alloc: Global, block: &Coded) -> Result<String, AllocError> {
    let (mode, parts, seed) = (block.mode, block.parts, block.seed);
    let (selector, plane) = (block.selector, block.plane);
    let cems = &block.cems;
    let colours = block.colours.as_slice();
    let weights = block.weights.as_slice();
    format!(in alloc;
        "mode {mode} parts {parts} seed {seed} selector {selector} cems {cems:?} \
         colours {colours:?} weights {weights:?} plane {plane}"
    )
}

/// Every field of a block.
///
/// # Errors
///
/// Out of memory.
pub fn told_block(alloc: Global, block: &Block) -> Result<String, AllocError> {
    match block {
        Block::Coded(block) => told_coded(alloc, block),
        Block::Constant(block) => {
            let rgba = &block.rgba;
            let extent = &block.extent;
            format!(in alloc; "rgba {rgba:?} extent {extent:?}")
        }
    }
}

// Blocks that are read and written.
use astc_model::{Block, BlockFault, FootprintName, constant_bytes, for_footprint};
use block_mode::{is_extent_ordered, is_legal};
use block_reader::read_block;
use block_writer::write_block;
use case_blocks::{block_of_fields, told_block};
use case_files::{bad_row, block_of_digits, numbers, short, told};
use std::alloc::Global;
use std::io;

fn read<const W: usize, const H: usize>(bytes: &[u8; 16]) -> Result<Block, BlockFault> {
    read_block::<W, H>(bytes)
}

/// The fields of a block, or its first fault: `FOOTPRINT BLOCK`.
pub fn read_answer(alloc: Global, words: &str) -> io::Result<String> {
    let (name, digits) = words.split_once(' ').unwrap_or((words, ""));
    let Some(name) = FootprintName::from_word(name) else {
        return Err(bad_row());
    };
    let bytes = &block_of_digits(digits);
    match for_footprint!(name, read(bytes)) {
        Ok(block) => Ok(told_block(alloc, &block)?),
        Err(fault) => Ok(format!(in alloc; "{fault:?}")?),
    }
}

fn written<const W: usize, const H: usize>(block: &Block) -> Option<[u8; 16]> {
    if is_legal::<W, H>(block) {
        Some(write_block::<W, H>(block))
    } else {
        None
    }
}

/// The bytes of a block, which must equal those of a copy: `FOOTPRINT FIELDS`.
pub fn written_answer(alloc: Global, words: &str) -> io::Result<String> {
    let (name, fields) = words.split_once(' ').unwrap_or((words, ""));
    let Some(name) = FootprintName::from_word(name) else {
        return Err(bad_row());
    };
    let block = block_of_fields(alloc, fields)?;
    if block.copy() != block {
        return Err(bad_row());
    }
    let block = &block;
    match for_footprint!(name, written(block)) {
        Some(bytes) => Ok(told(alloc, &bytes)?),
        None => Ok(String::from_str(alloc, "not legal")?),
    }
}

/// The bytes of a constant without an extent: `RED GREEN BLUE ALPHA`.
pub fn constant_answer(alloc: Global, words: &str) -> io::Result<String> {
    let [red, green, blue, alpha] = numbers::<4>(words)?;
    let rgba = [short(red)?, short(green)?, short(blue)?, short(alpha)?];
    Ok(told(alloc, &constant_bytes(rgba))?)
}

/// Whether an extent is in order: `S T P Q`, the least and the greatest of each.
pub fn extent_answer(alloc: Global, words: &str) -> io::Result<String> {
    let [s, t, p, q] = numbers::<4>(words)?;
    let is_ordered = is_extent_ordered(&[short(s)?, short(t)?, short(p)?, short(q)?]);
    Ok(format!(in alloc; "{is_ordered}")?)
}

/// The block that stands for none.
pub fn default_answer(alloc: Global) -> io::Result<String> {
    Ok(told_block(alloc, &Block::default())?)
}

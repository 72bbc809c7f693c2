// The blocks and the errors of gathered parts.
ghost use Rattle.std.specs.Prelude.{◌≡◌, ◌++◌, map, IfOk, OnOk};
ghost use Rattle.part_file.specs.Pieces.{block_of, error_of};
ghost use Rattle.parting.specs.Joins.{blocks_in, errors_in};
ghost use Rattle.parting.specs.Gathering.{parts_of, slot_blocks, slot_errors};

use part_file::{Part, block_of, error_of};
use std::alloc::{AllocError, Global};

// Appends the blocks of pieces to `blocks`.
fn push_blocks(blocks: &mut Vec<[u8; 16]>, pieces: &[[u8; 20]]) -> Result<(), AllocError>
    ensures { OnOk result (blocks.new.items ≡ blocks.old.items ++ map block_of pieces.now) }
{
    for piece in pieces {
        blocks.push(block_of(piece))?;
    }
    Ok(())
}

// Appends the errors of pieces to `errors`.
fn push_errors(errors: &mut Vec<u32>, pieces: &[[u8; 20]]) -> Result<(), AllocError>
    ensures { OnOk result (errors.new.items ≡ errors.old.items ++ map error_of pieces.now) }
{
    for piece in pieces {
        errors.push(error_of(piece))?;
    }
    Ok(())
}

// Appends the blocks of a part to `blocks`.
fn push_slot_blocks(blocks: &mut Vec<[u8; 16]>, slot: &Option<Part>) -> Result<(), AllocError>
    ensures { OnOk result (blocks.new.items ≡ blocks.old.items ++ slot_blocks slot.now) }
{
    match slot {
        Some(part) => push_blocks(blocks, part.pieces()),
        None => Ok(()),
    }
}

// Appends the errors of a part to `errors`.
fn push_slot_errors(errors: &mut Vec<u32>, slot: &Option<Part>) -> Result<(), AllocError>
    ensures { OnOk result (errors.new.items ≡ errors.old.items ++ slot_errors slot.now) }
{
    match slot {
        Some(part) => push_errors(errors, part.pieces()),
        None => Ok(()),
    }
}

/// The blocks of the parts, one part after another.
///
/// # Errors
///
/// Out of memory.
pub fn all_blocks(alloc: Global, slots: &[Option<Part>]) -> Result<Vec<[u8; 16]>, AllocError>
    ensures { IfOk result (λ blocks. blocks.items ≡ blocks_in (parts_of slots.now)) }
{
    let mut blocks = Vec::new(alloc);
    for slot in slots {
        push_slot_blocks(&mut blocks, slot)?;
    }
    Ok(blocks)
}

/// The errors of the parts, one part after another.
///
/// # Errors
///
/// Out of memory.
pub fn all_errors(alloc: Global, slots: &[Option<Part>]) -> Result<Vec<u32>, AllocError>
    ensures { IfOk result (λ errors. errors.items ≡ errors_in (parts_of slots.now)) }
{
    let mut errors = Vec::new(alloc);
    for slot in slots {
        push_slot_errors(&mut errors, slot)?;
    }
    Ok(errors)
}

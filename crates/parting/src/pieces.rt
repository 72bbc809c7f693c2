// Blocks with their errors.
ghost use Rattle.std.specs.Prelude.{◌≡◌, IfOk, length};
ghost use Rattle.parting.specs.Parts.{pieces_of};

use part_file::piece_of;
use std::alloc::{AllocError, Global};

/// Each block with its error.
///
/// # Errors
///
/// Out of memory.
pub fn pieces_of(
    alloc: Global,
    blocks: &[[u8; 16]],
    errors: &[u32],
) -> Result<Vec<[u8; 20]>, AllocError>
    requires { length errors.now ≡ length blocks.now }
    ensures { IfOk result (λ pieces. pieces.items ≡ pieces_of blocks.now errors.now) }
{
    let mut pieces = Vec::new(alloc);
    for k in 0..blocks.len() {
        pieces.push(piece_of(&blocks[k], errors[k]))?;
    }
    Ok(pieces)
}

// The start of an input.
ghost use Rattle.std.specs.Prelude.{◌≡◌, ◌≤◌, ◌<◌, length, IfOk};
ghost use Rattle.pam_header.specs.Headers.{header_most};
ghost use Rattle.tex_shelf.specs.Files.{with_front, emptied};
ghost use Rattle.pam_image.specs.Outside.{OnlyTakes};

use std::alloc::Global;
use tex_shelf::{Shelf, ShelfStop, take_growing};

// No header has more bytes.
const HEADER_MOST: usize = 4096;

/// The first bytes of an input, of which these were taken before: 4,096 of them, or all.
pub(crate) fn front_of<S: Shelf>(
    alloc: Global,
    shelf: &mut S,
    ahead: &[u8],
) -> Result<Vec<u8>, ShelfStop>
    requires { length ahead.now ≤ header_most }
    ensures input { IfOk result (λ front. with_front ahead.now (S.left shelf.old)
        ≡ with_front front.items (S.left shelf.new)) }
    ensures short { IfOk result (λ front. length front.items ≤ header_most) }
    ensures ended { IfOk result (λ front. length front.items < header_most → S.left shelf.new
        ≡ emptied (S.left shelf.new)) }
    ensures outside { OnlyTakes S.Shelf shelf.old shelf.new ShelfStop.Failed result }
{
    let mut front = Vec::from_slice(alloc, ahead)?;
    take_growing(shelf, &mut front, HEADER_MOST - ahead.len())?;
    Ok(front)
}

// A file read from the opened input of a shelf.
ghost use Rattle.std.specs.Prelude.{◌≡◌, ℕ, List, Some, Ok, Err, take, drop, IfOk, OnOk, IsErrOf};
ghost use Rattle.tex_shelf.specs.Faults.{Rose};
ghost use Rattle.tex_shelf.specs.Files.{emptied};
ghost use Rattle.tex_shelf.specs.Frames.{OnlyReads};
ghost use Rattle.tex_shelf.specs.Stops.{Answers, ReadsWhole, FaultsCome, SuccessComes, StopsEarly};
ghost use Rattle.astc_file.specs.Counting.{AreFileSides};
ghost use Rattle.astc_file.specs.Headers.{header_in};
ghost use Rattle.astc_file.specs.Files.{IsImage, astc_of};
ghost use Rattle.astc_file.specs.Reading.{is_early};

use crate::counting::block_count;
use crate::header::{AstcHeader, header_in};
use crate::{AstcFault, AstcImage, AstcStop};
use std::alloc::Global;
use tex_shelf::{Shelf, Stop, read_pieces, take_full};

fn read_header<S: Shelf>(shelf: &mut S) -> Result<AstcHeader, AstcStop>
    ensures reads { (input : List ℕ) → S.left shelf.old ≡ Some input
        → Answers (λ header. header_in (take 16 input) ≡ Ok header) (header_in (take 16 input))
        (S.left shelf.new) (drop 16 input) result }
    ensures early { StopsEarly is_early 16 (S.left shelf.old) (S.left shelf.new) result }
    ensures valid { IfOk result (λ header. AreFileSides header.width header.height) }
    ensures read_fault { IsErrOf result Stop.ReadFault → Rose (S.read_faults shelf.old)
        (S.read_faults shelf.new) }
    ensures rest { OnlyReads S.Shelf shelf.old shelf.new }
{
    let mut front = [0; 16];
    let taken = take_full(shelf, &mut front)?;
    let header = header_in(&front[..taken])?;
    Ok(header)
}

// The steps of reading a file.
fn read_steps<S: Shelf>(alloc: Global, shelf: &mut S) -> Result<AstcImage, AstcStop>
    ensures reads { ReadsWhole astc_of (S.left shelf.old) (S.left shelf.new) result }
    ensures early { StopsEarly is_early 16 (S.left shelf.old) (S.left shelf.new) result }
    ensures ended { OnOk result (S.left shelf.new ≡ emptied (S.left shelf.new)) }
    ensures valid { IfOk result IsImage }
    ensures read_fault { IsErrOf result Stop.ReadFault → Rose (S.read_faults shelf.old)
        (S.read_faults shelf.new) }
    ensures rest { OnlyReads S.Shelf shelf.old shelf.new }
{
    let header = read_header(shelf)?;
    let count = block_count(header.name, header.width, header.height);
    match read_pieces(alloc, shelf, count as usize, 16) {
        Ok(blocks) => Ok(AstcImage::new(header.name, header.width, header.height, blocks)),
        Err(stop) => Err(stop.map_fault()),
    }
}

/// Reads the opened input to its end. Memory grows as the blocks arrive; the blocks are not
/// checked.
///
/// # Errors
///
/// `Fault` for an input that is not such a file, with its first fault; `ReadFault` if a read
/// failed; `NoMemory`. After a fault of the header at most 16 bytes were taken.
pub fn read_astc<S: Shelf>(alloc: Global, shelf: &mut S) -> Result<AstcImage, AstcStop>
    ensures reads { ReadsWhole astc_of (S.left shelf.old) (S.left shelf.new) result }
    ensures first_fault { FaultsCome astc_of (S.left shelf.old) (S.read_faults shelf.old)
        (S.read_faults shelf.new) result }
    ensures complete { SuccessComes astc_of (S.left shelf.old) (S.read_faults shelf.old)
        (S.read_faults shelf.new) result }
    ensures early { StopsEarly is_early 16 (S.left shelf.old) (S.left shelf.new) result }
    ensures ended { OnOk result (S.left shelf.new ≡ emptied (S.left shelf.new)) }
    ensures valid { IfOk result IsImage }
    ensures read_fault { IsErrOf result Stop.ReadFault → Rose (S.read_faults shelf.old)
        (S.read_faults shelf.new) }
    ensures rest { OnlyReads S.Shelf shelf.old shelf.new }
{
    read_steps(alloc, shelf)
}

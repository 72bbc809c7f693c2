// A file read from the opened input of a shelf.
ghost use Rattle.std.specs.Prelude.{◌≡◌, ◌≤◌, ℕ, List, Some, Ok, Err, take, drop, IfOk, OnOk, IsErrOf};
ghost use Rattle.tex_shelf.specs.Faults.{Rose};
ghost use Rattle.tex_shelf.specs.Files.{emptied};
ghost use Rattle.tex_shelf.specs.Frames.{OnlyReads};
ghost use Rattle.tex_shelf.specs.Stops.{Answers, ReadsWhole, FaultsCome, SuccessComes, StopsEarly};
ghost use Rattle.ktx_header.specs.Extents.{most_key_bytes};
ghost use Rattle.ktx_file.specs.Headers.{header_in};
ghost use Rattle.ktx_file.specs.Files.{IsFile, ktx_of};
ghost use Rattle.ktx_file.specs.Reading.{is_early};

use crate::front::{KtxHeader, header_in};
use crate::levels::read_data;
use crate::{Ktx, KtxFault, KtxStop};
use std::alloc::Global;
use tex_shelf::{Shelf, Stop, take_full};

fn read_header<S: Shelf>(shelf: &mut S) -> Result<KtxHeader, KtxStop>
    ensures reads { (input : List ℕ) → S.left shelf.old ≡ Some input
        → Answers (λ header. header_in (take 64 input) ≡ Ok header) (header_in (take 64 input))
        (S.left shelf.new) (drop 64 input) result }
    ensures early { StopsEarly is_early 64 (S.left shelf.old) (S.left shelf.new) result }
    ensures keys { IfOk result (λ header. header.key_bytes ≤ most_key_bytes) }
    ensures read_fault { IsErrOf result Stop.ReadFault → Rose (S.read_faults shelf.old)
        (S.read_faults shelf.new) }
    ensures rest { OnlyReads S.Shelf shelf.old shelf.new }
{
    let mut front = [0; 64];
    let taken = take_full(shelf, &mut front)?;
    let header = header_in(&front[..taken])?;
    Ok(header)
}

// The steps of reading a file.
fn read_steps<S: Shelf>(alloc: Global, shelf: &mut S) -> Result<Ktx, KtxStop>
    ensures reads { ReadsWhole ktx_of (S.left shelf.old) (S.left shelf.new) result }
    ensures early { StopsEarly is_early 64 (S.left shelf.old) (S.left shelf.new) result }
    ensures ended { OnOk result (S.left shelf.new ≡ emptied (S.left shelf.new)) }
    ensures valid { IfOk result IsFile }
    ensures read_fault { IsErrOf result Stop.ReadFault → Rose (S.read_faults shelf.old)
        (S.read_faults shelf.new) }
    ensures rest { OnlyReads S.Shelf shelf.old shelf.new }
{
    let header = read_header(shelf)?;
    match read_data(alloc, shelf, &header) {
        Ok(blocks) => Ok(Ktx::new(header.layout, blocks)),
        Err(stop) => Err(stop.map_fault()),
    }
}

/// Reads the opened input to its end: a file in either byte order. Keys are skipped. Memory grows
/// as the blocks arrive.
///
/// # Errors
///
/// `Fault` for an input that is not such a file, with its first fault; `ReadFault` if a read
/// failed; `NoMemory`. After a fault of the header at most 64 bytes were taken.
pub fn read_file<S: Shelf>(alloc: Global, shelf: &mut S) -> Result<Ktx, KtxStop>
    ensures reads { ReadsWhole ktx_of (S.left shelf.old) (S.left shelf.new) result }
    ensures first_fault { FaultsCome ktx_of (S.left shelf.old) (S.read_faults shelf.old)
        (S.read_faults shelf.new) result }
    ensures complete { SuccessComes ktx_of (S.left shelf.old) (S.read_faults shelf.old)
        (S.read_faults shelf.new) result }
    ensures early { StopsEarly is_early 64 (S.left shelf.old) (S.left shelf.new) result }
    ensures ended { OnOk result (S.left shelf.new ≡ emptied (S.left shelf.new)) }
    ensures valid { IfOk result IsFile }
    ensures read_fault { IsErrOf result Stop.ReadFault → Rose (S.read_faults shelf.old)
        (S.read_faults shelf.new) }
    ensures rest { OnlyReads S.Shelf shelf.old shelf.new }
{
    read_steps(alloc, shelf)
}

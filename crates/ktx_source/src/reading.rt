// A file read from the opened input of a shelf.
ghost use Rattle.std.specs.Prelude.{◌≡◌, ◌≤◌, ℕ, List, Some, Ok, Err, take, drop, IfOk, OnOk, IsErrOf};
ghost use Rattle.tex_shelf.specs.Faults.{Rose};
ghost use Rattle.tex_shelf.specs.Files.{emptied};
ghost use Rattle.tex_shelf.specs.Frames.{OnlyReads};
ghost use Rattle.tex_shelf.specs.Stops.{Answers, ReadsWhole, FaultsCome, SuccessComes, StopsEarly};
ghost use Rattle.texture.specs.Extents.{IsExtent};
ghost use Rattle.ktx_header.specs.Extents.{most_key_bytes};
ghost use Rattle.ktx_source.specs.Headers.{header_in};
ghost use Rattle.ktx_source.specs.Sources.{IsSource, source_of};
ghost use Rattle.ktx_source.specs.Reading.{is_early};

use crate::front::{SourceHeader, header_in};
use crate::levels::read_data;
use crate::{SourceFault, SourceKtx, SourceStop};
use std::alloc::Global;
use tex_shelf::{Shelf, Stop, take_full};

fn read_header<S: Shelf>(shelf: &mut S) -> Result<SourceHeader, SourceStop>
    ensures reads { (input : List ℕ) → S.left shelf.old ≡ Some input
        → Answers (λ header. header_in (take 64 input) ≡ Ok header) (header_in (take 64 input))
        (S.left shelf.new) (drop 64 input) result }
    ensures early { StopsEarly is_early 64 (S.left shelf.old) (S.left shelf.new) result }
    ensures valid { IfOk result (λ header. IsExtent header.extent) }
    ensures keys { IfOk result (λ header. header.key_bytes ≤ most_key_bytes) }
    ensures read_fault { IsErrOf result Stop.ReadFault → Rose (S.read_faults shelf.old)
        (S.read_faults shelf.new) }
    ensures rest { OnlyReads S.Shelf shelf.old shelf.new }
{
    let mut front = [0; 64];
    let taken = take_full(shelf, &mut front)?;
    let header = header_in(&front[..taken])?;
    Ok(header)
}

// The steps of reading a file.
fn read_steps<S: Shelf>(alloc: Global, shelf: &mut S) -> Result<SourceKtx, SourceStop>
    ensures reads { ReadsWhole source_of (S.left shelf.old) (S.left shelf.new) result }
    ensures early { StopsEarly is_early 64 (S.left shelf.old) (S.left shelf.new) result }
    ensures ended { OnOk result (S.left shelf.new ≡ emptied (S.left shelf.new)) }
    ensures valid { IfOk result IsSource }
    ensures read_fault { IsErrOf result Stop.ReadFault → Rose (S.read_faults shelf.old)
        (S.read_faults shelf.new) }
    ensures rest { OnlyReads S.Shelf shelf.old shelf.new }
{
    let header = read_header(shelf)?;
    match read_data(alloc, shelf, &header) {
        Ok(levels) => Ok(SourceKtx::new(header.extent, levels)),
        Err(stop) => Err(stop.map_fault()),
    }
}

/// Reads the opened input to its end: an uncompressed file in either byte order, with texels of
/// red, green and blue, or of red, green, blue and alpha, of eight bits each. Keys and the padding
/// of rows are skipped. Memory grows as the texels arrive.
///
/// # Errors
///
/// `Fault` for an input that is not such a file, with its first fault; `ReadFault` if a read
/// failed; `NoMemory`. After a fault of the header at most 64 bytes were taken.
pub fn read_source<S: Shelf>(alloc: Global, shelf: &mut S) -> Result<SourceKtx, SourceStop>
    ensures reads { ReadsWhole source_of (S.left shelf.old) (S.left shelf.new) result }
    ensures first_fault { FaultsCome source_of (S.left shelf.old) (S.read_faults shelf.old)
        (S.read_faults shelf.new) result }
    ensures complete { SuccessComes source_of (S.left shelf.old) (S.read_faults shelf.old)
        (S.read_faults shelf.new) result }
    ensures early { StopsEarly is_early 64 (S.left shelf.old) (S.left shelf.new) result }
    ensures ended { OnOk result (S.left shelf.new ≡ emptied (S.left shelf.new)) }
    ensures valid { IfOk result IsSource }
    ensures read_fault { IsErrOf result Stop.ReadFault → Rose (S.read_faults shelf.old)
        (S.read_faults shelf.new) }
    ensures rest { OnlyReads S.Shelf shelf.old shelf.new }
{
    read_steps(alloc, shelf)
}

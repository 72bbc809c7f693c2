// A part file read from the opened input of a shelf.
ghost use Rattle.std.specs.Prelude.{◌≡◌, ℕ, List, Some, Ok, Err, take, drop, IfOk, OnOk, IsErrOf};
ghost use Rattle.tex_shelf.specs.Faults.{Rose};
ghost use Rattle.tex_shelf.specs.Files.{emptied};
ghost use Rattle.tex_shelf.specs.Frames.{OnlyReads};
ghost use Rattle.tex_shelf.specs.Stops.{Answers, ReadsWhole, FaultsCome, SuccessComes, StopsEarly};
ghost use Rattle.part_file.specs.Fronts.{IsFront, front_in};
ghost use Rattle.part_file.specs.Files.{IsPart, part_of};
ghost use Rattle.part_file.specs.Reading.{is_early};

use crate::front::front_in;
use crate::range::part_range;
use crate::{Front, Part, PartFault, PartStop};
use std::alloc::Global;
use tex_shelf::{Shelf, Stop, read_pieces, take_full};

fn read_front<S: Shelf>(shelf: &mut S) -> Result<Front, PartStop>
    ensures reads { (input : List ℕ) → S.left shelf.old ≡ Some input
        → Answers (λ front. front_in (take 132 input) ≡ Ok front) (front_in (take 132 input))
        (S.left shelf.new) (drop 132 input) result }
    ensures early { StopsEarly is_early 132 (S.left shelf.old) (S.left shelf.new) result }
    ensures valid { IfOk result IsFront }
    ensures read_fault { IsErrOf result Stop.ReadFault → Rose (S.read_faults shelf.old)
        (S.read_faults shelf.new) }
    ensures rest { OnlyReads S.Shelf shelf.old shelf.new }
{
    let mut bytes = [0; 132];
    let taken = take_full(shelf, &mut bytes)?;
    let front = front_in(&bytes[..taken])?;
    Ok(front)
}

// The steps of reading a file.
fn read_steps<S: Shelf>(alloc: Global, shelf: &mut S) -> Result<Part, PartStop>
    ensures reads { ReadsWhole part_of (S.left shelf.old) (S.left shelf.new) result }
    ensures early { StopsEarly is_early 132 (S.left shelf.old) (S.left shelf.new) result }
    ensures ended { OnOk result (S.left shelf.new ≡ emptied (S.left shelf.new)) }
    ensures valid { IfOk result IsPart }
    ensures read_fault { IsErrOf result Stop.ReadFault → Rose (S.read_faults shelf.old)
        (S.read_faults shelf.new) }
    ensures rest { OnlyReads S.Shelf shelf.old shelf.new }
{
    let front = read_front(shelf)?;
    let range = part_range(&front.layout, front.place, front.count);
    match read_pieces(alloc, shelf, range.1 as usize, 132) {
        Ok(pieces) => Ok(Part::new(front, pieces)),
        Err(stop) => Err(stop.map_fault()),
    }
}

/// Reads the opened input to its end. Memory grows as the blocks arrive; neither blocks nor errors
/// are checked.
///
/// # Errors
///
/// `Fault` for an input that is not such a file, with its first fault; `ReadFault` if a read
/// failed; `NoMemory`. After a fault of the prefix at most 132 bytes were taken.
pub fn read_part<S: Shelf>(alloc: Global, shelf: &mut S) -> Result<Part, PartStop>
    ensures reads { ReadsWhole part_of (S.left shelf.old) (S.left shelf.new) result }
    ensures first_fault { FaultsCome part_of (S.left shelf.old) (S.read_faults shelf.old)
        (S.read_faults shelf.new) result }
    ensures complete { SuccessComes part_of (S.left shelf.old) (S.read_faults shelf.old)
        (S.read_faults shelf.new) result }
    ensures early { StopsEarly is_early 132 (S.left shelf.old) (S.left shelf.new) result }
    ensures ended { OnOk result (S.left shelf.new ≡ emptied (S.left shelf.new)) }
    ensures valid { IfOk result IsPart }
    ensures read_fault { IsErrOf result Stop.ReadFault → Rose (S.read_faults shelf.old)
        (S.read_faults shelf.new) }
    ensures rest { OnlyReads S.Shelf shelf.old shelf.new }
{
    read_steps(alloc, shelf)
}

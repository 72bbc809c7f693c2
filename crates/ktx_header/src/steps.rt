// The steps of reading the contents after a header.
ghost use Rattle.std.specs.Prelude.{◌≡◌, ◌<◌, ◌+◌, ◌^◌, ℕ, List, [], Some, Ok, length, drop, OnOk, IsErrOf};
ghost use Rattle.tex_shelf.specs.Faults.{Rose};
ghost use Rattle.tex_shelf.specs.Files.{emptied};
ghost use Rattle.tex_shelf.specs.Frames.{OnlyReads};
ghost use Rattle.tex_shelf.specs.Stops.{Answers};
ghost use Rattle.ktx_header.specs.Levels.{enough, right_size, sized, ended};

use crate::{DataFault, WordOrder, word};
use tex_shelf::{Shelf, Stop, is_at_end, skip, take_full};

/// There are as many bytes as requested, after this number of bytes of the file.
///
/// # Errors
///
/// `ShortData`.
pub fn enough(wanted: usize, count: usize, before: u64) -> Result<(), DataFault>
    requires { before + count < 2 ^ 64 }
    ensures { result ≡ enough wanted count before }
{
    if count < wanted {
        return Err(DataFault::ShortData(before + count as u64));
    }
    Ok(())
}

// The size of a level is as it must be.
fn right_size(level: u32, found: u32, wanted: u32) -> Result<(), DataFault>
    ensures { result ≡ right_size level found wanted }
{
    if found != wanted {
        return Err(DataFault::BadImageSize {
            level: u64::from(level),
            found: u64::from(found),
            wanted: u64::from(wanted),
        });
    }
    Ok(())
}

/// Skips the keys after the 64 bytes of a header.
///
/// # Errors
///
/// `Fault` with `ShortData`; `ReadFault`; `NoMemory`.
pub fn skip_keys<S: Shelf>(shelf: &mut S, key_bytes: u32) -> Result<(), Stop<DataFault>>
    ensures reads { (input : List ℕ) → S.left shelf.old ≡ Some input
        → Answers (λ _. enough key_bytes (length input) 64 ≡ Ok tt)
        (enough key_bytes (length input) 64) (S.left shelf.new) (drop key_bytes input) result }
    ensures read_fault { IsErrOf result Stop.ReadFault → Rose (S.read_faults shelf.old)
        (S.read_faults shelf.new) }
    ensures rest { OnlyReads S.Shelf shelf.old shelf.new }
{
    let skipped = skip(shelf, key_bytes as usize)?;
    enough(key_bytes as usize, skipped, 64)?;
    Ok(())
}

/// Reads the imageSize of a level, which must be this one, after this number of bytes of the file.
///
/// # Errors
///
/// `Fault` with `ShortData` or `BadImageSize`; `ReadFault`; `NoMemory`.
pub fn read_size<S: Shelf>(
    shelf: &mut S,
    order: WordOrder,
    level: u32,
    wanted: u32,
    before: u64,
) -> Result<(), Stop<DataFault>>
    requires { before < 2 ^ 62 }
    ensures reads { (input : List ℕ) → S.left shelf.old ≡ Some input
        → Answers (λ _. sized order level wanted before input ≡ Ok tt)
        (sized order level wanted before input) (S.left shelf.new) (drop 4 input) result }
    ensures read_fault { IsErrOf result Stop.ReadFault → Rose (S.read_faults shelf.old)
        (S.read_faults shelf.new) }
    ensures rest { OnlyReads S.Shelf shelf.old shelf.new }
{
    let mut size = [0; 4];
    let taken = take_full(shelf, &mut size)?;
    enough(4, taken, before)?;
    right_size(level, word(order, &size), wanted)?;
    Ok(())
}

/// Sees that nothing is left of the input.
///
/// # Errors
///
/// `Fault` with `TrailingBytes`; `ReadFault`; `NoMemory`.
pub fn end<S: Shelf>(shelf: &mut S) -> Result<(), Stop<DataFault>>
    ensures reads { (input : List ℕ) → S.left shelf.old ≡ Some input
        → Answers (λ _. input ≡ []) (ended input) (S.left shelf.new) [] result }
    ensures ended { OnOk result (S.left shelf.new ≡ emptied (S.left shelf.new)) }
    ensures read_fault { IsErrOf result Stop.ReadFault → Rose (S.read_faults shelf.old)
        (S.read_faults shelf.new) }
    ensures rest { OnlyReads S.Shelf shelf.old shelf.new }
{
    if !is_at_end(shelf)? {
        return Err(Stop::Fault(DataFault::TrailingBytes));
    }
    Ok(())
}

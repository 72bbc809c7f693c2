// Bytes moved from the start of an input to the end of others.
ghost use Rattle.std.specs.Prelude.{◌≡◌, ◌≤◌, ◌-◌, ◌++◌, ℕ, List, length, take, drop, is_some, IfOk, IsErrOf};
ghost use Rattle.tex_shelf.specs.Faults.{Rose};
ghost use Rattle.tex_shelf.specs.Frames.{OnlyReads};
ghost use Rattle.tex_shelf.specs.Taking.{IsTaken};

use crate::{Shelf, ShelfStop, take_full};

// The bytes that memory is taken for before any have come.
const STEP: usize = 65_536;

// Takes bytes into the places from `at` on, until they are full or the input ends.
fn take_behind<S: Shelf>(shelf: &mut S, bytes: &mut [u8], at: usize) -> Result<usize, ShelfStop>
    requires { at ≤ length bytes.old }
    ensures front { IfOk result (λ n. take at bytes.new ≡ take at bytes.old) }
    ensures taken { IfOk result (λ n. IsTaken (length bytes.old - at) n (take n (drop at bytes.new))
        (S.left shelf.old) (S.left shelf.new)) }
    ensures told { is_some (S.left shelf.new) ≡ is_some (S.left shelf.old) }
    ensures failed { IsErrOf result ShelfStop.Failed → Rose (S.read_faults shelf.old)
        (S.read_faults shelf.new) }
    ensures rest { OnlyReads S.Shelf shelf.old shelf.new }
{
    take_full(shelf, &mut bytes[at..])
}

// Takes `most` bytes, or all that are left if they are fewer, after the bytes that are there, and
// returns their number.
fn take_step<S: Shelf>(shelf: &mut S, bytes: &mut Vec<u8>, most: usize) -> Result<usize, ShelfStop>
    requires { most ≤ 268435456 }
    ensures taken { IfOk result (λ n. (these : List ℕ) × IsTaken most n these (S.left shelf.old)
        (S.left shelf.new) × (bytes.new.items ≡ bytes.old.items ++ these)) }
    ensures told { is_some (S.left shelf.new) ≡ is_some (S.left shelf.old) }
    ensures failed { IsErrOf result ShelfStop.Failed → Rose (S.read_faults shelf.old)
        (S.read_faults shelf.new) }
    ensures rest { OnlyReads S.Shelf shelf.old shelf.new }
{
    let at = bytes.len();
    bytes.resize(at + most, 0)?;
    let taken = take_behind(shelf, bytes, at)?;
    bytes.truncate(at + taken);
    Ok(taken)
}

/// Takes `most` bytes into their place after the bytes that are there, and returns their number:
/// fewer than requested only at the end of the input. Memory is taken as bytes arrive, in
/// proportion to those that have arrived.
///
/// # Errors
///
/// `Failed` if `read_faults` rose, and `NoMemory`.
pub fn take_growing<S: Shelf>(
    shelf: &mut S,
    bytes: &mut Vec<u8>,
    wanted: usize,
) -> Result<usize, ShelfStop>
    requires { wanted ≤ 268435456 }
    ensures taken { IfOk result (λ n. (these : List ℕ) × IsTaken wanted n these (S.left shelf.old)
        (S.left shelf.new) × (bytes.new.items ≡ bytes.old.items ++ these)) }
    ensures told { is_some (S.left shelf.new) ≡ is_some (S.left shelf.old) }
    ensures failed { IsErrOf result ShelfStop.Failed → Rose (S.read_faults shelf.old)
        (S.read_faults shelf.new) }
    ensures rest { OnlyReads S.Shelf shelf.old shelf.new }
{
    let mut done = 0;
    while done < wanted {
        let step = (wanted - done).min(done.max(STEP));
        let taken = take_step(shelf, bytes, step)?;
        if taken < step {
            return Ok(done + taken);
        }
        done += step;
    }
    Ok(wanted)
}

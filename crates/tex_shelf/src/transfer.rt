// Whole transfers, over any shelf.
ghost use Rattle.std.specs.Prelude.{◌≡◌, ◌≤◌, ℕ, List, length, take, drop, is_some, IsSome, IfOk, OnOk, OnErr, IsErrOf};
ghost use Rattle.tex_shelf.specs.Files.{with_more, with_front};
ghost use Rattle.tex_shelf.specs.Faults.{Rose};
ghost use Rattle.tex_shelf.specs.Frames.{OnlyReads, OnlyWrites};
ghost use Rattle.tex_shelf.specs.Taking.{IsTaken};

use crate::{Shelf, ShelfStop};

/// Moves bytes from the start of the input into the first places of `into`, until it is full or the
/// input ends, and returns their number.
///
/// # Errors
///
/// `Failed` if `read_faults` rose, and `NoMemory`. Some of the input may then be taken.
pub fn take_full<S: Shelf>(shelf: &mut S, into: &mut [u8]) -> Result<usize, ShelfStop>
    ensures taken { IfOk result (λ n. IsTaken (length into.old) n (take n into.new)
        (S.left shelf.old) (S.left shelf.new)) }
    ensures places { IfOk result (λ n. drop n into.new ≡ drop n into.old) }
    ensures told { is_some (S.left shelf.new) ≡ is_some (S.left shelf.old) }
    ensures partly { OnErr result ((taken : List ℕ)
        × (S.left shelf.old ≡ with_front taken (S.left shelf.new))) }
    ensures failed { IsErrOf result ShelfStop.Failed → Rose (S.read_faults shelf.old)
        (S.read_faults shelf.new) }
    ensures rest { OnlyReads S.Shelf shelf.old shelf.new }
{
    let mut done = 0;
    while done < into.len() {
        let taken = shelf.take(&mut into[done..])?;
        if taken == 0 {
            break;
        }
        done += taken;
    }
    Ok(done)
}

/// Appends the whole piece to the target.
///
/// # Errors
///
/// `Failed` if `write_faults` rose, and `NoMemory`. A prefix of the piece may then be appended.
pub fn put_all<S: Shelf>(shelf: &mut S, piece: &[u8]) -> Result<(), ShelfStop>
    requires { IsSome (S.target shelf.old) }
    ensures bytes { OnOk result (S.files shelf.new ≡ with_more (S.files shelf.old)
        (S.target shelf.old) piece.now) }
    ensures partly { OnErr result ((k : ℕ) × (k ≤ length piece.now)
        × (S.files shelf.new ≡ with_more (S.files shelf.old) (S.target shelf.old)
        (take k piece.now))) }
    ensures left { S.left shelf.new ≡ S.left shelf.old }
    ensures target { S.target shelf.new ≡ S.target shelf.old }
    ensures failed { IsErrOf result ShelfStop.Failed → Rose (S.write_faults shelf.old)
        (S.write_faults shelf.new) }
    ensures rest { OnlyWrites S.Shelf shelf.old shelf.new }
{
    let mut done = 0;
    while done < piece.len() {
        done += shelf.put(&piece[done..])?;
    }
    Ok(())
}

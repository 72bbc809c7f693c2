// Outputs of commands.
ghost use Rattle.std.specs.Prelude.{◌≡◌, Some, IsSome, OnOk};
ghost use Rattle.tex_shelf.specs.Frames.{OnlyWrites};
ghost use Rattle.outcomes.specs.Causes.{Puts, Stores, joined};

use tex_shelf::{Shelf, ShelfStop, put_all};

/// Puts pieces, one after another.
fn put_each<S: Shelf>(shelf: &mut S, pieces: &[&[u8]]) -> Result<(), ShelfStop>
    requires { IsSome (S.target shelf.old) }
    ensures puts { Puts (S.files shelf.old) (S.target shelf.old) (S.files shelf.new)
        (joined pieces.now) (S.write_faults shelf.old) (S.write_faults shelf.new) result }
    ensures target { S.target shelf.new ≡ S.target shelf.old }
    ensures rest { OnlyWrites S.Shelf shelf.old shelf.new }
{
    for k in 0..pieces.len() {
        put_all(shelf, pieces[k])?;
    }
    Ok(())
}

/// Creates the output and puts these pieces into it, one after another.
///
/// # Errors
///
/// `Failed` if creating or writing failed, and `NoMemory`: the files are then as before, or the
/// output has a prefix of the bytes.
pub fn store<S: Shelf>(shelf: &mut S, output: &str, pieces: &[&[u8]]) -> Result<(), ShelfStop>
    requires { S.can_create shelf.old output.now }
    ensures stores { Stores (S.files shelf.old) (S.files shelf.new) output.now (joined pieces.now)
        (S.write_faults shelf.old) (S.write_faults shelf.new) result }
    ensures target { OnOk result (S.target shelf.new ≡ Some output.now) }
    ensures rest { OnlyWrites S.Shelf shelf.old shelf.new }
{
    shelf.create(output)?;
    put_each(shelf, pieces)
}

// A row of blocks, put into a file.
ghost use Rattle.std.specs.Prelude.{◌≡◌, ◌==◌, ◌&&◌, IsSome};
ghost use Rattle.tex_shelf.specs.Frames.{OnlyWrites};
ghost use Rattle.texture.specs.Rows.{IsRowOf};
ghost use Rattle.outcomes.specs.Causes.{Puts};
ghost use Rattle.packed_levels.specs.Rows.{level_front, row_bytes};

use ktx_file::level_size;
use tex_shelf::{Shelf, ShelfStop, put_all};
use texture::{BlockRow, Layout};

// Whether a row is the first of its level.
fn begins_level(row: &BlockRow) -> bool
    ensures { result ≡ (row.now.image == 0 && row.now.row == 0) }
{
    row.image == 0 && row.row == 0
}

// Puts the size of the level of a row, if the row is its first.
fn put_level_front<S: Shelf>(
    shelf: &mut S,
    layout: &Layout,
    row: &BlockRow,
) -> Result<(), ShelfStop>
    requires row { IsRowOf layout.now row.now }
    requires target { IsSome (S.target shelf.old) }
    ensures puts { Puts (S.files shelf.old) (S.target shelf.old) (S.files shelf.new)
        (level_front layout.now row.now)
        (S.write_faults shelf.old) (S.write_faults shelf.new) result }
    ensures target { S.target shelf.new ≡ S.target shelf.old }
    ensures rest { OnlyWrites S.Shelf shelf.old shelf.new }
{
    if begins_level(row) {
        put_all(shelf, &level_size(&layout.shape(), row.level).to_le_bytes())
    } else {
        Ok(())
    }
}

/// Puts the blocks of a row of a texture, with these bytes, after the rows before it. The level's
/// size precedes the first row of a level.
///
/// # Errors
///
/// `Failed` if writing failed, and `NoMemory`: a prefix of the bytes was then put.
pub fn put_row<S: Shelf>(
    shelf: &mut S,
    layout: &Layout,
    row: &BlockRow,
    bytes: &[u8],
) -> Result<(), ShelfStop>
    requires row { IsRowOf layout.now row.now }
    requires target { IsSome (S.target shelf.old) }
    ensures puts { Puts (S.files shelf.old) (S.target shelf.old) (S.files shelf.new)
        (row_bytes layout.now row.now bytes.now)
        (S.write_faults shelf.old) (S.write_faults shelf.new) result }
    ensures target { S.target shelf.new ≡ S.target shelf.old }
    ensures rest { OnlyWrites S.Shelf shelf.old shelf.new }
{
    put_level_front(shelf, layout, row)?;
    put_all(shelf, bytes)
}

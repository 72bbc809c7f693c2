// The file of a texture whose blocks exist.
ghost use Rattle.std.specs.Prelude.{◌≡◌, Some, IsSome, OnOk};
ghost use Rattle.tex_shelf.specs.Frames.{OnlyWrites};
ghost use Rattle.ktx_file.specs.Files.{AreBlocks, ktx};
ghost use Rattle.outcomes.specs.Causes.{Puts, Stores};

use crate::rows::put_row;
use ktx_file::header;
use tex_shelf::{Shelf, ShelfStop, put_all};
use texture::Layout;

// Writes the header, then the rows of blocks.
fn put_rows<S: Shelf>(shelf: &mut S, layout: &Layout, blocks: &[[u8; 16]]) -> Result<(), ShelfStop>
    requires full { AreBlocks layout.now blocks.now }
    requires target { IsSome (S.target shelf.old) }
    ensures puts { Puts (S.files shelf.old) (S.target shelf.old) (S.files shelf.new)
        (ktx layout.now blocks.now) (S.write_faults shelf.old)
        (S.write_faults shelf.new) result }
    ensures target { S.target shelf.new ≡ S.target shelf.old }
    ensures rest { OnlyWrites S.Shelf shelf.old shelf.new }
{
    put_all(shelf, &header(&layout.shape()))?;
    for row in layout.block_rows() {
        let first = row.first as usize;
        let own = &blocks[first..first + row.columns as usize];
        put_row(shelf, layout, &row, own.as_flattened())?;
    }
    Ok(())
}

/// Creates the output and puts the KTX file of these blocks into it.
///
/// # Errors
///
/// `Failed` if creating or writing failed, and `NoMemory`: the files are then as before, or the
/// output has a prefix of the file.
pub fn store_texture<S: Shelf>(
    shelf: &mut S,
    output: &str,
    layout: &Layout,
    blocks: &[[u8; 16]],
) -> Result<(), ShelfStop>
    requires can_create { S.can_create shelf.old output.now }
    requires full { AreBlocks layout.now blocks.now }
    ensures stores { Stores (S.files shelf.old) (S.files shelf.new) output.now
        (ktx layout.now blocks.now) (S.write_faults shelf.old)
        (S.write_faults shelf.new) result }
    ensures target { OnOk result (S.target shelf.new ≡ Some output.now) }
    ensures rest { OnlyWrites S.Shelf shelf.old shelf.new }
{
    shelf.create(output)?;
    put_rows(shelf, layout, blocks)
}

// The file of a texture whose blocks are settled as it is written.
ghost use Rattle.std.specs.Prelude.{◌≡◌, false, Some, IsTrue, IsSome, OnOk};
ghost use Rattle.tex_shelf.specs.Frames.{OnlyWrites};
ghost use Rattle.astc_model.specs.Footprints.{is_footprint};
ghost use Rattle.astc_model.specs.FootprintNames.{sides_of};
ghost use Rattle.adviser_pool.specs.Pools.{states};
ghost use Rattle.packed_levels.specs.Settling.{way_of};
ghost use Rattle.packed_levels.specs.Serving.{Keeps};
ghost use Rattle.packed_levels.specs.Sources.{ArePackedLevels};
ghost use Rattle.packed_levels.specs.Putting.{PutsFile, StoresFile};

use crate::options::PackOptions;
use crate::packer::Packer;
use crate::rows::put_row;
use adviser_pool::{Adviser, Pool};
use astc_model::for_footprint;
use descent::fit_scratch;
use encoder::tables_for;
use images::Images;
use ktx_file::header;
use std::alloc::Global;
use tex_shelf::{Shelf, ShelfStop, put_all};
use texture::Layout;

// Writes the header, then each row of blocks once it is settled. Returns the errors of the blocks.
#[inline(never)]
fn put_rows<S: Shelf, const W: usize, const H: usize>(
    alloc: Global,
    shelf: &mut S,
    layout: &Layout,
    packer: &Packer<W, H>,
    levels: &[Images],
    pool: &mut Pool,
) -> Result<Vec<u32>, ShelfStop>
    requires sides { sides_of layout.now.name ≡ (W, H) }
    requires levels { ArePackedLevels layout.now levels.now }
    requires target { IsSome (S.target shelf.old) }
    ensures puts { PutsFile layout.now packer.now levels.now
        (states ⟦<dyn Adviser as Adviser>⟧ pool.old)
        (states ⟦<dyn Adviser as Adviser>⟧ pool.new)
        (S.files shelf.old) (S.target shelf.old) (S.files shelf.new) (S.write_faults shelf.old)
        (S.write_faults shelf.new) result }
    ensures kept { Keeps (way_of layout.now.name packer.now)
        (states ⟦<dyn Adviser as Adviser>⟧ pool.old)
        (states ⟦<dyn Adviser as Adviser>⟧ pool.new) }
    ensures untouched { packer.now.advised ≡ false → pool.new ≡ pool.old }
    ensures target { S.target shelf.new ≡ S.target shelf.old }
    ensures rest { OnlyWrites S.Shelf shelf.old shelf.new }
{
    put_all(shelf, &header(&layout.shape()))?;
    let mut bytes = Vec::new(alloc);
    let mut errors = Vec::new(alloc);
    fit_scratch!(scratch);
    for row in layout.block_rows() {
        let images = &levels[row.level as usize];
        packer.fill_row(images, &row, pool, scratch, &mut bytes, &mut errors)?;
        put_row(shelf, layout, &row, &bytes)?;
    }
    Ok(errors)
}

// Makes the tables of the texture and a packer, then creates the output and writes the file.
fn store_as<S: Shelf, const W: usize, const H: usize>(
    alloc: Global,
    shelf: &mut S,
    layout: &Layout,
    options: &PackOptions,
    levels: &[Images],
    output: &str,
    pool: &mut Pool,
) -> Result<Vec<u32>, ShelfStop>
    requires footprint { IsTrue (is_footprint W H) }
    requires sides { sides_of layout.now.name ≡ (W, H) }
    requires levels { ArePackedLevels layout.now levels.now }
    requires can_create { S.can_create shelf.old output.now }
    ensures stores { StoresFile layout.now options.now levels.now
        (states ⟦<dyn Adviser as Adviser>⟧ pool.old)
        (states ⟦<dyn Adviser as Adviser>⟧ pool.new)
        (S.files shelf.old) output.now (S.files shelf.new) (S.write_faults shelf.old)
        (S.write_faults shelf.new) result }
    ensures kept { Keeps (way_of layout.now.name options.now)
        (states ⟦<dyn Adviser as Adviser>⟧ pool.old)
        (states ⟦<dyn Adviser as Adviser>⟧ pool.new) }
    ensures untouched { options.now.advised ≡ false → pool.new ≡ pool.old }
    ensures target { OnOk result (S.target shelf.new ≡ Some output.now) }
    ensures rest { OnlyWrites S.Shelf shelf.old shelf.new }
{
    let tables = tables_for::<W, H>(alloc, options.settings.preset, levels)?;
    let packer = Packer::new(options, tables.view());
    shelf.create(output)?;
    put_rows(alloc, shelf, layout, &packer, levels, pool)
}

/// Creates the output and puts the file of a texture into it: the header, then the rows of blocks,
/// each settled before; the level's size precedes the first row of a level. Returns the errors of
/// the blocks, in the order of the file.
///
/// # Errors
///
/// `Failed` if creating or writing failed, and `NoMemory`: the files are then as before, or the
/// output has a prefix of a file, whose blocks are settled if they begin in the prefix.
pub fn store<S: Shelf>(
    alloc: Global,
    shelf: &mut S,
    layout: &Layout,
    options: &PackOptions,
    levels: &[Images],
    output: &str,
    pool: &mut Pool,
) -> Result<Vec<u32>, ShelfStop>
    requires levels { ArePackedLevels layout.now levels.now }
    requires can_create { S.can_create shelf.old output.now }
    ensures stores { StoresFile layout.now options.now levels.now
        (states ⟦<dyn Adviser as Adviser>⟧ pool.old)
        (states ⟦<dyn Adviser as Adviser>⟧ pool.new)
        (S.files shelf.old) output.now (S.files shelf.new) (S.write_faults shelf.old)
        (S.write_faults shelf.new) result }
    ensures kept { Keeps (way_of layout.now.name options.now)
        (states ⟦<dyn Adviser as Adviser>⟧ pool.old)
        (states ⟦<dyn Adviser as Adviser>⟧ pool.new) }
    ensures untouched { options.now.advised ≡ false → pool.new ≡ pool.old }
    ensures target { OnOk result (S.target shelf.new ≡ Some output.now) }
    ensures rest { OnlyWrites S.Shelf shelf.old shelf.new }
{
    for_footprint!(
        layout.shape().name,
        store_as::<S>(alloc, shelf, layout, options, levels, output, pool)
    )
}

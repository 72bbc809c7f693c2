// The images of a texture, put one after another.
ghost use Rattle.std.specs.Prelude.{◌≡◌, ◌<◌, ◌^◌, length, Some, IsSome, IsTrue, IfOk, OnOk};
ghost use Rattle.tex_shelf.specs.Frames.{OnlyWrites};
ghost use Rattle.astc_model.specs.Footprints.{is_footprint};
ghost use Rattle.astc_model.specs.FootprintNames.{sides_of};
ghost use Rattle.outcomes.specs.Causes.{Puts, Stores};
ghost use Rattle.unpacking.specs.Unpacked.{unpacked, all_told};

use crate::UnpackedImage;
use crate::bands::UnpackedRow;
use crate::sums::images_told;
use astc_model::for_footprint;
use ktx_file::Ktx;
use std::alloc::Global;
use tex_shelf::{Shelf, ShelfStop, put_all};

/// Puts the images of a texture, a row of blocks at a time, and returns the report on each.
fn put_rows<S: Shelf, const W: usize, const H: usize>(
    alloc: Global,
    shelf: &mut S,
    ktx: &Ktx,
) -> Result<Vec<UnpackedImage>, ShelfStop>
    requires footprint { IsTrue (is_footprint W H) }
    requires sides { sides_of ktx.now.shape.name ≡ (W, H) }
    requires target { IsSome (S.target shelf.old) }
    ensures puts { Puts (S.files shelf.old) (S.target shelf.old) (S.files shelf.new)
        (unpacked ktx.now) (S.write_faults shelf.old) (S.write_faults shelf.new) result }
    ensures told { IfOk result (λ told. told.items ≡ all_told ktx.now) }
    ensures few { IfOk result (λ told. length told.items < 2 ^ 32) }
    ensures target { S.target shelf.new ≡ S.target shelf.old }
    ensures rest { OnlyWrites S.Shelf shelf.old shelf.new }
{
    let mut band = UnpackedRow::new(alloc);
    let mut faults = Vec::new(alloc);
    // give the facts that the shape is valid, and that each place has a block
    ktx.shape();
    ktx.blocks();
    for row in ktx.layout().block_rows() {
        band.fill::<W, H>(ktx, row, &mut faults)?;
        put_all(shelf, &band.bytes)?;
    }
    Ok(images_told(alloc, ktx, &faults)?)
}

/// Creates the output and puts the images of all levels, and returns the report on each.
///
/// # Errors
///
/// `Failed` if creating or writing failed, and `NoMemory`: the files are then as before, or the
/// output has a prefix of the images.
pub(crate) fn store<S: Shelf>(
    alloc: Global,
    shelf: &mut S,
    output: &str,
    ktx: &Ktx,
) -> Result<Vec<UnpackedImage>, ShelfStop>
    requires { S.can_create shelf.old output.now }
    ensures stores { Stores (S.files shelf.old) (S.files shelf.new) output.now (unpacked ktx.now)
        (S.write_faults shelf.old) (S.write_faults shelf.new) result }
    ensures told { IfOk result (λ told. told.items ≡ all_told ktx.now) }
    ensures few { IfOk result (λ told. length told.items < 2 ^ 32) }
    ensures target { OnOk result (S.target shelf.new ≡ Some output.now) }
    ensures rest { OnlyWrites S.Shelf shelf.old shelf.new }
{
    shelf.create(output)?;
    for_footprint!(ktx.shape().name, put_rows::<S>(alloc, shelf, ktx))
}

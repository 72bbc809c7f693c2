// The tables that the searches for the blocks of a texture share.
ghost use Rattle.std.specs.Prelude.{IsTrue};
ghost use Rattle.astc_model.specs.Footprints.{is_footprint};

use astc_model::{Footprint, Preset};
use descent::SearchTables;
use images::Images;
use std::alloc::{AllocError, Global};

/// The tables that the searches under a preset share for the blocks of levels, made ready for the
/// edges of each.
///
/// # Errors
///
/// Out of memory.
pub fn tables_for<const W: usize, const H: usize>(
    alloc: Global,
    preset: Preset,
    levels: &[Images],
) -> Result<SearchTables<W, H>, AllocError>
    requires { IsTrue (is_footprint W H) }
{
    let mut tables = SearchTables::new(alloc, Footprint::<W, H>::new(), preset)?;
    for images in levels {
        tables.prepare(images.width(), images.height())?;
    }
    Ok(tables)
}

// Images from the data of a level.
ghost use Rattle.std.specs.Prelude.{◌≡◌, ◌≤◌, ◌<◌, ◌*◌, ◌++◌, length, IfOk, OnOk};
ghost use Rattle.astc_model.specs.Limits.{most_texels};
ghost use Rattle.images.specs.Pictures.{texels_of, bytes_of};
ghost use Rattle.texture.specs.Extents.{IsExtent};
ghost use Rattle.ktx_source.specs.declared.format.Format.TheVariants.{Rgb8};
ghost use Rattle.ktx_source.specs.Rasters.{from_rgb, row_size, rows_in, level_bytes, pictures_in};

use crate::format::Format;
use crate::sizes::{image_count, row_size};
use astc_model::side_at_level;
use images::Images;
use std::alloc::{AllocError, Global};
use texture::Extent;

// Appends the texels of a row of three bytes each, without its padding, four bytes each.
fn push_row(texels: &mut Vec<u8>, row: &[u8]) -> Result<(), AllocError>
    ensures { OnOk result (texels.new.items ≡ texels.old.items ++ bytes_of (from_rgb row.now)) }
{
    let mut rest = row;
    while let [red, green, blue, behind @ ..] = rest {
        texels.extend_from_slice(&[*red, *green, *blue, 255])?;
        rest = behind;
    }
    Ok(())
}

// The texels of padded rows of three bytes each, four bytes each.
fn widened(alloc: Global, width: u32, rows: u32, bytes: &[u8]) -> Result<Vec<u8>, AllocError>
    requires width { width ≤ 8192 }
    requires size { width * rows ≤ most_texels }
    requires full { length bytes.now ≡ row_size Rgb8 width * rows }
    ensures texels { IfOk result (λ raster. texels_of raster.items
        ≡ rows_in Rgb8 width rows bytes.now) }
    ensures size { IfOk result (λ raster. length raster.items ≡ 4 * (width * rows)) }
{
    let row_bytes = row_size(Format::Rgb8, width) as usize;
    let mut texels = Vec::with_capacity(alloc, 4 * (width as usize * rows as usize))?;
    let mut rest = bytes;
    for _ in 0..rows {
        let (row, behind) = rest.split_at(row_bytes);
        push_row(&mut texels, &row[..3 * width as usize])?;
        rest = behind;
    }
    Ok(texels)
}

// The raster of rows of this number of texels, four bytes each. Texels of four bytes are not
// copied.
fn raster_of(
    alloc: Global,
    format: Format,
    width: u32,
    rows: u32,
    bytes: Vec<u8>,
) -> Result<Vec<u8>, AllocError>
    requires width { width ≤ 8192 }
    requires size { width * rows ≤ most_texels }
    requires full { length bytes.items ≡ row_size format width * rows }
    ensures texels { IfOk result (λ raster. texels_of raster.items
        ≡ rows_in format width rows bytes.items) }
    ensures size { IfOk result (λ raster. length raster.items ≡ 4 * (width * rows)) }
{
    match format {
        Format::Rgba8 => Ok(bytes),
        Format::Rgb8 => widened(alloc, width, rows, &bytes),
    }
}

/// The images of a level from its data.
///
/// # Errors
///
/// Out of memory.
pub fn images_in(
    alloc: Global,
    format: Format,
    extent: &Extent,
    level: u32,
    bytes: Vec<u8>,
) -> Result<Images, AllocError>
    requires extent { IsExtent extent.now }
    requires level { level < extent.now.levels }
    requires full { length bytes.items ≡ level_bytes format extent.now level }
    ensures { IfOk result (λ images. images ≡ pictures_in format extent.now level bytes.items) }
{
    let width = side_at_level(extent.width, level);
    let height = side_at_level(extent.height, level);
    let count = image_count(extent);
    let raster = raster_of(alloc, format, width, height * count, bytes)?;
    Ok(Images::from_raster(width, height, count, raster))
}

// The sources of blocks, cut from a slice of texels.
ghost use Rattle.std.specs.Prelude.{◌≡◌, ◌<◌, ◌≤◌, ◌*◌, ◌+◌, ◌/◌, ◌%◌, length, IsTrue};
ghost use Rattle.astc_model.specs.Footprints.{is_footprint};
ghost use Rattle.images.specs.Pictures.{texel_at, source_of};
ghost use Rattle.astc_rows.specs.Bands.{AreCheckedRows, block_count, picture, source_at};

use crate::bands::{CheckedRows, covering};
use astc_model::{Footprint, Source};

// The texel of the picture in a column and a row, None outside.
fn texel_or_outside(band: CheckedRows, texels: &[[u8; 4]], x: usize, y: usize) -> Option<[u8; 4]>
    requires wide { band.width ≤ 8192 }
    requires high { band.height ≤ 8192 }
    requires full { length texels.now ≡ band.width * band.height }
    ensures { result ≡ texel_at (picture band texels.now) 0 x y }
{
    let width = band.width as usize;
    if x < width && y < band.height as usize {
        Some(texels[y * width + x])
    } else {
        None
    }
}

// The source of the block in a column and a row of blocks.
fn source_of<const W: usize, const H: usize>(
    band: CheckedRows,
    texels: &[[u8; 4]],
    column: usize,
    row: usize,
) -> Source<W, H>
    requires footprint { IsTrue (is_footprint W H) }
    requires wide { band.width ≤ 8192 }
    requires high { band.height ≤ 8192 }
    requires full { length texels.now ≡ band.width * band.height }
    requires column { column ≤ 16384 }
    requires row { row ≤ 16384 }
    ensures { result ≡ source_of W H (picture band texels.now) 0 column row }
{
    let mut source = Source::<W, H>::new(Footprint::new());
    let left = column * W;
    let top = row * H;
    for place in 0..W * H {
        let x = place % W;
        let y = place / W;
        if let Some(texel) = texel_or_outside(band, texels, left + x, top + y) {
            source.set(x as u8, y as u8, texel);
        }
    }
    source
}

/// The source of block `k` of the rows.
pub(crate) fn source_at<const W: usize, const H: usize>(
    band: CheckedRows,
    texels: &[[u8; 4]],
    k: usize,
) -> Source<W, H>
    requires footprint { IsTrue (is_footprint W H) }
    requires band { AreCheckedRows H band }
    requires full { length texels.now ≡ band.width * band.height }
    requires block { k < block_count W band }
    ensures { result ≡ source_at W H band texels.now k }
{
    let columns = covering(band.width, W as u32) as usize;
    source_of::<W, H>(band, texels, k % columns, band.first as usize + k / columns)
}

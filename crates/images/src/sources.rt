// The sources of blocks.
ghost use Rattle.std.specs.Prelude.{◌≡◌, ◌<◌, IsTrue};
ghost use Rattle.astc_model.specs.Footprints.{is_footprint};
ghost use Rattle.images.specs.Pictures.{texel_at, source_of};

use crate::Images;
use astc_model::{Footprint, Source};

// The texel of an image in a column and a row, None outside the image.
fn texel_or_outside(images: &Images, image: u32, x: u64, y: u64) -> Option<[u8; 4]>
    requires { image < images.now.count }
    ensures { result ≡ texel_at images.now image x y }
{
    if x < u64::from(images.width()) && y < u64::from(images.height()) {
        Some(images.texel(image, x as u32, y as u32))
    } else {
        None
    }
}

/// The source of the block in this column and row of blocks of an image: its place (x, y) has the
/// image's texel (`column * W + x`, `row * H + y`), and is outside if the image has none.
pub fn source_at<const W: usize, const H: usize>(
    images: &Images,
    image: u32,
    column: u32,
    row: u32,
) -> Source<W, H>
    requires footprint { IsTrue (is_footprint W H) }
    requires image { image < images.now.count }
    ensures { result ≡ source_of W H images.now image column row }
{
    let mut source = Source::<W, H>::new(Footprint::new());
    let left = u64::from(column) * W as u64;
    let top = u64::from(row) * H as u64;
    for place in 0..W * H {
        let x = place % W;
        let y = place / W;
        if let Some(texel) = texel_or_outside(images, image, left + x as u64, top + y as u64) {
            source.set(x as u8, y as u8, texel);
        }
    }
    source
}

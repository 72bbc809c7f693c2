// The report on the images of a texture.
ghost use Rattle.std.specs.Prelude.{◌≡◌, ◌<◌, ◌^◌, length, sum, IfOk};
ghost use Rattle.texture.specs.Shapes.{image_count};
ghost use Rattle.unpacking.specs.Unpacked.{all_faults, told_of, place_in, all_told};

use crate::UnpackedImage;
use ktx_file::Ktx;
use std::alloc::{AllocError, Global};

/// The sum of numbers.
fn sum_of(numbers: &[u32]) -> u32
    requires { sum numbers.now < 2 ^ 32 }
    ensures { result ≡ sum numbers.now }
{
    numbers.iter().sum()
}

/// The report on an image. `faults` has 1 for each unreadable block of the texture, and 0 for each
/// other.
fn image_told(ktx: &Ktx, level: u32, image: u32, faults: &[u32]) -> UnpackedImage
    requires level { level < ktx.now.shape.levels }
    requires image { image < image_count ktx.now.shape }
    requires faults { faults.now ≡ all_faults ktx.now }
    ensures { result ≡ told_of ktx.now (place_in ktx.now level image) }
{
    let layout = ktx.layout();
    // gives the fact that faults and blocks are equal in number
    ktx.blocks();
    let first = layout.first_block(level, image) as usize;
    let blocks = layout.image_blocks(level);
    UnpackedImage {
        place: layout.image_place(level, image),
        blocks,
        illegal: sum_of(&faults[first..first + blocks as usize]),
    }
}

/// The report on all images, level by level.
pub(crate) fn images_told(
    alloc: Global,
    ktx: &Ktx,
    faults: &[u32],
) -> Result<Vec<UnpackedImage>, AllocError>
    requires { faults.now ≡ all_faults ktx.now }
    ensures told { IfOk result (λ told. told.items ≡ all_told ktx.now) }
    ensures few { IfOk result (λ told. length told.items < 2 ^ 32) }
{
    let layout = ktx.layout();
    // says that the shape is valid
    layout.shape();
    let mut told = Vec::new(alloc);
    for level in 0..layout.levels() {
        for image in 0..layout.image_count() {
            told.push(image_told(ktx, level, image, faults))?;
        }
    }
    Ok(told)
}

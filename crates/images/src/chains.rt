// Mip chains.
ghost use Rattle.std.specs.Prelude.{◌≡◌, ◌≤◌, ◌<◌, ◌+◌, ◌*◌, ◌/◌, ◌++◌, length, IfOk, OnOk};
ghost use Rattle.astc_model.specs.Chains.{side_at_level};
ghost use Rattle.images.specs.Pictures.{IsValid, bytes_of};
ghost use Rattle.images.specs.Chains.{mean_texel, halved_texel, halved_row, halved, chain_of};

use crate::Images;
use std::alloc::{AllocError, Global};
use tex_shelf::NoMemory;

fn half_side(side: u32) -> u32
    requires { side ≤ 8192 }
    ensures same { result ≡ side_at_level side 1 }
    ensures some { 1 ≤ result }
    ensures most { result ≤ 8192 }
{
    (side / 2).max(1)
}

fn mean(a: u8, b: u8, c: u8, d: u8) -> u8
    ensures { result ≡ (a + b + c + d + 2) / 4 }
{
    ((u32::from(a) + u32::from(b) + u32::from(c) + u32::from(d) + 2) / 4) as u8
}

fn mean_texel(a: [u8; 4], b: [u8; 4], c: [u8; 4], d: [u8; 4]) -> [u8; 4]
    ensures { result ≡ mean_texel a b c d }
{
    [
        mean(a[0], b[0], c[0], d[0]),
        mean(a[1], b[1], c[1], d[1]),
        mean(a[2], b[2], c[2], d[2]),
        mean(a[3], b[3], c[3], d[3]),
    ]
}

// The texel of the next level in this column and row.
#[tactic(auto, unfolding(crate::specs::Chains::halved_texel))]
fn halved_texel(images: &Images, image: u32, x: u32, y: u32) -> [u8; 4]
    requires image { image < images.now.count }
    requires column { x < 8192 }
    requires row { y < 8192 }
    ensures { result ≡ halved_texel images.now image x y }
{
    let right = images.width() - 1;
    let bottom = images.height() - 1;
    let (x0, x1) = ((2 * x).min(right), (2 * x + 1).min(right));
    let (y0, y1) = ((2 * y).min(bottom), (2 * y + 1).min(bottom));
    mean_texel(
        images.texel(image, x0, y0),
        images.texel(image, x1, y0),
        images.texel(image, x0, y1),
        images.texel(image, x1, y1),
    )
}

// Appends a row of the next level.
fn push_row(texels: &mut Vec<u8>, images: &Images, image: u32, y: u32) -> Result<(), AllocError>
    requires image { image < images.now.count }
    requires row { y < 8192 }
    ensures row { OnOk result (texels.new.items ≡ texels.old.items ++ bytes_of
        (halved_row images.now image y)) }
    ensures size { OnOk result (length texels.new.items
        ≡ length texels.old.items + 4 * side_at_level images.now.width 1) }
{
    for x in 0..half_side(images.width()) {
        texels.extend_from_slice(&halved_texel(images, image, x, y))?;
    }
    Ok(())
}

// The bytes of the texels of images of these sides.
fn raster_size(width: u32, height: u32, count: u32) -> usize
    requires width { width ≤ 8192 }
    requires height { height ≤ 8192 }
    ensures { result ≡ 4 * (width * height * count) }
{
    4 * (width as usize * height as usize * count as usize)
}

// The images of the next level.
fn halved(alloc: Global, images: &Images) -> Result<Images, AllocError>
    ensures same { IfOk result (λ next. next ≡ halved images.now) }
    ensures valid { IfOk result IsValid }
{
    let width = half_side(images.width());
    let height = half_side(images.height());
    let count = images.count();
    let mut texels = Vec::with_capacity(alloc, raster_size(width, height, count))?;
    for row in 0..u64::from(height) * u64::from(count) {
        let image = row / u64::from(height);
        let y = row % u64::from(height);
        push_row(&mut texels, images, image as u32, y as u32)?;
    }
    Ok(Images::from_raster(width, height, count, texels))
}

/// The first levels of the mip chain of images, each half as wide and high as the one before,
/// rounded down and at least 1. Each channel of a texel is the mean of four of the level before,
/// rounded to the nearest, up from the middle. The first level is the images themselves, which are
/// not copied.
///
/// # Errors
///
/// `NoMemory`.
pub fn chain(alloc: Global, images: Images, levels: u32) -> Result<Vec<Images>, NoMemory>
    requires { 1 ≤ levels }
    ensures levels { IfOk result (λ chain. chain.items ≡ chain_of images levels) }
    ensures count { IfOk result (λ chain. length chain.items ≡ levels) }
{
    let mut chain = Vec::with_capacity(alloc, levels as usize)?;
    chain.push(images)?;
    for level in 1..levels {
        let next = halved(alloc, &chain[level as usize - 1])?;
        chain.push(next)?;
    }
    Ok(chain)
}

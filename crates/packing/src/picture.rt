// The picture of a trial.
ghost use Rattle.std.specs.Prelude.{◌≡◌, ◌≤◌, ◌<◌, IfOk};
ghost use Rattle.images.specs.TrialPictures.{trial_noise, trial_slope, trial_texel, trial_picture};

use images::Images;
use partition_hash::hash52;
use std::alloc::{AllocError, Global};

/// The noise of the texel in this column and row.
fn noise(number: u32, x: u32, y: u32) -> u32
    requires column { x < 1024 }
    requires row { y < 1024 }
    ensures { result ≡ trial_noise number x y }
{
    hash52(number.wrapping_add(8192 * y + x))
}

/// The position of this place along a side, 0 to 255.
fn slope(side: u32, at: u32) -> u8
    requires within { at < side }
    requires small { side ≤ 1024 }
    ensures { result ≡ trial_slope side at }
{
    (255 * at / (side - 1).max(1)) as u8
}

/// The texel in this column and row: red grows to the right and green downwards, and each channel
/// but alpha has three bits of noise.
#[tactic(auto, unfolding(images::specs::TrialPictures::trial_texel))]
fn texel(number: u32, width: u32, height: u32, x: u32, y: u32) -> [u8; 4]
    requires column { x < width }
    requires width { width ≤ 1024 }
    requires row { y < height }
    requires height { height ≤ 1024 }
    ensures { result ≡ trial_texel number width height x y }
{
    let noise = noise(number, x, y);
    [
        slope(width, x) ^ (noise % 8) as u8,
        slope(height, y) ^ (noise / 8 % 8) as u8,
        128 ^ (noise / 64 % 8) as u8,
        255,
    ]
}

/// The picture of a trial: one image with these sides in texels, made from the seed `number`.
///
/// # Errors
///
/// `AllocError`.
pub fn trial_images(
    alloc: Global,
    number: u32,
    width: u32,
    height: u32,
) -> Result<Images, AllocError>
    requires width_some { 1 ≤ width }
    requires width_most { width ≤ 1024 }
    requires height_some { 1 ≤ height }
    requires height_most { height ≤ 1024 }
    ensures { IfOk result (λ images. images ≡ trial_picture number width height) }
{
    let mut raster = Vec::with_capacity(alloc, 4 * (width as usize * height as usize))?;
    for place in 0..width * height {
        let (x, y) = (place % width, place / width);
        raster.extend_from_slice(&texel(number, width, height, x, y))?;
    }
    Ok(Images::from_raster(width, height, 1, raster))
}

// The report on the images of a range.
ghost use Rattle.std.specs.Prelude.{◌≡◌, ◌≤◌, ◌<◌, ◌+◌, ◌-◌, ◌*◌, ◌^◌, ◌++◌, length, take, IfOk, OnOk, sum};
ghost use Rattle.std.specs.List.{AllByRecursion};
ghost use Rattle.astc_model.specs.Sums.{sum_to};
ghost use Rattle.texture.specs.Shapes.{image_count, level_blocks, all_blocks, most_blocks};
ghost use Rattle.packed_levels.specs.Reports.{share, share_told, level_told, range_told};

use crate::sums::{ImageSums, PackedImage};
use std::alloc::{AllocError, Global};
use texture::Layout;

/// The errors of `count` blocks from number `first` on, out of the errors of blocks from number
/// `start` on.
fn share_of(start: u32, errors: &[u32], first: u32, count: u32) -> &[u32]
    requires below { first + count < 2 ^ 32 }
    ensures { result.now ≡ share start errors.now first count }
{
    let before = (first.saturating_sub(start) as usize).min(errors.len());
    let (_, behind) = errors.split_at(before);
    let most = (first + count).saturating_sub(start.max(first)) as usize;
    let (share, _) = behind.split_at(most.min(behind.len()));
    share
}

/// The sum of errors.
fn sum_of(errors: &[u32]) -> u64
    requires few { length errors.now ≤ most_blocks }
    ensures exact { result ≡ sum errors.now }
{
    let mut total = 0;
    for error in errors {
        total += u64::from(*error);
    }
    total
}

/// Adds an image whose blocks in the range have these errors. An image without such a block is left
/// out.
fn add_image(
    sums: &mut ImageSums,
    layout: &Layout,
    level: u32,
    image: u32,
    errors: &[u32],
) -> Result<(), AllocError>
    requires level { level < layout.now.levels }
    requires image { image < image_count layout.now }
    requires small { AllByRecursion (λ error. error ≤ 2 ^ 32) errors.now }
    requires few { length errors.now ≤ most_blocks }
    requires total { sums.old.total ≤ most_blocks * 2 ^ 32 }
    ensures images { OnOk result (sums.new.images.items
        ≡ sums.old.images.items ++ share_told layout.now level image errors.now) }
    ensures total { OnOk result (sums.new.total ≡ sums.old.total + sum errors.now) }
{
    if errors.is_empty() {
        return Ok(());
    }
    sums.add(PackedImage {
        place: layout.image_place(level, image),
        blocks: errors.len() as u32,
        error: sum_of(errors),
    })
}

/// Adds the images of a level.
fn add_level(
    sums: &mut ImageSums,
    layout: &Layout,
    level: u32,
    start: u32,
    errors: &[u32],
) -> Result<(), AllocError>
    requires level { level < layout.now.levels }
    requires small { AllByRecursion (λ error. error ≤ 2 ^ 32) errors.now }
    requires total { sums.old.total
        ≡ sum (take (sum_to (level_blocks layout.now) level - start) errors.now) }
    ensures images { OnOk result (sums.new.images.items
        ≡ sums.old.images.items ++ level_told layout.now start errors.now level) }
    ensures total { OnOk result
        (sums.new.total ≡ sum (take (sum_to (level_blocks layout.now) (level + 1) - start)
        errors.now)) }
{
    let count = layout.image_blocks(level);
    for image in 0..layout.image_count() {
        let first = layout.first_block(level, image);
        let share = share_of(start, errors, first, count);
        add_image(sums, layout, level, image, share)?;
    }
    Ok(())
}

/// The report on the images that have blocks of a range, each with the number of these blocks and
/// the sum of their errors; `errors` are the errors of the blocks from number `start` on, in the
/// order of the file.
///
/// # Errors
///
/// Out of memory.
pub fn sums_of_range(
    alloc: Global,
    layout: &Layout,
    start: u32,
    errors: &[u32],
) -> Result<ImageSums, AllocError>
    requires inside { start + length errors.now ≤ all_blocks layout.now }
    requires small { AllByRecursion (λ error. error ≤ 2 ^ 32) errors.now }
    ensures images { IfOk result (λ sums. sums.images.items
        ≡ range_told layout.now start errors.now) }
    ensures total { IfOk result (λ sums. sums.total ≡ sum errors.now) }
{
    let mut sums = ImageSums::new(alloc);
    for level in 0..layout.levels() {
        add_level(&mut sums, layout, level, start, errors)?;
    }
    Ok(sums)
}

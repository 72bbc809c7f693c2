// The report of the errors of blocks.
ghost use Rattle.std.specs.Prelude.{◌≡◌, ◌≤◌, ◌+◌, IfOk, length, map, string_bytes};
ghost use Rattle.texture.specs.Shapes.{all_blocks};
ghost use Rattle.outcomes.specs.Causes.{Tells};
ghost use Rattle.packed_levels.specs.Reports.{image_line, total_line, lines_of, range_lines};

use crate::range_sums::sums_of_range;
use crate::sums::{ImageSums, PackedImage};
use std::alloc::{AllocError, Global};
use tex_shelf::{Report, ShelfStop};
use texture::Layout;

// The line of an image.
fn image_line(alloc: Global, image: &PackedImage) -> Result<String, AllocError>
    ensures { IfOk result (λ line. string_bytes line ≡ image_line image.now) }
{
    let level = image.place.level;
    let element = image.place.element;
    let face = image.place.face;
    let blocks = image.blocks;
    let error = image.error;
    format!(in alloc; "level {level} element {element} face {face} blocks {blocks} error {error}\n")
}

// The line of the sum of all errors.
fn total_line(alloc: Global, total: u64) -> Result<String, AllocError>
    ensures { IfOk result (λ line. string_bytes line ≡ total_line total) }
{
    format!(in alloc; "total {total}\n")
}

// Reports the images, one line each.
fn report_images<R: Report>(
    alloc: Global,
    report: &mut R,
    images: &[PackedImage],
) -> Result<(), ShelfStop>
    ensures tells { Tells (R.written report.old) (R.written report.new) (map image_line images.now)
        (R.faults report.old) (R.faults report.new) result }
    ensures never_falls { R.faults report.old ≤ R.faults report.new }
{
    for image in images {
        report.put(image_line(alloc, image)?.as_str())?;
    }
    Ok(())
}

// Reports the images, one line each, and then the total.
fn report_sums<R: Report>(alloc: Global, report: &mut R, sums: &ImageSums) -> Result<(), ShelfStop>
    ensures tells { Tells (R.written report.old) (R.written report.new)
        (lines_of sums.now.images.items sums.now.total) (R.faults report.old)
        (R.faults report.new) result }
    ensures never_falls { R.faults report.old ≤ R.faults report.new }
{
    report_images(alloc, report, sums.images.as_slice())?;
    report.put(total_line(alloc, sums.total)?.as_str())
}

/// Tells of the images that have blocks of a range, a line each, and the sum of the errors, which
/// are those of the blocks from the one of number `start` on, in the order of the file.
///
/// # Errors
///
/// `Failed` if the report failed, and `NoMemory`. The first lines may then be written, each as a
/// whole.
pub fn report_range<R: Report>(
    alloc: Global,
    report: &mut R,
    layout: &Layout,
    start: u32,
    errors: &[u32],
) -> Result<(), ShelfStop>
    requires { start + length errors.now ≤ all_blocks layout.now }
    ensures tells { Tells (R.written report.old) (R.written report.new)
        (range_lines layout.now start errors.now) (R.faults report.old)
        (R.faults report.new) result }
    ensures never_falls { R.faults report.old ≤ R.faults report.new }
{
    let sums = sums_of_range(alloc, layout, start, errors)?;
    report_sums(alloc, report, &sums)
}

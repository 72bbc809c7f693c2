// The report of an unpack.
ghost use Rattle.std.specs.Prelude.{◌≡◌, ◌≤◌, ◌<◌, ◌*◌, ◌^◌, length, IfOk, string_bytes, sum_by};
ghost use Rattle.std.specs.List.{All};
ghost use Rattle.outcomes.specs.Causes.{Tells};
ghost use Rattle.unpacking.specs.Reports.{image_line, total_line, report_lines};

use crate::UnpackedImage;
use std::alloc::{AllocError, Global};
use tex_shelf::{Report, ShelfStop};

/// The line of an image.
fn image_line(alloc: Global, image: &UnpackedImage) -> Result<String, AllocError>
    ensures { IfOk result (λ line. string_bytes line ≡ image_line image.now) }
{
    let UnpackedImage {
        place,
        blocks,
        illegal,
    } = *image;
    let (level, element, face) = (place.level, place.element, place.face);
    format!(in alloc;
        "level {level} element {element} face {face} blocks {blocks} illegal {illegal}\n"
    )
}

/// The line of the sums.
fn total_line(alloc: Global, blocks: u64, illegal: u64) -> Result<String, AllocError>
    ensures { IfOk result (λ line. string_bytes line ≡ total_line blocks illegal) }
{
    format!(in alloc; "total blocks {blocks} illegal {illegal}\n")
}

/// The number of blocks of an image, and of the unreadable ones.
fn counts(image: UnpackedImage) -> (u64, u64)
    ensures blocks { result.0 ≡ image.blocks }
    ensures illegal { result.1 ≡ image.illegal }
    ensures some_blocks { result.0 < 2 ^ 32 }
    ensures some_illegal { result.1 < 2 ^ 32 }
{
    (u64::from(image.blocks), u64::from(image.illegal))
}

/// Reports each image, then the sums, one line at a time.
///
/// # Errors
///
/// `Failed` if the report failed, and `NoMemory`. The first lines may then be written, each as a
/// whole.
pub(crate) fn report_unpacked<R: Report>(
    alloc: Global,
    report: &mut R,
    images: &[UnpackedImage],
) -> Result<(), ShelfStop>
    requires { length images.now < 2 ^ 32 }
    ensures tells { Tells (R.written report.old) (R.written report.new) (report_lines images.now)
        (R.faults report.old) (R.faults report.new) result }
    ensures never_falls { R.faults report.old ≤ R.faults report.new }
{
    let mut blocks = 0u64;
    let mut illegal = 0u64;
    for k in 0..images.len() {
        let Ok(line) = image_line(alloc, &images[k]) else {
            return Err(ShelfStop::NoMemory);
        };
        report.put(line.as_str())?;
        let counted = counts(images[k]);
        blocks += counted.0;
        illegal += counted.1;
    }
    let Ok(line) = total_line(alloc, blocks, illegal) else {
        return Err(ShelfStop::NoMemory);
    };
    report.put(line.as_str())
}

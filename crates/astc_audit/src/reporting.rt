// The report of an audit.
ghost use Rattle.std.specs.Prelude.{◌≡◌, ◌≤◌, ◌∷◌, [], ◌++◌, map, IfOk, string_bytes};
ghost use Rattle.outcomes.specs.Causes.{Tells};
ghost use Rattle.astc_audit.specs.Reports.{findings_text, image_line, total_line};

use crate::gathering::AuditedImage;
use std::alloc::{AllocError, Global};
use tex_shelf::{Report, ShelfStop};

/// The text after the number of blocks in the line of an image.
fn findings_text(alloc: Global, error: u64, bad: u32) -> Result<String, AllocError>
    ensures { IfOk result (λ text. string_bytes text ≡ findings_text error bad) }
{
    format!(in alloc; " error {error} bad {bad}\n")
}

/// The line of an image.
fn image_line(alloc: Global, image: &AuditedImage) -> Result<String, AllocError>
    ensures { IfOk result (λ line. string_bytes line ≡ image_line image.now) }
{
    let AuditedImage { place, findings } = *image;
    let (level, element, face) = (place.level, place.element, place.face);
    let blocks = findings.blocks;
    let found = findings_text(alloc, findings.error, findings.bad)?;
    format!(in alloc; "level {level} element {element} face {face} blocks {blocks}{found}")
}

/// The line of the sums.
fn total_line(alloc: Global, error: u64, bad: u64) -> Result<String, AllocError>
    ensures { IfOk result (λ line. string_bytes line ≡ total_line error bad) }
{
    format!(in alloc; "total {error} bad {bad}\n")
}

/// Reports each image, then the sums, one line at a time.
///
/// # Errors
///
/// `Failed` if the report failed, and `NoMemory`. The first lines may then be written, each as a
/// whole.
pub(crate) fn report_audit<R: Report>(
    alloc: Global,
    report: &mut R,
    images: &[AuditedImage],
    error: u64,
    bad: u64,
) -> Result<(), ShelfStop>
    ensures tells { Tells (R.written report.old) (R.written report.new)
        (map image_line images.now ++ total_line error bad ∷ []) (R.faults report.old)
        (R.faults report.new) result }
    ensures never_falls { R.faults report.old ≤ R.faults report.new }
{
    for k in 0..images.len() {
        let Ok(line) = image_line(alloc, &images[k]) else {
            return Err(ShelfStop::NoMemory);
        };
        report.put(line.as_str())?;
    }
    let Ok(line) = total_line(alloc, error, bad) else {
        return Err(ShelfStop::NoMemory);
    };
    report.put(line.as_str())
}

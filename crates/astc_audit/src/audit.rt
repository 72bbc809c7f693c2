// The command audit.
ghost use Rattle.std.specs.Prelude.{◌≡◌, ◌≤◌, ◌==◌, if◌then◌else◌};
ghost use Rattle.tex_shelf.specs.Frames.{OnlyReads};
ghost use Rattle.texture.specs.Shapes.{image_count};
ghost use Rattle.outcomes.specs.declared.outcome.Outcome.TheVariants.{Done as IsDone, Found as HasFound};
ghost use Rattle.outcomes.specs.Scenes.{scene};
ghost use Rattle.astc_audit.specs.Ends.{AuditEnds, EndsWithTexture, EndsWithBoth};

use crate::gathering::audit_chain;
use crate::reporting::report_audit;
use crate::wanted::want_of;
use astc_words::AuditJob;
use images::Images;
use ktx_file::Ktx;
use outcomes::{Outcome, after_report, load_images, load_ktx};
use std::alloc::Global;
use tex_shelf::{Report, Shelf};

// Done, or how many bad blocks were found.
fn outcome_of(bad: u64) -> Outcome
    ensures { result ≡ (if bad == 0 then IsDone else HasFound bad) }
{
    if bad == 0 {
        Outcome::Done
    } else {
        Outcome::Found(bad)
    }
}

// Judges each block, and reports each image and the totals.
fn audit_images<R: Report>(
    alloc: Global,
    job: &AuditJob,
    ktx: &Ktx,
    images: Images,
    report: &mut R,
) -> Outcome
    requires { images.count ≡ image_count ktx.now.shape }
    ensures ends { EndsWithBoth job.now ktx.now images (R.written report.old) (R.written report.new)
        (R.faults report.old) (R.faults report.new) result }
    ensures report { R.faults report.old ≤ R.faults report.new }
{
    match audit_chain(alloc, ktx, images, job) {
        Ok(audit) => match report_audit(alloc, report, &audit.images, audit.error, audit.bad) {
            Ok(()) => outcome_of(audit.bad),
            Err(stop) => after_report(stop),
        },
        Err(_) => Outcome::Memory,
    }
}

// Reads the images that a texture was made of, and judges it against them.
fn audit_texture<S: Shelf, R: Report>(
    alloc: Global,
    job: &AuditJob,
    ktx: &Ktx,
    images: &str,
    shelf: &mut S,
    report: &mut R,
) -> Outcome
    requires { S.can_open shelf.old images.now }
    ensures ends { EndsWithTexture job.now ktx.now images.now
        (scene S.Shelf R.Report shelf.old report.old) (scene S.Shelf R.Report shelf.new report.new)
        result }
    ensures shelf { OnlyReads S.Shelf shelf.old shelf.new }
    ensures report { R.faults report.old ≤ R.faults report.new }
{
    match load_images(alloc, shelf, images, &want_of(&ktx.layout())) {
        Ok(images) => audit_images(alloc, job, ktx, images, report),
        Err(stop) => Outcome::from(stop),
    }
}

/// Judges each block of the texture in the file `texture`, from any encoder, against the images in
/// the file `images` and their mip chain: whether the block is readable, whether no block that the
/// job's preset lists has a smaller error, and whether no change of one of its integers has one.
/// The report has the number of blocks of each image, the sum of their errors, and the number of
/// bad blocks, for which one of the three fails. If there are bad blocks, the outcome is their
/// number.
///
/// No file changes. The images are as many as the texture has at each level, and of its sides.
pub fn audit_files<S: Shelf, R: Report>(
    alloc: Global,
    job: &AuditJob,
    texture: &str,
    images: &str,
    shelf: &mut S,
    report: &mut R,
) -> Outcome
    requires texture { S.can_open shelf.old texture.now }
    requires images { S.can_open shelf.old images.now }

    ensures ends { AuditEnds job.now texture.now images.now
        (scene S.Shelf R.Report shelf.old report.old) (scene S.Shelf R.Report shelf.new report.new)
        result }
    ensures shelf { OnlyReads S.Shelf shelf.old shelf.new }
    ensures report { R.faults report.old ≤ R.faults report.new }
{
    match load_ktx(alloc, shelf, texture) {
        Ok(ktx) => audit_texture(alloc, job, &ktx, images, shelf, report),
        Err(stop) => Outcome::from(stop),
    }
}

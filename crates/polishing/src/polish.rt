// The command polish.
ghost use Rattle.std.specs.Prelude.{◌≡◌, ◌≤◌};
ghost use Rattle.tex_shelf.specs.Frames.{OnlyWrites, TakesNothing};
ghost use Rattle.images.specs.Pictures.{IsValid as AreImages};
ghost use Rattle.pam_image.specs.Reading.{IsWanted};
ghost use Rattle.outcomes.specs.Scenes.{scene};
ghost use Rattle.outcomes.specs.Ends.{EndsAfterReading};
ghost use Rattle.outcomes.specs.ManyEnds.{EndsOver, EndsOverAs};
ghost use Rattle.astc_audit.specs.Ends.{want_of};
ghost use Rattle.polishing.specs.Polished.{inputs_in, Polishes, BeginsPolish, fault_of};
ghost use Rattle.polishing.specs.Steps.{inputs_of, inputs_with};

use crate::settling::settle_anew;
use astc_audit::want_of;
use astc_words::AuditJob;
use images::Images;
use ktx_file::Ktx;
use outcomes::{Outcome, load_images, load_ktx};
use packed_levels::write_texture;
use std::alloc::Global;
use tex_shelf::{Report, Shelf};

/// Settles each block of the texture in the file `texture`, from any encoder, again for its source
/// in the images in the file `images` and their mip chain, with the block that a decoder shows
/// there as a proposal: magenta if the block is unreadable. No block gets a greater error than
/// before. The blocks are written as the KTX file `output`, and the sums of their errors are
/// reported, as in a pack.
///
/// The images are as many as the texture has at each level, and of its sides.
pub fn polish_file<S: Shelf, R: Report>(
    alloc: Global,
    job: &AuditJob,
    images: &str,
    texture: &str,
    output: &str,
    shelf: &mut S,
    report: &mut R,
) -> Outcome
    requires images { S.can_open shelf.old images.now }
    requires texture { S.can_open shelf.old texture.now }
    requires can_create { S.can_create shelf.old output.now }

    ensures ends { EndsOver (inputs_in images.now texture.now) (Polishes job.now)
        (BeginsPolish job.now) output.now
        (scene S.Shelf R.Report shelf.old report.old) (scene S.Shelf R.Report shelf.new report.new)
        (fault_of result) result }
    ensures shelf { TakesNothing S.Shelf shelf.old shelf.new }
    ensures report { R.faults report.old ≤ R.faults report.new }
{
    match load_ktx(alloc, shelf, texture) {
        Ok(ktx) => polish_texture(alloc, job, &ktx, images, output, shelf, report),
        Err(stop) => Outcome::from(stop),
    }
}

// Reads the images that a texture is judged by, and polishes it.
fn polish_texture<S: Shelf, R: Report>(
    alloc: Global,
    job: &AuditJob,
    ktx: &Ktx,
    images: &str,
    output: &str,
    shelf: &mut S,
    report: &mut R,
) -> Outcome
    requires can_open { S.can_open shelf.old images.now }
    requires can_create { S.can_create shelf.old output.now }

    ensures ends { EndsOverAs (inputs_with ktx.now images.now) (Polishes job.now)
        (BeginsPolish job.now) output.now
        (scene S.Shelf R.Report shelf.old report.old) (scene S.Shelf R.Report shelf.new report.new)
        (fault_of result) result }
    ensures shelf { TakesNothing S.Shelf shelf.old shelf.new }
    ensures report { R.faults report.old ≤ R.faults report.new }
{
    match load_images(alloc, shelf, images, &want_of(&ktx.layout())) {
        Ok(images) => polish_images(alloc, job, ktx, images, output, shelf, report),
        Err(stop) => Outcome::from(stop),
    }
}

// Settles the blocks again, writes the texture and reports it.
fn polish_images<S: Shelf, R: Report>(
    alloc: Global,
    job: &AuditJob,
    ktx: &Ktx,
    images: Images,
    output: &str,
    shelf: &mut S,
    report: &mut R,
) -> Outcome
    requires images { AreImages images }
    requires wanted { IsWanted (want_of ktx.now.shape) images }
    requires can_create { S.can_create shelf.old output.now }

    ensures ends { EndsAfterReading (Polishes job.now) (BeginsPolish job.now)
        (inputs_of ktx.now images) output.now
        (scene S.Shelf R.Report shelf.old report.old) (scene S.Shelf R.Report shelf.new report.new)
        result }
    ensures shelf { OnlyWrites S.Shelf shelf.old shelf.new }
    ensures report { R.faults report.old ≤ R.faults report.new }
{
    let layout = ktx.layout();
    // gives the fact that the shape is valid, so that the written file reads back
    layout.shape();
    match settle_anew(alloc, job, ktx, images) {
        Ok(done) => {
            let (blocks, errors) = (&done.blocks, &done.errors);
            write_texture(alloc, &layout, blocks, errors, output, shelf, report)
        }
        Err(_) => Outcome::Memory,
    }
}

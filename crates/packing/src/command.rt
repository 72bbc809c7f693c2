// The command pack.
ghost use Rattle.std.specs.Prelude.{◌≡◌, ◌≤◌, false};
ghost use Rattle.tex_shelf.specs.Frames.{OnlyWrites, TakesNothing};
ghost use Rattle.images.specs.Pictures.{IsValid as AreImages};
ghost use Rattle.pam_image.specs.Reading.{images_of, IsWanted};
ghost use Rattle.adviser_pool.specs.Pools.{states};
ghost use Rattle.outcomes.specs.Outcomes.{image_fault_of, IsUnread};
ghost use Rattle.outcomes.specs.Scenes.{scene};
ghost use Rattle.outcomes.specs.Ends.{Ends, EndsAfterReading};
ghost use Rattle.packed_levels.specs.Settling.{way_of};
ghost use Rattle.packed_levels.specs.Serving.{Keeps};
ghost use Rattle.packing.specs.Packed.{Packs, BeginsPack, want_of, options_of};

use crate::levels::pack_levels;
use crate::shape::{layout_of, want_of};
use adviser_pool::{Adviser, Pool};
use astc_words::PackJob;
use images::{Images, chain};
use outcomes::{Outcome, load_images};
use std::alloc::Global;
use tex_shelf::{Report, Shelf};

/// Packs the images in `input`, with as many levels of their mip chain as the job requests or the
/// chain has, into blocks, writes them as the KTX file `output`, and reports the sums of their
/// errors.
pub fn pack<S: Shelf, R: Report>(
    alloc: Global,
    job: &PackJob,
    input: &str,
    output: &str,
    shelf: &mut S,
    report: &mut R,
    pool: &mut Pool,
) -> Outcome
    requires can_open { S.can_open shelf.old input.now }
    requires can_create { S.can_create shelf.old output.now }

    ensures ends { Ends (images_of (want_of job.now)) image_fault_of
        (Packs job.now pool.old.fits (states ⟦<dyn Adviser as Adviser>⟧ pool.old)
        (states ⟦<dyn Adviser as Adviser>⟧ pool.new))
        (BeginsPack job.now pool.old.fits) input.now output.now
        (scene S.Shelf R.Report shelf.old report.old) (scene S.Shelf R.Report shelf.new report.new)
        result }
    ensures kept { Keeps (way_of job.now.name (options_of job.now pool.old.fits))
        (states ⟦<dyn Adviser as Adviser>⟧ pool.old)
        (states ⟦<dyn Adviser as Adviser>⟧ pool.new) }
    ensures untouched { job.now.advised ≡ false → pool.new ≡ pool.old }
    ensures unread { IsUnread result → pool.new ≡ pool.old }
    ensures shelf { TakesNothing S.Shelf shelf.old shelf.new }
    ensures report { R.faults report.old ≤ R.faults report.new }
{
    match load_images(alloc, shelf, input, &want_of(job)) {
        Ok(images) => pack_images(alloc, job, images, output, shelf, report, pool),
        Err(stop) => Outcome::from(stop),
    }
}

// Packs the requested images.
fn pack_images<S: Shelf, R: Report>(
    alloc: Global,
    job: &PackJob,
    images: Images,
    output: &str,
    shelf: &mut S,
    report: &mut R,
    pool: &mut Pool,
) -> Outcome
    requires images { AreImages images }
    requires wanted { IsWanted (want_of job.now) images }
    requires can_create { S.can_create shelf.old output.now }

    ensures ends { EndsAfterReading (Packs job.now pool.old.fits
        (states ⟦<dyn Adviser as Adviser>⟧ pool.old) (states ⟦<dyn Adviser as Adviser>⟧ pool.new))
        (BeginsPack job.now pool.old.fits) images output.now
        (scene S.Shelf R.Report shelf.old report.old) (scene S.Shelf R.Report shelf.new report.new)
        result }
    ensures kept { Keeps (way_of job.now.name (options_of job.now pool.old.fits))
        (states ⟦<dyn Adviser as Adviser>⟧ pool.old)
        (states ⟦<dyn Adviser as Adviser>⟧ pool.new) }
    ensures untouched { job.now.advised ≡ false → pool.new ≡ pool.old }
    ensures unread { IsUnread result → pool.new ≡ pool.old }
    ensures shelf { OnlyWrites S.Shelf shelf.old shelf.new }
    ensures report { R.faults report.old ≤ R.faults report.new }
{
    let shape = layout_of(job, &images).shape();
    match chain(alloc, images, shape.levels) {
        Ok(levels) => pack_levels(alloc, job, &shape, &levels, output, shelf, report, pool),
        Err(_) => Outcome::Memory,
    }
}

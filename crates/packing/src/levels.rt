// A texture from the images of its levels.
ghost use Rattle.std.specs.Prelude.{◌≡◌, ◌≤◌, false};
ghost use Rattle.tex_shelf.specs.Frames.{OnlyWrites};
ghost use Rattle.texture.specs.Shapes.{IsValid};
ghost use Rattle.adviser_pool.specs.Pools.{states};
ghost use Rattle.outcomes.specs.Scenes.{scene};
ghost use Rattle.outcomes.specs.Ends.{EndsAfterReading};
ghost use Rattle.packed_levels.specs.Settling.{way_of};
ghost use Rattle.packed_levels.specs.Serving.{Keeps};
ghost use Rattle.packed_levels.specs.Sources.{ArePackedLevels};
ghost use Rattle.packed_levels.specs.Packed.{PacksLevels, BeginsPacked};
ghost use Rattle.packing.specs.Packed.{flavour_of, options_of};

use crate::shape::options_of;
use adviser_pool::{Adviser, Pool};
use astc_words::PackJob;
use images::Images;
use outcomes::{Outcome, after_report, after_write};
use packed_levels::{report_range, store};
use std::alloc::Global;
use tex_shelf::{Report, Shelf};
use texture::{Layout, Shape};

/// Packs the images of levels into blocks, writes them as the KTX file `output`, and reports the
/// sums of their errors. The call reads the job's preset, its weights and whether advisers are
/// queried; the flavour of the job is that of the shape.
pub fn pack_levels<S: Shelf, R: Report>(
    alloc: Global,
    job: &PackJob,
    shape: &Shape,
    levels: &[Images],
    output: &str,
    shelf: &mut S,
    report: &mut R,
    pool: &mut Pool,
) -> Outcome
    requires can_create { S.can_create shelf.old output.now }
    requires shape { IsValid shape.now }
    requires name { shape.now.name ≡ job.now.name }
    requires flavour { shape.now.flavour ≡ flavour_of job.now }
    requires levels { ArePackedLevels shape.now levels.now }

    ensures ends { EndsAfterReading
        (PacksLevels shape.now (options_of job.now pool.old.fits)
        (states ⟦<dyn Adviser as Adviser>⟧ pool.old) (states ⟦<dyn Adviser as Adviser>⟧ pool.new))
        (BeginsPacked shape.now (options_of job.now pool.old.fits)) levels.now output.now
        (scene S.Shelf R.Report shelf.old report.old) (scene S.Shelf R.Report shelf.new report.new)
        result }
    ensures kept { Keeps (way_of job.now.name (options_of job.now pool.old.fits))
        (states ⟦<dyn Adviser as Adviser>⟧ pool.old)
        (states ⟦<dyn Adviser as Adviser>⟧ pool.new) }
    ensures untouched { job.now.advised ≡ false → pool.new ≡ pool.old }
    ensures shelf { OnlyWrites S.Shelf shelf.old shelf.new }
    ensures report { R.faults report.old ≤ R.faults report.new }
{
    let options = options_of(job, pool.fits());
    let layout = Layout::new(*shape);
    match store(alloc, shelf, &layout, &options, levels, output, pool) {
        Ok(errors) => match report_range(alloc, report, &layout, 0, &errors) {
            Ok(()) => Outcome::Done,
            Err(stop) => after_report(stop),
        },
        Err(stop) => after_write(stop),
    }
}

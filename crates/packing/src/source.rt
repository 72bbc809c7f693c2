// The command packktx.
ghost use Rattle.std.specs.Prelude.{◌≡◌, ◌≤◌, false};
ghost use Rattle.tex_shelf.specs.Frames.{OnlyReads, OnlyWrites, TakesNothing};
ghost use Rattle.ktx_source.specs.Sources.{source_of};
ghost use Rattle.adviser_pool.specs.Pools.{states};
ghost use Rattle.outcomes.specs.Causes.{Loads};
ghost use Rattle.outcomes.specs.Outcomes.{source_fault_of, IsUnread};
ghost use Rattle.outcomes.specs.Scenes.{scene};
ghost use Rattle.outcomes.specs.Ends.{Ends, EndsAfterReading};
ghost use Rattle.packed_levels.specs.Settling.{way_of};
ghost use Rattle.packed_levels.specs.Serving.{Keeps};
ghost use Rattle.packing.specs.Packed.{options_of};
ghost use Rattle.packing.specs.SourcePacked.{PacksSource, BeginsSourcePack, shape_of};

use crate::levels::pack_levels;
use crate::shape::flavour_of;
use adviser_pool::{Adviser, Pool};
use astc_words::PackJob;
use ktx_source::{SourceKtx, SourceStop, read_source};
use outcomes::Outcome;
use std::alloc::Global;
use tex_shelf::{Report, Shelf};
use texture::{Layout, Shape};

/// Packs each stored mip level of the uncompressed KTX file `input` as it is into blocks, writes
/// them as the KTX file `output`, and reports the sums of their errors. The call reads the job's
/// name, preset, flavour, weights and whether advisers are queried.
pub fn pack_source<S: Shelf, R: Report>(
    alloc: Global,
    job: &PackJob,
    input: &str,
    output: &str,
    shelf: &mut S,
    report: &mut R,
    pool: &mut Pool,
) -> Outcome
    requires can_open { S.can_open shelf.old input.now }
    requires can_create { S.can_create shelf.old output.now }

    ensures ends { Ends source_of source_fault_of
        (PacksSource job.now pool.old.fits (states ⟦<dyn Adviser as Adviser>⟧ pool.old)
        (states ⟦<dyn Adviser as Adviser>⟧ pool.new))
        (BeginsSourcePack job.now pool.old.fits) input.now output.now
        (scene S.Shelf R.Report shelf.old report.old) (scene S.Shelf R.Report shelf.new report.new)
        result }
    ensures kept { Keeps (way_of job.now.name (options_of job.now pool.old.fits))
        (states ⟦<dyn Adviser as Adviser>⟧ pool.old)
        (states ⟦<dyn Adviser as Adviser>⟧ pool.new) }
    ensures untouched { job.now.advised ≡ false → pool.new ≡ pool.old }
    ensures unread { IsUnread result → pool.new ≡ pool.old }
    ensures shelf { TakesNothing S.Shelf shelf.old shelf.new }
    ensures report { R.faults report.old ≤ R.faults report.new }
{
    match load(alloc, shelf, input) {
        Ok(source) => pack_stored(alloc, job, &source, output, shelf, report, pool),
        Err(stop) => Outcome::from(stop),
    }
}

/// Opens the input and reads it.
fn load<S: Shelf>(alloc: Global, shelf: &mut S, input: &str) -> Result<SourceKtx, SourceStop>
    requires can_open { S.can_open shelf.old input.now }
    ensures loads { Loads source_of (S.files shelf.old) input.now (S.read_faults shelf.old)
        (S.read_faults shelf.new) result }
    ensures rest { OnlyReads S.Shelf shelf.old shelf.new }
{
    shelf.open(input)?;
    read_source(alloc, shelf)
}

/// The texture's layout.
fn layout_of(job: &PackJob, source: &SourceKtx) -> Layout
    ensures { result ≡ shape_of job.now source.now }
{
    let extent = source.extent();
    Layout::new(Shape {
        name: job.name,
        flavour: flavour_of(job),
        width: extent.width,
        height: extent.height,
        elements: extent.elements,
        faces: extent.faces,
        levels: extent.levels,
    })
}

/// Packs the levels of a source.
fn pack_stored<S: Shelf, R: Report>(
    alloc: Global,
    job: &PackJob,
    source: &SourceKtx,
    output: &str,
    shelf: &mut S,
    report: &mut R,
    pool: &mut Pool,
) -> Outcome
    requires can_create { S.can_create shelf.old output.now }

    ensures ends { EndsAfterReading
        (PacksSource job.now pool.old.fits (states ⟦<dyn Adviser as Adviser>⟧ pool.old)
        (states ⟦<dyn Adviser as Adviser>⟧ pool.new)) (BeginsSourcePack job.now pool.old.fits)
        source.now output.now
        (scene S.Shelf R.Report shelf.old report.old) (scene S.Shelf R.Report shelf.new report.new)
        result }
    ensures kept { Keeps (way_of job.now.name (options_of job.now pool.old.fits))
        (states ⟦<dyn Adviser as Adviser>⟧ pool.old)
        (states ⟦<dyn Adviser as Adviser>⟧ pool.new) }
    ensures untouched { job.now.advised ≡ false → pool.new ≡ pool.old }
    ensures unread { IsUnread result → pool.new ≡ pool.old }
    ensures shelf { OnlyWrites S.Shelf shelf.old shelf.new }
    ensures report { R.faults report.old ≤ R.faults report.new }
{
    let shape = layout_of(job, source).shape();
    pack_levels(
        alloc,
        job,
        &shape,
        source.levels(),
        output,
        shelf,
        report,
        pool,
    )
}

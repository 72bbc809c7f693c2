// The command part.
ghost use Rattle.std.specs.Prelude.{◌≡◌, ◌≤◌, ◌^◌, IfOk, length};
ghost use Rattle.std.specs.List.{AllByRecursion};
ghost use Rattle.tex_shelf.specs.Frames.{OnlyWrites, TakesNothing};
ghost use Rattle.images.specs.Pictures.{IsValid as AreImages};
ghost use Rattle.pam_image.specs.Reading.{images_of, IsWanted};
ghost use Rattle.outcomes.specs.Outcomes.{image_fault_of};
ghost use Rattle.outcomes.specs.Scenes.{scene};
ghost use Rattle.outcomes.specs.Ends.{Ends, EndsAfterReading};
ghost use Rattle.packed_levels.specs.Sources.{ArePackedLevels};
ghost use Rattle.packing.specs.Packed.{want_of};
ghost use Rattle.part_file.specs.Fronts.{IsFront};
ghost use Rattle.part_file.specs.Files.{count_of};
ghost use Rattle.parting.specs.Parts.{MakesPart, BeginsPart, IsSettledPart, SettlesPart, BeginsSettled, front_for};
ghost use Rattle.parting.specs.Framing.{FramesPart, BeginsFrame};

use crate::pieces::pieces_of;
use astc_words::PartJob;
use images::{Images, chain, digest_of};
use outcomes::{Outcome, after_report, after_write, load_images, store};
use packed_levels::{BlockRange, SettledBlocks, report_range, settle_range};
use packing::{layout_of, settings_of, want_of};
use part_file::{Front, JobMark, part_header, part_range};
use std::alloc::{AllocError, Global};
use tex_shelf::{Report, Shelf};
use texture::Layout;

/// Settles the blocks of one part of the texture that a pack would make of the images in `input`,
/// writes them with their errors, after the mark of the job, as the part file `output`, and reports
/// the images that have blocks of it, each with the number of these blocks and the sum of their
/// errors, and the total.
pub fn pack_part<S: Shelf, R: Report>(
    alloc: Global,
    job: &PartJob,
    input: &str,
    output: &str,
    shelf: &mut S,
    report: &mut R,
) -> Outcome
    requires can_open { S.can_open shelf.old input.now }
    requires can_create { S.can_create shelf.old output.now }

    ensures ends { Ends (images_of (want_of job.now.pack)) image_fault_of (MakesPart job.now)
        (BeginsPart job.now) input.now output.now
        (scene S.Shelf R.Report shelf.old report.old) (scene S.Shelf R.Report shelf.new report.new)
        result }
    ensures shelf { TakesNothing S.Shelf shelf.old shelf.new }
    ensures report { R.faults report.old ≤ R.faults report.new }
{
    match load_images(alloc, shelf, input, &want_of(&job.pack)) {
        Ok(images) => pack_images(alloc, job, images, output, shelf, report),
        Err(stop) => Outcome::from(stop),
    }
}

// Makes a part of the requested images.
fn pack_images<S: Shelf, R: Report>(
    alloc: Global,
    job: &PartJob,
    images: Images,
    output: &str,
    shelf: &mut S,
    report: &mut R,
) -> Outcome
    requires images { AreImages images }
    requires wanted { IsWanted (want_of job.now.pack) images }
    requires can_create { S.can_create shelf.old output.now }

    ensures ends { EndsAfterReading (MakesPart job.now) (BeginsPart job.now) images output.now
        (scene S.Shelf R.Report shelf.old report.old) (scene S.Shelf R.Report shelf.new report.new)
        result }
    ensures shelf { OnlyWrites S.Shelf shelf.old shelf.new }
    ensures report { R.faults report.old ≤ R.faults report.new }
{
    let layout = layout_of(&job.pack, &images);
    match chain(alloc, images, layout.levels()) {
        Ok(levels) => pack_levels(alloc, job, &layout, &levels, output, shelf, report),
        Err(_) => Outcome::Memory,
    }
}

// Makes a part of the images of the levels.
fn pack_levels<S: Shelf, R: Report>(
    alloc: Global,
    job: &PartJob,
    layout: &Layout,
    levels: &[Images],
    output: &str,
    shelf: &mut S,
    report: &mut R,
) -> Outcome
    requires levels { ArePackedLevels layout.now levels.now }
    requires can_create { S.can_create shelf.old output.now }

    ensures ends { EndsAfterReading (SettlesPart job.now layout.now)
        (BeginsSettled job.now layout.now) levels.now output.now
        (scene S.Shelf R.Report shelf.old report.old) (scene S.Shelf R.Report shelf.new report.new)
        result }
    ensures shelf { OnlyWrites S.Shelf shelf.old shelf.new }
    ensures report { R.faults report.old ≤ R.faults report.new }
{
    let front = front_for(job, layout, levels);
    match settle_part(alloc, job, layout, levels) {
        Ok(settled) => write_part(alloc, &front, &settled, output, shelf, report),
        Err(_) => Outcome::Memory,
    }
}

// The bytes before the blocks of the part.
fn front_for(job: &PartJob, layout: &Layout, levels: &[Images]) -> Front
    ensures same { result ≡ front_for job.now layout.now levels.now }
    ensures valid { IsFront result }
{
    // says that the shape is valid
    layout.shape();
    let pack = &job.pack;
    Front {
        layout: *layout,
        mark: JobMark::new(pack.preset, pack.fitted, pack.weights, digest_of(levels)),
        place: job.at.place(),
        count: job.at.parts(),
    }
}

// Settles the blocks of the part.
fn settle_part(
    alloc: Global,
    job: &PartJob,
    layout: &Layout,
    levels: &[Images],
) -> Result<SettledBlocks, AllocError>
    requires levels { ArePackedLevels layout.now levels.now }
    ensures { IfOk result (λ it.
        IsSettledPart job.now layout.now levels.now it.blocks.items it.errors.items) }
{
    let (start, count) = part_range(layout, job.at.place(), job.at.parts());
    let range = BlockRange { start, count };
    let settings = settings_of(&job.pack, job.pack.fitted);
    settle_range(alloc, layout, &settings, levels, range, &[])
}

// Writes the settled blocks as the part, and reports them.
fn write_part<S: Shelf, R: Report>(
    alloc: Global,
    front: &Front,
    settled: &SettledBlocks,
    output: &str,
    shelf: &mut S,
    report: &mut R,
) -> Outcome
    requires front { IsFront front.now }
    requires errors { length settled.now.errors.items ≡ length settled.now.blocks.items }
    requires full { length settled.now.blocks.items ≡ count_of front.now }
    requires small { AllByRecursion (λ error. error ≤ 2 ^ 32) settled.now.errors.items }
    requires can_create { S.can_create shelf.old output.now }

    ensures ends { EndsAfterReading (FramesPart front.now)
        (BeginsFrame front.now) settled.now output.now
        (scene S.Shelf R.Report shelf.old report.old) (scene S.Shelf R.Report shelf.new report.new)
        result }
    ensures shelf { OnlyWrites S.Shelf shelf.old shelf.new }
    ensures report { R.faults report.old ≤ R.faults report.new }
{
    let layout = &front.layout;
    let header = part_header(front);
    let start = part_range(layout, front.place, front.count).0;
    let errors = settled.errors.as_slice();
    let Ok(pieces) = pieces_of(alloc, settled.blocks.as_slice(), errors) else {
        return Outcome::Memory;
    };
    match store(shelf, output, &[&header, pieces.as_flattened()]) {
        Ok(()) => match report_range(alloc, report, layout, start, errors) {
            Ok(()) => Outcome::Done,
            Err(stop) => after_report(stop),
        },
        Err(stop) => after_write(stop),
    }
}

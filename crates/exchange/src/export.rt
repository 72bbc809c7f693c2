// The command export.
ghost use Rattle.std.specs.Prelude.{◌≡◌, ◌≤◌, None, length};
ghost use Rattle.tex_shelf.specs.Frames.{OnlyWrites, TakesNothing};
ghost use Rattle.outcomes.specs.Scenes.{scene};
ghost use Rattle.outcomes.specs.Ends.{Ends, EndsAfterReading};
ghost use Rattle.texture.specs.Shapes.{image_blocks};
ghost use Rattle.exchange.specs.Exports.{Exports, BeginsExport, texture_of, absent_of, exported_blocks, export_fault_of};

use crate::reporting::report_blocks;
use astc_file::astc_header;
use astc_model::side_at_level;
use astc_words::ExportJob;
use ktx_file::Ktx;
use outcomes::{Outcome, after_report, after_write, load_ktx, store};
use std::alloc::Global;
use tex_shelf::{Report, Shelf};
use texture::Shape;

/// Writes an image of the texture in `input` as the plain `.astc` file `output`, and reports the
/// number of blocks. The blocks are not checked.
pub fn export_file<S: Shelf, R: Report>(
    alloc: Global,
    job: &ExportJob,
    input: &str,
    output: &str,
    shelf: &mut S,
    report: &mut R,
) -> Outcome
    requires can_open { S.can_open shelf.old input.now }
    requires can_create { S.can_create shelf.old output.now }

    ensures ends { Ends (texture_of job.now) export_fault_of (Exports job.now)
        (BeginsExport job.now) input.now output.now
        (scene S.Shelf R.Report shelf.old report.old) (scene S.Shelf R.Report shelf.new report.new)
        result }
    ensures shelf { TakesNothing S.Shelf shelf.old shelf.new }
    ensures report { R.faults report.old ≤ R.faults report.new }
{
    match load_ktx(alloc, shelf, input) {
        Ok(ktx) => match absent_of(job, &ktx.shape()) {
            None => write_image(alloc, job, &ktx, output, shelf, report),
            Some(place) => Outcome::Absent(place),
        },
        Err(stop) => Outcome::from(stop),
    }
}

/// The first of the words 3, 4, 5 whose number is none of the texture's.
fn absent_of(job: &ExportJob, shape: &Shape) -> Option<u64>
    ensures { result ≡ absent_of job.now shape.now }
{
    if job.level >= shape.levels {
        return Some(3);
    }
    if job.element >= shape.elements.max(1) {
        return Some(4);
    }
    if job.face >= shape.faces {
        return Some(5);
    }
    None
}

/// Writes the image, and then reports it.
fn write_image<S: Shelf, R: Report>(
    alloc: Global,
    job: &ExportJob,
    ktx: &Ktx,
    output: &str,
    shelf: &mut S,
    report: &mut R,
) -> Outcome
    requires image { absent_of job.now ktx.now.shape ≡ None }
    requires can_create { S.can_create shelf.old output.now }

    ensures ends { EndsAfterReading (Exports job.now) (BeginsExport job.now) ktx.now output.now
        (scene S.Shelf R.Report shelf.old report.old) (scene S.Shelf R.Report shelf.new report.new)
        result }
    ensures shelf { OnlyWrites S.Shelf shelf.old shelf.new }
    ensures report { R.faults report.old ≤ R.faults report.new }
{
    let shape = ktx.shape();
    let width = side_at_level(shape.width, job.level);
    let height = side_at_level(shape.height, job.level);
    let header = astc_header(shape.name, width, height);
    let blocks = exported_blocks(job, ktx);
    match store(shelf, output, &[&header, blocks.as_flattened()]) {
        Ok(()) => match report_blocks(alloc, report, blocks.len() as u64) {
            Ok(()) => Outcome::Done,
            Err(stop) => after_report(stop),
        },
        Err(stop) => after_write(stop),
    }
}

/// The blocks of the requested image.
fn exported_blocks<'a>(job: &ExportJob, ktx: &'a Ktx) -> &'a [[u8; 16]]
    requires image { absent_of job.now ktx.now.shape ≡ None }
    ensures blocks { result.now ≡ exported_blocks job.now ktx.now }
    ensures count { length result.now ≡ image_blocks ktx.now.shape job.now.level }
{
    let layout = ktx.layout();
    let image = job.element * layout.shape().faces + job.face;
    let first = layout.first_block(job.level, image) as usize;
    let count = layout.image_blocks(job.level) as usize;
    &ktx.blocks()[first..first + count]
}

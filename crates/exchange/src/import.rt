// The command import.
ghost use Rattle.std.specs.Prelude.{◌≡◌, ◌≤◌};
ghost use Rattle.tex_shelf.specs.Frames.{OnlyReads, OnlyWrites, TakesNothing};
ghost use Rattle.astc_file.specs.Files.{astc_of};
ghost use Rattle.outcomes.specs.Causes.{Loads};
ghost use Rattle.outcomes.specs.Outcomes.{astc_fault_of};
ghost use Rattle.outcomes.specs.Scenes.{scene};
ghost use Rattle.outcomes.specs.Ends.{Ends, EndsAfterReading};
ghost use Rattle.exchange.specs.Imports.{Imports, BeginsImport, shape_of};

use crate::reporting::report_blocks;
use astc_file::{AstcImage, AstcStop, read_astc};
use astc_model::Flavour;
use ktx_file::{header, level_size};
use outcomes::{Outcome, after_report, after_write, store};
use std::alloc::Global;
use tex_shelf::{Report, Shelf};
use texture::{Layout, Shape};

/// Writes the image in blocks in `input`, a plain `.astc` file, as the texture `output` of this
/// flavour, without an array and with one level, and reports the number of blocks. The blocks are
/// not checked.
pub fn import_file<S: Shelf, R: Report>(
    alloc: Global,
    flavour: Flavour,
    input: &str,
    output: &str,
    shelf: &mut S,
    report: &mut R,
) -> Outcome
    requires can_open { S.can_open shelf.old input.now }
    requires can_create { S.can_create shelf.old output.now }

    ensures ends { Ends astc_of astc_fault_of (Imports flavour)
        (BeginsImport flavour) input.now output.now
        (scene S.Shelf R.Report shelf.old report.old) (scene S.Shelf R.Report shelf.new report.new)
        result }
    ensures shelf { TakesNothing S.Shelf shelf.old shelf.new }
    ensures report { R.faults report.old ≤ R.faults report.new }
{
    match load(alloc, shelf, input) {
        Ok(image) => write_texture(alloc, flavour, &image, output, shelf, report),
        Err(stop) => Outcome::from(stop),
    }
}

/// Opens the input and reads it.
fn load<S: Shelf>(alloc: Global, shelf: &mut S, input: &str) -> Result<AstcImage, AstcStop>
    requires can_open { S.can_open shelf.old input.now }
    ensures loads { Loads astc_of (S.files shelf.old) input.now (S.read_faults shelf.old)
        (S.read_faults shelf.new) result }
    ensures rest { OnlyReads S.Shelf shelf.old shelf.new }
{
    shelf.open(input)?;
    read_astc(alloc, shelf)
}

/// The texture's layout.
fn layout_of(flavour: Flavour, image: &AstcImage) -> Layout
    ensures { result ≡ shape_of flavour image.now }
{
    Layout::new(Shape {
        name: image.name(),
        flavour,
        width: image.width(),
        height: image.height(),
        elements: 0,
        faces: 1,
        levels: 1,
    })
}

/// Writes the texture, and then reports it.
fn write_texture<S: Shelf, R: Report>(
    alloc: Global,
    flavour: Flavour,
    image: &AstcImage,
    output: &str,
    shelf: &mut S,
    report: &mut R,
) -> Outcome
    requires { S.can_create shelf.old output.now }

    ensures ends { EndsAfterReading (Imports flavour) (BeginsImport flavour) image.now output.now
        (scene S.Shelf R.Report shelf.old report.old) (scene S.Shelf R.Report shelf.new report.new)
        result }
    ensures shelf { OnlyWrites S.Shelf shelf.old shelf.new }
    ensures report { R.faults report.old ≤ R.faults report.new }
{
    let shape = layout_of(flavour, image).shape();
    let header = header(&shape);
    let size = level_size(&shape, 0).to_le_bytes();
    let blocks = image.blocks();
    match store(shelf, output, &[&header, &size, blocks.as_flattened()]) {
        Ok(()) => match report_blocks(alloc, report, blocks.len() as u64) {
            Ok(()) => Outcome::Done,
            Err(stop) => after_report(stop),
        },
        Err(stop) => after_write(stop),
    }
}

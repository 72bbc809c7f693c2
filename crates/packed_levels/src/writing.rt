// The file and the report of a texture whose blocks exist.
ghost use Rattle.std.specs.Prelude.{◌≡◌, ◌≤◌, length};
ghost use Rattle.tex_shelf.specs.Frames.{OnlyWrites};
ghost use Rattle.ktx_file.specs.Files.{AreBlocks};
ghost use Rattle.outcomes.specs.Scenes.{scene};
ghost use Rattle.outcomes.specs.Ends.{EndsAfterReading};
ghost use Rattle.packed_levels.specs.Framing.{FramesTexture, BeginsTexture};

use crate::reporting::report_range;
use crate::stored_texture::store_texture;
use outcomes::{Outcome, after_report, after_write};
use std::alloc::Global;
use tex_shelf::{Report, Shelf};
use texture::Layout;

/// Writes the blocks as the KTX file `output`, and reports the sums of their errors, as a pack
/// does. The blocks and the errors are not checked.
pub fn write_texture<S: Shelf, R: Report>(
    alloc: Global,
    layout: &Layout,
    blocks: &[[u8; 16]],
    errors: &[u32],
    output: &str,
    shelf: &mut S,
    report: &mut R,
) -> Outcome
    requires full { AreBlocks layout.now blocks.now }
    requires errors { length errors.now ≡ length blocks.now }
    requires can_create { S.can_create shelf.old output.now }

    ensures ends { EndsAfterReading (FramesTexture layout.now blocks.now)
        (BeginsTexture layout.now blocks.now) errors.now output.now
        (scene S.Shelf R.Report shelf.old report.old) (scene S.Shelf R.Report shelf.new report.new)
        result }
    ensures shelf { OnlyWrites S.Shelf shelf.old shelf.new }
    ensures report { R.faults report.old ≤ R.faults report.new }
{
    match store_texture(shelf, output, layout, blocks) {
        Ok(()) => match report_range(alloc, report, layout, 0, errors) {
            Ok(()) => Outcome::Done,
            Err(stop) => after_report(stop),
        },
        Err(stop) => after_write(stop),
    }
}

// The command unpack.
ghost use Rattle.std.specs.Prelude.{◌≤◌};
ghost use Rattle.tex_shelf.specs.Frames.{TakesNothing};
ghost use Rattle.ktx_file.specs.Files.{ktx_of};
ghost use Rattle.outcomes.specs.Outcomes.{ktx_fault_of};
ghost use Rattle.outcomes.specs.Scenes.{scene};
ghost use Rattle.outcomes.specs.Ends.{Ends};
ghost use Rattle.unpacking.specs.Unpacked.{Unpacks, BeginsUnpack};

use crate::reporting::report_unpacked;
use crate::storing::store;
use outcomes::{Outcome, after_report, after_write, load_ktx};
use std::alloc::Global;
use tex_shelf::{Report, Shelf};

/// Unpacks the texture in `input`: writes a PAM image of four bytes per texel for each of its
/// levels, elements and faces, in this order, as the file `output`, and reports the number of
/// unreadable blocks of each image, which are magenta.
pub fn unpack_file<S: Shelf, R: Report>(
    alloc: Global,
    input: &str,
    output: &str,
    shelf: &mut S,
    report: &mut R,
) -> Outcome
    requires can_open { S.can_open shelf.old input.now }
    requires can_create { S.can_create shelf.old output.now }

    ensures ends { Ends ktx_of ktx_fault_of Unpacks BeginsUnpack input.now output.now
        (scene S.Shelf R.Report shelf.old report.old) (scene S.Shelf R.Report shelf.new report.new)
        result }
    ensures shelf { TakesNothing S.Shelf shelf.old shelf.new }
    ensures report { R.faults report.old ≤ R.faults report.new }
{
    match load_ktx(alloc, shelf, input) {
        Ok(ktx) => match store(alloc, shelf, output, &ktx) {
            Ok(images) => match report_unpacked(alloc, report, &images) {
                Ok(()) => Outcome::Done,
                Err(stop) => after_report(stop),
            },
            Err(stop) => after_write(stop),
        },
        Err(stop) => Outcome::from(stop),
    }
}

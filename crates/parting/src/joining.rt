// The command join.
ghost use Rattle.std.specs.Prelude.{◌≡◌, ◌≤◌, length};
ghost use Rattle.std.specs.List.{AllByRecursion};
ghost use Rattle.tex_shelf.specs.Frames.{OnlyWrites, TakesNothing};
ghost use Rattle.outcomes.specs.Scenes.{scene};
ghost use Rattle.outcomes.specs.Ends.{EndsAfterReading};
ghost use Rattle.outcomes.specs.ManyEnds.{EndsOver};
ghost use Rattle.astc_words.specs.Commands.{texts};
ghost use Rattle.parting.specs.Joins.{parts_in, AreParts, Joins, BeginsJoin, fault_of, outcome_of};
ghost use Rattle.parting.specs.Gathering.{parts_of};
ghost use Rattle.parting.specs.JoinEnds.{join_end};

use crate::JoinFault;
use crate::blocks::{all_blocks, all_errors};
use crate::gathering::{GatheredParts, JoinStop, gather};
use outcomes::Outcome;
use packed_levels::write_texture;
use std::alloc::Global;
use tex_shelf::{Report, Shelf, Stop};

/// How a join ended.
#[derive(Clone, Copy, Debug, PartialEq, Eq)]
pub enum JoinEnd {
    /// The files are not the parts of one texture, and no file changed.
    Refused(JoinFault),
    /// The end of the command is that of other commands: `Done`, `ReadFault`, `WriteFault`,
    /// `ReportFault` or `Memory`.
    Ended(Outcome),
}

impl From<JoinStop> for JoinEnd {
    ghost from_gives = { λ stop end. end ≡ join_end stop };

    fn from(stop: JoinStop) -> Self {
        match stop {
            Stop::Fault(fault) => JoinEnd::Refused(fault),
            Stop::ReadFault => JoinEnd::Ended(Outcome::ReadFault),
            Stop::NoMemory => JoinEnd::Ended(Outcome::Memory),
        }
    }
}

/// Reads the part files `inputs`, in any order, makes the KTX file `output` of their blocks, and
/// reports the sums of their errors, as a pack does. The files must be all parts of one job, given
/// once each: of one texture, settled with the same options for the same images, by their marks.
/// The blocks and the errors are not checked. No file changes before all are read. The first of the
/// inputs is word 2.
pub fn join_parts<S: Shelf, R: Report>(
    alloc: Global,
    output: &str,
    inputs: &[String],
    shelf: &mut S,
    report: &mut R,
) -> JoinEnd
    requires some { 1 ≤ length inputs.now }
    requires can_open { AllByRecursion (S.can_open shelf.old) (texts inputs.now) }
    requires can_create { S.can_create shelf.old output.now }

    ensures ends { EndsOver (parts_in (texts inputs.now)) Joins BeginsJoin output.now
        (scene S.Shelf R.Report shelf.old report.old) (scene S.Shelf R.Report shelf.new report.new)
        (fault_of result) (outcome_of result) }
    ensures shelf { TakesNothing S.Shelf shelf.old shelf.new }
    ensures report { R.faults report.old ≤ R.faults report.new }
{
    match gather(alloc, shelf, inputs) {
        Ok(gathered) => JoinEnd::Ended(join_gathered(alloc, &gathered, output, shelf, report)),
        Err(stop) => JoinEnd::from(stop),
    }
}

// Makes the texture of the parts, and reports it.
fn join_gathered<S: Shelf, R: Report>(
    alloc: Global,
    parts: &GatheredParts,
    output: &str,
    shelf: &mut S,
    report: &mut R,
) -> Outcome
    requires are { AreParts parts.now.layout parts.now.mark (parts_of parts.now.slots.items) }
    requires can_create { S.can_create shelf.old output.now }

    ensures ends { EndsAfterReading Joins BeginsJoin (parts_of parts.now.slots.items) output.now
        (scene S.Shelf R.Report shelf.old report.old) (scene S.Shelf R.Report shelf.new report.new)
        result }
    ensures shelf { OnlyWrites S.Shelf shelf.old shelf.new }
    ensures report { R.faults report.old ≤ R.faults report.new }
{
    let slots = parts.slots.as_slice();
    let Ok(blocks) = all_blocks(alloc, slots) else {
        return Outcome::Memory;
    };
    let Ok(errors) = all_errors(alloc, slots) else {
        return Outcome::Memory;
    };
    write_texture(
        alloc,
        &parts.layout,
        &blocks,
        &errors,
        output,
        shelf,
        report,
    )
}

// All commands by their words.
ghost use Rattle.std.specs.Prelude.{◌≡◌, ◌≤◌, true, false, length, [], Some, slice_index_or};
ghost use Rattle.std.specs.List.{AllByRecursion};
ghost use Rattle.tex_shelf.specs.Frames.{TakesNothing};
ghost use Rattle.adviser_pool.specs.Pools.{states};
ghost use Rattle.astc_words.specs.Commands.{texts, OpensFirst, OpensSecond, CreatesSecond};
ghost use Rattle.astc_words.specs.More.{more_command_of, opened, created};
ghost use Rattle.astc_words.specs.declared.more_jobs.MoreJob.TheVariants.{Part as IsPart, Join as IsJoin, Polish as IsPolish};
ghost use Rattle.outcomes.specs.Outcomes.{IsUnread};
ghost use Rattle.outcomes.specs.Scenes.{scene};
ghost use Rattle.astc_run.specs.Runs.{are_advised, are_trial};
ghost use Rattle.astc_run.specs.MoreRuns.{MoreEnds, MoreJobEnds, AllEnds, IsMoreUsage, are_more, common_of};

use crate::outcome::MoreOutcome;
use crate::running::run;
use adviser_pool::{Adviser, Pool};
use astc_words::{AuditJob, MoreCommand, MoreJob, PartJob, more_job_of};
use outcomes::Outcome;
use parting::{join_parts, pack_part};
use polishing::polish_file;
use std::alloc::Global;
use tex_shelf::{Report, Shelf};

// Whether the words begin with a command over parts or over a texture of another encoder.
fn are_more(words: &[String]) -> bool
    ensures { result ≡ are_more (texts words.now) }
{
    match words {
        [word, ..] => MoreCommand::from_word(word.as_str()).is_some(),
        [] => false,
    }
}

/// Runs the job of the words of a command line, over the shelf, the report and the pool of
/// advisers, whatever command they begin with: one over parts or over a texture of another encoder,
/// which queries no adviser, or one that `run` knows. The words are those after the program's name.
/// Each command lists its outcomes and their causes; Usage is the first fault of the words.
pub fn run_more<S: Shelf, R: Report>(
    alloc: Global,
    words: &[String],
    shelf: &mut S,
    report: &mut R,
    pool: &mut Pool,
) -> MoreOutcome
    requires opens_first { OpensFirst (S.can_open shelf.old) (texts words.now) }
    requires opens_second { OpensSecond (S.can_open shelf.old) (texts words.now) }
    requires creates_second { CreatesSecond (S.can_create shelf.old) (texts words.now) }
    requires can_open { AllByRecursion (S.can_open shelf.old) (opened (texts words.now)) }
    requires can_create { AllByRecursion (S.can_create shelf.old) (created (texts words.now)) }

    ensures ends { AllEnds (texts words.now) pool.old.fits
        (states ⟦<dyn Adviser as Adviser>⟧ pool.old) (states ⟦<dyn Adviser as Adviser>⟧ pool.new)
        (scene S.Shelf R.Report shelf.old report.old) (scene S.Shelf R.Report shelf.new report.new)
        result }
    // After Usage nothing was called.
    ensures untouched_shelf { IsMoreUsage result → shelf.new ≡ shelf.old }
    ensures untouched_report { IsMoreUsage result → report.new ≡ report.old }
    ensures untouched_pool { IsMoreUsage result → pool.new ≡ pool.old }
    ensures asks_none { are_more (texts words.now) ≡ true → pool.new ≡ pool.old }
    ensures not_advised { are_more (texts words.now) ≡ false → are_advised (texts words.now) ≡ false
        → pool.new ≡ pool.old }
    ensures unread { are_more (texts words.now) ≡ false → IsUnread (common_of result)
        → pool.new ≡ pool.old }
    ensures trial_shelf { are_more (texts words.now) ≡ false → are_trial (texts words.now) ≡ true
        → shelf.new ≡ shelf.old }
    ensures shelf { TakesNothing S.Shelf shelf.old shelf.new }
    ensures report { R.faults report.old ≤ R.faults report.new }
{
    if are_more(words) {
        perform_more(alloc, words, shelf, report)
    } else {
        MoreOutcome::Common(run(alloc, words, shelf, report, pool))
    }
}

// Runs the job of words that begin with such a command.
fn perform_more<S: Shelf, R: Report>(
    alloc: Global,
    words: &[String],
    shelf: &mut S,
    report: &mut R,
) -> MoreOutcome
    requires can_open { AllByRecursion (S.can_open shelf.old) (opened (texts words.now)) }
    requires can_create { AllByRecursion (S.can_create shelf.old) (created (texts words.now)) }

    ensures ends { MoreEnds (texts words.now)
        (scene S.Shelf R.Report shelf.old report.old) (scene S.Shelf R.Report shelf.new report.new)
        result }
    // After Usage nothing was called.
    ensures untouched_shelf { IsMoreUsage result → shelf.new ≡ shelf.old }
    ensures untouched_report { IsMoreUsage result → report.new ≡ report.old }
    ensures shelf { TakesNothing S.Shelf shelf.old shelf.new }
    ensures report { R.faults report.old ≤ R.faults report.new }
{
    match more_job_of(words) {
        Ok(MoreJob::Part(job)) => part(alloc, &job, words, shelf, report),
        Ok(MoreJob::Join) => join(alloc, words, shelf, report),
        Ok(MoreJob::Polish(job)) => polish(alloc, &job, words, shelf, report),
        Err(fault) => MoreOutcome::Common(Outcome::Usage(fault)),
    }
}

// Makes the requested part of the file of word 1, as the file of word 2.
fn part<S: Shelf, R: Report>(
    alloc: Global,
    job: &PartJob,
    words: &[String],
    shelf: &mut S,
    report: &mut R,
) -> MoreOutcome
    requires command { more_command_of (slice_index_or (texts words.now) 0 [])
        ≡ Some MoreCommand.Part }
    requires long { 3 ≤ length words.now }
    requires can_open { AllByRecursion (S.can_open shelf.old) (opened (texts words.now)) }
    requires can_create { AllByRecursion (S.can_create shelf.old) (created (texts words.now)) }

    ensures ends { MoreJobEnds (IsPart job.now) (texts words.now)
        (scene S.Shelf R.Report shelf.old report.old) (scene S.Shelf R.Report shelf.new report.new)
        result }
    ensures shelf { TakesNothing S.Shelf shelf.old shelf.new }
    ensures report { R.faults report.old ≤ R.faults report.new }
{
    let [_, input, output, ..] = words else {
        unreachable!()
    };
    MoreOutcome::Common(pack_part(alloc, job, input.as_str(), output.as_str(), shelf, report))
}

// Joins the files of the words from 2 on as the file of word 1.
fn join<S: Shelf, R: Report>(
    alloc: Global,
    words: &[String],
    shelf: &mut S,
    report: &mut R,
) -> MoreOutcome
    requires command { more_command_of (slice_index_or (texts words.now) 0 [])
        ≡ Some MoreCommand.Join }
    requires long { 3 ≤ length words.now }
    requires can_open { AllByRecursion (S.can_open shelf.old) (opened (texts words.now)) }
    requires can_create { AllByRecursion (S.can_create shelf.old) (created (texts words.now)) }

    ensures ends { MoreJobEnds IsJoin (texts words.now)
        (scene S.Shelf R.Report shelf.old report.old) (scene S.Shelf R.Report shelf.new report.new)
        result }
    ensures shelf { TakesNothing S.Shelf shelf.old shelf.new }
    ensures report { R.faults report.old ≤ R.faults report.new }
{
    let [_, output, inputs @ ..] = words else {
        unreachable!()
    };
    MoreOutcome::from(join_parts(alloc, output.as_str(), inputs, shelf, report))
}

// Polishes the texture in the file of word 2 against the images in that of word 1, as the file of
// word 3.
fn polish<S: Shelf, R: Report>(
    alloc: Global,
    job: &AuditJob,
    words: &[String],
    shelf: &mut S,
    report: &mut R,
) -> MoreOutcome
    requires command { more_command_of (slice_index_or (texts words.now) 0 [])
        ≡ Some MoreCommand.Polish }
    requires long { 4 ≤ length words.now }
    requires can_open { AllByRecursion (S.can_open shelf.old) (opened (texts words.now)) }
    requires can_create { AllByRecursion (S.can_create shelf.old) (created (texts words.now)) }

    ensures ends { MoreJobEnds (IsPolish job.now) (texts words.now)
        (scene S.Shelf R.Report shelf.old report.old) (scene S.Shelf R.Report shelf.new report.new)
        result }
    ensures shelf { TakesNothing S.Shelf shelf.old shelf.new }
    ensures report { R.faults report.old ≤ R.faults report.new }
{
    let [_, images, texture, output, ..] = words else {
        unreachable!()
    };
    MoreOutcome::Common(polish_file(
        alloc,
        job,
        images.as_str(),
        texture.as_str(),
        output.as_str(),
        shelf,
        report,
    ))
}

// Commands by their words.
ghost use Rattle.std.specs.Prelude.{◌≡◌, ◌≤◌, Some, true, false, IsTrue};
ghost use Rattle.tex_shelf.specs.Frames.{TakesNothing};
ghost use Rattle.adviser_pool.specs.Pools.{states};
ghost use Rattle.astc_words.specs.Commands.{texts, reads_first, reads_second, writes_second, OpensFirst, OpensSecond, CreatesSecond};
ghost use Rattle.astc_words.specs.CommandsOfJobs.{command_by};
ghost use Rattle.outcomes.specs.Outcomes.{IsUnread};
ghost use Rattle.outcomes.specs.Scenes.{scene};
ghost use Rattle.astc_run.specs.Runs.{RunEnds, JobEnds, IsUsage, is_advised, are_advised, is_trial, are_trial};

use adviser_pool::{Adviser, Pool};
use astc_audit::audit_files;
use astc_words::{Job, job_of};
use exchange::{export_file, import_file};
use outcomes::Outcome;
use packing::{pack, pack_source, trial};
use std::alloc::Global;
use tex_shelf::{Report, Shelf, SteadyShelf};
use unpacking::unpack_file;

/// Runs the job of the words of a command line, over the shelf, the report and the pool of
/// advisers. The words are those after the program's name. Each command lists its outcomes and
/// their causes; Usage is the first fault of the words. A trial has a shelf in memory.
pub fn run<S: Shelf, R: Report>(
    alloc: Global,
    words: &[String],
    shelf: &mut S,
    report: &mut R,
    pool: &mut Pool,
) -> Outcome
    requires opens_first { OpensFirst (S.can_open shelf.old) (texts words.now) }
    requires opens_second { OpensSecond (S.can_open shelf.old) (texts words.now) }
    requires creates_second { CreatesSecond (S.can_create shelf.old) (texts words.now) }

    ensures ends { RunEnds (texts words.now) pool.old.fits
        (states ⟦<dyn Adviser as Adviser>⟧ pool.old) (states ⟦<dyn Adviser as Adviser>⟧ pool.new)
        (scene S.Shelf R.Report shelf.old report.old) (scene S.Shelf R.Report shelf.new report.new)
        result }
    // After Usage nothing was called.
    ensures untouched_shelf { IsUsage result → shelf.new ≡ shelf.old }
    ensures untouched_report { IsUsage result → report.new ≡ report.old }
    ensures untouched_pool { IsUsage result → pool.new ≡ pool.old }
    ensures trial_shelf { are_trial (texts words.now) ≡ true → shelf.new ≡ shelf.old }
    ensures not_advised { are_advised (texts words.now) ≡ false → pool.new ≡ pool.old }
    ensures unread { IsUnread result → pool.new ≡ pool.old }
    ensures shelf { TakesNothing S.Shelf shelf.old shelf.new }
    ensures report { R.faults report.old ≤ R.faults report.new }
{
    match job_of(words) {
        Ok(job) => {
            let [_, first, second, ..] = words else {
                unreachable!()
            };
            perform(
                alloc,
                &job,
                first.as_str(),
                second.as_str(),
                shelf,
                report,
                pool,
            )
        }
        Err(fault) => Outcome::Usage(fault),
    }
}

/// Runs a job over the files with these names.
fn perform<S: Shelf, R: Report>(
    alloc: Global,
    job: &Job,
    first: &str,
    second: &str,
    shelf: &mut S,
    report: &mut R,
    pool: &mut Pool,
) -> Outcome
    requires opens_first { IsTrue (reads_first (Some (command_by job.now)))
        → S.can_open shelf.old first.now }
    requires opens_second { IsTrue (reads_second (Some (command_by job.now)))
        → S.can_open shelf.old second.now }
    requires creates_second { IsTrue (writes_second (Some (command_by job.now)))
        → S.can_create shelf.old second.now }

    ensures ends { JobEnds job.now first.now second.now pool.old.fits
        (states ⟦<dyn Adviser as Adviser>⟧ pool.old) (states ⟦<dyn Adviser as Adviser>⟧ pool.new)
        (scene S.Shelf R.Report shelf.old report.old) (scene S.Shelf R.Report shelf.new report.new)
        result }
    ensures untouched_shelf { IsUsage result → shelf.new ≡ shelf.old }
    ensures untouched_report { IsUsage result → report.new ≡ report.old }
    ensures untouched_pool { IsUsage result → pool.new ≡ pool.old }
    ensures trial_shelf { is_trial job.now ≡ true → shelf.new ≡ shelf.old }
    ensures not_advised { is_advised job.now ≡ false → pool.new ≡ pool.old }
    ensures unread { IsUnread result → pool.new ≡ pool.old }
    ensures shelf { TakesNothing S.Shelf shelf.old shelf.new }
    ensures report { R.faults report.old ≤ R.faults report.new }
{
    match job {
        Job::Pack(job) => pack(alloc, job, first, second, shelf, report, pool),
        Job::Unpack => unpack_file(alloc, first, second, shelf, report),
        Job::Import(flavour) => import_file(alloc, *flavour, first, second, shelf, report),
        Job::Export(job) => export_file(alloc, job, first, second, shelf, report),
        Job::PackKtx(job) => pack_source(alloc, job, first, second, shelf, report, pool),
        Job::Audit(job) => audit_files(alloc, job, first, second, shelf, report),
        Job::Trial(job) => trial(alloc, job, &mut SteadyShelf::new(alloc), report),
    }
}

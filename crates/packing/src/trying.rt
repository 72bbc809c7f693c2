// The command trial.
ghost use Rattle.std.specs.Prelude.{false, ◌≡◌, ◌≤◌, ◌∷◌, [], Some, IfOk, codes, string_bytes};
ghost use Rattle.tex_shelf.specs.Files.{file_at};
ghost use Rattle.tex_shelf.specs.Frames.{TakesNothing};
ghost use Rattle.pam_image.specs.Written.{written};
ghost use Rattle.outcomes.specs.Causes.{Tells};
ghost use Rattle.outcomes.specs.Scenes.{scene};
ghost use Rattle.outcomes.specs.Ends.{EndsAfterReading};
ghost use Rattle.packing.specs.Packed.{Packs, BeginsPack};
ghost use Rattle.packing.specs.Trials.{IsSmall, pack_of, picture_of, file_line, Tries, BeginsTrial, TrialEnds, TrialTells};

use crate::command::pack;
use crate::picture::trial_images;
use adviser_pool::Pool;
use astc_model::ChannelWeights;
use astc_words::{Levels, PackJob, TrialJob, Within};
use outcomes::{Outcome, after_report};
use pam_header::pam_header;
use std::alloc::{AllocError, Global};
use tex_shelf::{Report, Shelf, ShelfStop, SteadyShelf};

/// Makes the picture of a trial as the PAM file `in` of the shelf, packs it into the texture `out`
/// there, with one level and no option except `fitted`, and reports as a pack does, then the length
/// of `out` in bytes. No other file changes.
pub fn trial<R: Report>(
    alloc: Global,
    job: &TrialJob,
    shelf: &mut SteadyShelf,
    report: &mut R,
) -> Outcome
    ensures ends { TrialEnds job.now (scene ⟦<SteadyShelf as Shelf>⟧ R.Report shelf.old report.old)
        (scene ⟦<SteadyShelf as Shelf>⟧ R.Report shelf.new report.new) result }
    ensures tells { TrialTells job.now (R.written report.old) (R.written report.new)
        (R.faults report.old) (R.faults report.new) result }
    ensures shelf { TakesNothing ⟦<SteadyShelf as Shelf>⟧ shelf.old shelf.new }
    ensures report { R.faults report.old ≤ R.faults report.new }
{
    let Ok(file) = picture_file(alloc, job) else {
        return Outcome::Memory;
    };
    match shelf.add_file("in", &file) {
        Ok(()) => try_picture(alloc, job, shelf, report),
        Err(_) => Outcome::Memory,
    }
}

/// The bytes of the picture as a PAM file.
fn picture_file(alloc: Global, job: &TrialJob) -> Result<Vec<u8>, AllocError>
    ensures bytes { IfOk result (λ file. file.items ≡ written (picture_of job.now)) }
    ensures small { IfOk result (λ file. IsSmall job.now) }
{
    let width = job.width.get();
    let height = job.height.get();
    let picture = trial_images(alloc, job.number, width, height)?;
    let mut file = Vec::from_slice(alloc, pam_header(width, height).as_slice())?;
    file.extend_from_slice(picture.raster())?;
    Ok(file)
}

/// Packs the picture in the shelf, and reports the length of the file.
fn try_picture<R: Report>(
    alloc: Global,
    job: &TrialJob,
    shelf: &mut SteadyShelf,
    report: &mut R,
) -> Outcome
    requires small { IsSmall job.now }
    requires there { file_at shelf.old.files (codes "in") ≡ Some (written (picture_of job.now)) }

    ensures ends { EndsAfterReading Tries BeginsTrial job.now (codes "out")
        (scene ⟦<SteadyShelf as Shelf>⟧ R.Report shelf.old report.old)
        (scene ⟦<SteadyShelf as Shelf>⟧ R.Report shelf.new report.new) result }
    ensures shelf { TakesNothing ⟦<SteadyShelf as Shelf>⟧ shelf.old shelf.new }
    ensures report { R.faults report.old ≤ R.faults report.new }
{
    match pack_picture(alloc, job, shelf, report) {
        Outcome::Done => {
            let Some(file) = shelf.file("out") else {
                unreachable!();
            };
            match tell_file(alloc, report, file.len()) {
                Ok(()) => Outcome::Done,
                Err(stop) => after_report(stop),
            }
        }
        outcome => outcome,
    }
}

/// The pack of a trial.
fn pack_of(job: &TrialJob) -> PackJob
    ensures { result ≡ pack_of job.now }
{
    PackJob {
        name: job.name,
        preset: job.preset,
        elements: Within::known(0),
        cube: false,
        levels: Levels::Number(Within::known(1)),
        advised: false,
        fitted: job.fitted,
        srgb: false,
        weights: ChannelWeights::even(),
    }
}

/// Packs the picture in the shelf.
fn pack_picture<R: Report>(
    alloc: Global,
    job: &TrialJob,
    shelf: &mut SteadyShelf,
    report: &mut R,
) -> Outcome
    requires small { IsSmall job.now }
    requires there { file_at shelf.old.files (codes "in") ≡ Some (written (picture_of job.now)) }

    ensures ends { EndsAfterReading (Packs (pack_of job.now) false [] [])
        (BeginsPack (pack_of job.now) false) (picture_of job.now) (codes "out")
        (scene ⟦<SteadyShelf as Shelf>⟧ R.Report shelf.old report.old)
        (scene ⟦<SteadyShelf as Shelf>⟧ R.Report shelf.new report.new) result }
    ensures shelf { TakesNothing ⟦<SteadyShelf as Shelf>⟧ shelf.old shelf.new }
    ensures report { R.faults report.old ≤ R.faults report.new }
{
    let mut pool = Pool::new();
    pack(alloc, &pack_of(job), "in", "out", shelf, report, &mut pool)
}

/// The line of the file's length in bytes.
fn file_line(alloc: Global, size: usize) -> Result<String, AllocError>
    ensures { IfOk result (λ line. string_bytes line ≡ file_line size) }
{
    format!(in alloc; "file {size}\n")
}

/// Reports the length of the file in bytes.
fn tell_file<R: Report>(alloc: Global, report: &mut R, size: usize) -> Result<(), ShelfStop>
    ensures tells { Tells (R.written report.old) (R.written report.new) (file_line size ∷ [])
        (R.faults report.old) (R.faults report.new) result }
    ensures never_falls { R.faults report.old ≤ R.faults report.new }
{
    report.put(file_line(alloc, size)?.as_str())
}

// Trials and their pictures.
use crate::commands::{report_with, words_of};
use crate::ends::{told_end, told_with};
use astc_run::{Job, MoreOutcome, Outcome, TrialJob, job_of, trial};
use case_files::{add_file, bad_row, numbers, told_texels};
use packing::trial_images;
use std::alloc::Global;
use std::io;
use tex_shelf::{MemoryReport, MemoryShelf, SteadyShelf};

/// The texels of the picture of a number: the number, width and height.
pub fn told_picture(alloc: Global, text: &str) -> io::Result<String> {
    let [first, width, height] = numbers::<3>(text)?;
    if width < 1 || width > 1024 || height < 1 || height > 1024 {
        return Err(bad_row());
    }
    match trial_images(alloc, first, width, height) {
        Ok(images) => Ok(told_texels(alloc, images.raster())?),
        Err(_) => Err(io::Error::from(io::ErrorKind::OutOfMemory)),
    }
}

fn trial_over(
    alloc: Global,
    job: &TrialJob,
    shelf: &mut SteadyShelf,
    report: &mut MemoryReport,
) -> Outcome {
    trial(alloc, job, shelf, report)
}

// Keeps a file of a trial under its name.
fn keep(from: &SteadyShelf, shelf: &mut MemoryShelf, name: &str) -> io::Result<()> {
    add_file(shelf, name, from.file(name).unwrap_or(&[]))
}

/// How a trial of these words ends, whose picture and texture are kept as `in` and `out`. The
/// report's call of this number fails.
pub fn tried(
    alloc: Global,
    text: &str,
    failing: u32,
    shelf: &mut MemoryShelf,
) -> io::Result<String> {
    let words = words_of(alloc, format!(in alloc; "trial {text}")?.as_str())?;
    let Ok(Job::Trial(job)) = job_of(&words) else {
        return Err(bad_row());
    };
    let mut steady = SteadyShelf::new(alloc);
    let mut report = report_with(alloc, failing)?;
    let outcome = trial_over(alloc, &job, &mut steady, &mut report);
    keep(&steady, shelf, "in")?;
    keep(&steady, shelf, "out")?;
    let end = told_end(alloc, &MoreOutcome::Common(outcome))?;
    Ok(told_with(end, report.text())?)
}

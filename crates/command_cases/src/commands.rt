// Commands by their words over files in memory. `run_more` is called here alone: each function that
// calls it is proved against its whole contract.
use crate::ends::{told_end, told_more, told_with};
use adviser_pool::Pool;
use astc_run::{MoreCommand, MoreOutcome, run_more};
use std::alloc::{AllocError, Global};
use std::io;
use tex_shelf::{MemoryReport, MemoryShelf};

// A word as a row writes it: '' is empty, and _ a blank.
fn word_of(alloc: Global, text: &str) -> Result<String, AllocError> {
    let mut word = String::new(alloc);
    if text != "''" {
        for letter in text.chars() {
            word.push(if letter == '_' { ' ' } else { letter })?;
        }
    }
    Ok(word)
}

/// The words of a text; none for an empty text.
pub fn words_of(alloc: Global, text: &str) -> Result<Vec<String>, AllocError> {
    let mut words = Vec::new(alloc);
    if !text.is_empty() {
        for part in text.split(' ') {
            words.push(word_of(alloc, part)?)?;
        }
    }
    Ok(words)
}

fn run_words(
    alloc: Global,
    words: &[String],
    shelf: &mut MemoryShelf,
    report: &mut MemoryReport,
    pool: &mut Pool,
) -> MoreOutcome {
    run_more(alloc, words, shelf, report, pool)
}

/// A report whose call of this number fails.
pub fn report_with(alloc: Global, failing: u32) -> io::Result<MemoryReport> {
    let mut report = MemoryReport::new(alloc);
    match report.fail_at(failing) {
        Ok(()) => Ok(report),
        Err(_) => Err(io::Error::from(io::ErrorKind::OutOfMemory)),
    }
}

/// The end of a command over a shelf, and its report. The report's call with this number fails.
pub fn ended(
    alloc: Global,
    text: &str,
    shelf: &mut MemoryShelf,
    failing: u32,
    pool: &mut Pool,
) -> io::Result<String> {
    let words = words_of(alloc, text)?;
    let mut report = report_with(alloc, failing)?;
    let (first, _) = text.split_once(' ').unwrap_or((text, ""));
    let outcome = run_words(alloc, &words, shelf, &mut report, pool);
    let end = match MoreCommand::from_word(first) {
        Some(_) => told_more(alloc, &outcome)?,
        None => told_end(alloc, &outcome)?,
    };
    Ok(told_with(end, report.text())?)
}

// Ends and reports as texts.
use astc_run::{MoreOutcome, Outcome, status_more};
use std::alloc::{AllocError, Global};

/// The status of an end and its text, and the outcome if it is not done.
pub fn told_end(alloc: Global, outcome: &MoreOutcome) -> Result<String, AllocError> {
    let number = status_more(outcome);
    match outcome {
        MoreOutcome::Common(Outcome::Done) => format!(in alloc; "{number} done"),
        MoreOutcome::Common(other) => format!(in alloc; "{number} {other:?}: {other}"),
        MoreOutcome::Parts(fault) => format!(in alloc; "{number} {fault}"),
    }
}

/// The status of an end and its text.
pub fn told_more(alloc: Global, outcome: &MoreOutcome) -> Result<String, AllocError> {
    let number = status_more(outcome);
    format!(in alloc; "{number} {outcome}")
}

/// The end and the lines of the report, each of which has a line feed.
pub fn told_with(end: String, report: &str) -> Result<String, AllocError> {
    let mut told = end;
    for line in report.lines() {
        told.push_str(" / ")?;
        told.push_str(line)?;
    }
    if !report.is_empty() && !report.ends_with('\n') {
        told.push_str(" with no line feed")?;
    }
    Ok(told)
}

// Whether a sum follows this word.
fn is_before_sum(word: &str) -> bool {
    word == "error" || word == "total"
}

/// A text in which a question mark stands for each sum of errors.
pub fn without_sums(alloc: Global, text: &str) -> Result<String, AllocError> {
    let mut told = String::new(alloc);
    let mut is_sum = false;
    for word in text.split(' ') {
        let gap = if told.is_empty() { "" } else { " " };
        told.push_str(gap)?;
        told.push_str(if is_sum { "?" } else { word })?;
        is_sum = is_before_sum(word);
    }
    Ok(told)
}

/// The sums of errors of a text.
pub fn sums_of(alloc: Global, text: &str) -> Result<String, AllocError> {
    let mut sums = String::new(alloc);
    let mut is_sum = false;
    for word in text.split(' ') {
        if is_sum {
            sums.push_str(" ")?;
            sums.push_str(word)?;
        }
        is_sum = is_before_sum(word);
    }
    Ok(sums)
}

// Runs in which one call after another fails.
use crate::commands::{Ended, RefusedCommand, run_failing};
use astc_run::{MoreOutcome, Outcome};
use std::alloc::{AllocError, Global};
use std::fmt::{self, Write};

/// Whether a command kept its promises at every call that failed.
#[derive(Clone, Copy, Debug, PartialEq, Eq)]
pub enum KeptPromises {
    /// At every call.
    Kept,
    /// The run without a failing call wasn't done.
    NotDone,
    /// Fewer calls failed than there are bytes to move.
    FewCalls,
    /// The promise is broken at the failure of the call with this number.
    Broken(u32),
}

impl fmt::Display for KeptPromises {
    fn fmt<W: Write>(&self, f: &mut fmt::Formatter<W>) -> fmt::Result {
        match self {
            KeptPromises::Kept => write!(f, "every failure is the last call and ends as promised"),
            KeptPromises::NotDone => write!(f, "not done without a failure"),
            KeptPromises::FewCalls => write!(f, "too few calls"),
            KeptPromises::Broken(call) => write!(f, "call {call} not as promised"),
        }
    }
}

// Whether a run did all.
fn is_done(ended: &Ended) -> bool {
    ended.outcome == MoreOutcome::Common(Outcome::Done)
}

// The bytes of an output; none without an output.
fn bytes_of(output: &Option<Vec<u8>>) -> &[u8] {
    match output {
        Some(bytes) => bytes.as_slice(),
        None => &[],
    }
}

// Whether an output is a prefix of the whole one after a write that failed: nothing, or its first
// bytes.
fn is_front(output: &Option<Vec<u8>>, whole: &Option<Vec<u8>>) -> bool {
    bytes_of(whole).starts_with(bytes_of(output))
}

// Whether the end of a run whose shelf failed at this call is as promised. After a failed read no
// file has changed, after a failed write the output is a prefix of the whole one, and after either
// there were no more calls or reports.
fn stands(ended: &Ended, whole: &Ended, call: u32) -> bool {
    let last = ended.calls.count() == call && ended.report_puts == 0;
    let quiet = last && ended.keeps_inputs && ended.told.is_empty();
    match ended.outcome {
        MoreOutcome::Common(Outcome::ReadFault) => quiet && ended.output.is_none(),
        MoreOutcome::Common(Outcome::WriteFault) => quiet && is_front(&ended.output, &whole.output),
        _ => false,
    }
}

// Whether the end of a run whose report failed at this call is as promised: the output is whole,
// whole lines of the report were written, and no call followed.
fn stands_told(ended: &Ended, whole: &Ended, call: u32) -> bool {
    let told = ended.told.as_str();
    let lines = told.is_empty() || told.ends_with('\n');
    let last = ended.report_puts == call && ended.calls == whole.calls;
    ended.outcome == MoreOutcome::Common(Outcome::ReportFault)
        && last
        && ended.keeps_inputs
        && bytes_of(&ended.output) == bytes_of(&whole.output)
        && ended.output.is_some() == whole.output.is_some()
        && lines
        && told.len() < whole.told.len()
        && whole.told.as_str().starts_with(told)
}

/// Lets each call of the shelf fail in turn, if a call moves at most `most` bytes.
pub fn refuse_shelf(
    alloc: Global,
    command: &RefusedCommand,
    most: usize,
) -> Result<KeptPromises, AllocError> {
    let whole = run_failing(alloc, command, most, 0, 0)?;
    if !is_done(&whole) {
        return Ok(KeptPromises::NotDone);
    }
    let least = if most == 1 {
        command.reads.saturating_add(command.writes)
    } else {
        2
    };
    for call in 1..10_000u32 {
        let ended = run_failing(alloc, command, most, call, 0)?;
        if is_done(&ended) {
            return Ok(if call > least {
                KeptPromises::Kept
            } else {
                KeptPromises::FewCalls
            });
        }
        if !stands(&ended, &whole, call) {
            return Ok(KeptPromises::Broken(call));
        }
    }
    Ok(KeptPromises::Broken(0))
}

/// Lets each call of the report fail in turn.
pub fn refuse_report(alloc: Global, command: &RefusedCommand) -> Result<KeptPromises, AllocError> {
    let whole = run_failing(alloc, command, usize::MAX, 0, 0)?;
    if !is_done(&whole) {
        return Ok(KeptPromises::NotDone);
    }
    let lines = whole.told.lines().count();
    for call in 1..100u32 {
        let ended = run_failing(alloc, command, usize::MAX, 0, call)?;
        if is_done(&ended) {
            return Ok(if call as usize > lines {
                KeptPromises::Kept
            } else {
                KeptPromises::FewCalls
            });
        }
        if !stands_told(&ended, &whole, call) {
            return Ok(KeptPromises::Broken(call));
        }
    }
    Ok(KeptPromises::Broken(0))
}

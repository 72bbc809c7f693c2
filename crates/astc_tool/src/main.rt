//! An offline compressor of ASTC textures: PAM pictures in, KTX files out.
#![tactic(auto)]

mod help;

use adviser_pool::{LastAdviser, Pool};
use astc_run::{MoreOutcome, Outcome, run_more, status_more};
use file_sights::{FileLooker, Look, NotedFiles};
use help::{USAGE, VERSION};
use hints::{Hint, NO_TEXT, look_again};
use std::cell::Cell;
use std::fs::File;
use std::io::IsTerminal;
use std::process::ExitCode;
use std::{env, io};
use tex_shelf::{FileShelf, StreamReport};
use watched_shelf::{NotedReport, StandardErrorLine, WatchedShelf};

// Status 1 is kept for an audit that found bad blocks, and so no failure is an `Err` of `main`,
// which would end with it.
fn main(rt: HostRuntime) -> ExitCode {
    let words = match words(&rt) {
        Ok(words) => words,
        Err(error) => return refuse_words(&rt, &error),
    };
    let notes = CommandNotes::new();
    let line = line_of(words.as_slice());
    let progress = if line.shows_progress {
        Some(StandardErrorLine::new(rt))
    } else {
        None
    };
    let outcome = outcome_of(&rt, line.words, progress, &notes);
    end_with(&rt, &line, &outcome, &notes)
}

// The notes of a command: the system's message for a failed write, and the reported total.
#[derive(Drop)]
struct CommandNotes {
    look: Cell<Look>,
    total: Cell<Option<u64>>,
}

impl CommandNotes {
    fn new() -> Self {
        CommandNotes {
            look: Cell::new(Look::Unseen),
            total: Cell::new(None),
        }
    }
}

// The words of a command, and which of the two words for standard error came before them.
#[derive(Drop)]
struct CommandLine<'a> {
    words: &'a [String],
    shows_progress: bool,
    explains: bool,
}

// Takes each of the two words once, in either order.
fn line_of(words: &[String]) -> CommandLine {
    let mut line = CommandLine {
        words,
        shows_progress: false,
        explains: false,
    };
    for _word in 0..2 {
        match line.words {
            [first, rest @ ..] if first.as_str() == "--progress" && !line.shows_progress => {
                line.words = rest;
                line.shows_progress = true;
            }
            [first, rest @ ..] if first.as_str() == "--explain" && !line.explains => {
                line.words = rest;
                line.explains = true;
            }
            _ => {}
        }
    }
    line
}

// Runs the job of the words, and shows the growth of the output on the line, if there is one. The
// system's message for a failed write is noted.
fn outcome_of(
    rt: &HostRuntime,
    words: &[String],
    line: Option<StandardErrorLine<HostRuntime>>,
    notes: &CommandNotes,
) -> MoreOutcome {
    match words {
        [word] if word.as_str() == "--help" => MoreOutcome::Common(outcome_of_text(rt, USAGE)),
        [word] if word.as_str() == "--version" => MoreOutcome::Common(outcome_of_text(rt, VERSION)),
        _ => outcome_over_files(rt, words, line, notes),
    }
}

// The words after the program's name.
fn words(rt: &HostRuntime) -> io::Result<Vec<String>> {
    let mut words = Vec::new(rt.alloc());
    for word in env::args(rt)?.skip(1) {
        words.push(word)?;
    }
    Ok(words)
}

// The end if the words could not be taken: one is not text, or memory ran out.
fn refuse_words(rt: &HostRuntime, error: &io::Error) -> ExitCode {
    if error.kind() == io::ErrorKind::OutOfMemory {
        let outcome = MoreOutcome::Common(Outcome::Memory);
        let notes = CommandNotes::new();
        return end_with(rt, &line_of(&[]), &outcome, &notes);
    }
    if is_terminal(rt) {
        let _ = eprint!(rt; "{NO_TEXT}");
    }
    let _ = eprintln!(rt; "astc_tool: a word is not UTF-8");
    ExitCode::from(2)
}

// Prints a text on request. If that fails, the end is that of a report that failed.
fn outcome_of_text(rt: &HostRuntime, text: &str) -> Outcome {
    match print!(rt; "{text}") {
        Ok(()) => Outcome::Done,
        Err(_) => Outcome::ReportFault,
    }
}

// Runs the job of the words, over real files and standard output. If the null device can't be
// opened, an output could become standard output, so that no file is touched.
fn outcome_over_files(
    rt: &HostRuntime,
    words: &[String],
    line: Option<StandardErrorLine<HostRuntime>>,
    notes: &CommandNotes,
) -> MoreOutcome {
    match hold_standard_descriptors(rt) {
        Ok(_held) => outcome_with_advisers(rt, words, line_for(words, line), notes),
        Err(error) => MoreOutcome::Common(outcome_of_error(&error)),
    }
}

// The line, but none for a part: a part file has the header of a whole texture, whose length the
// line would show.
fn line_for(
    words: &[String],
    line: Option<StandardErrorLine<HostRuntime>>,
) -> Option<StandardErrorLine<HostRuntime>> {
    match words {
        [first, ..] if first.as_str() == "part" => None,
        _ => line,
    }
}

// Does what the words ask for, with an adviser that proposes the block before, and with fitted
// blocks as proposals.
fn outcome_with_advisers(
    rt: &HostRuntime,
    words: &[String],
    line: Option<StandardErrorLine<HostRuntime>>,
    notes: &CommandNotes,
) -> MoreOutcome {
    let files = NotedFiles::new(*rt, &notes.look);
    let mut shelf = WatchedShelf::new(FileShelf::new(files, rt.alloc()), line);
    let mut report = NotedReport::new(StreamReport::new(*rt, rt.alloc()), &notes.total);
    let mut pool = Pool::with_fits();
    let Ok(last) = Box::new(rt.alloc(), LastAdviser::new()) else {
        return MoreOutcome::Common(Outcome::Memory);
    };
    if pool.add(last).is_err() {
        return MoreOutcome::Common(Outcome::Memory);
    }
    let outcome = run_more(rt.alloc(), words, &mut shelf, &mut report, &mut pool);
    shelf.finish();
    outcome
}

// The end if nothing could be opened.
fn outcome_of_error(error: &io::Error) -> Outcome {
    if error.kind() == io::ErrorKind::OutOfMemory {
        Outcome::Memory
    } else {
        Outcome::ReadFault
    }
}

// Takes each standard descriptor that was closed when the program began: a file gets the lowest
// number that is free, and an output with the number of standard output would have the report
// written into it. Three handles take all three, whichever were closed. The handles are for
// reading, so that a report to a closed standard output fails.
fn hold_standard_descriptors(rt: &HostRuntime) -> io::Result<[File; 3]> {
    Ok([
        File::open(rt, "/dev/null")?,
        File::open(rt, "/dev/null")?,
        File::open(rt, "/dev/null")?,
    ])
}

// Whether a person reads standard error.
fn is_terminal(rt: &HostRuntime) -> bool {
    rt.stderr().is_terminal()
}

// Prints the fault of an end, and returns its status, which is the same if standard error fails.
fn end_with(
    rt: &HostRuntime,
    line: &CommandLine,
    outcome: &MoreOutcome,
    notes: &CommandNotes,
) -> ExitCode {
    let _ = tell_fault(rt, line, outcome, notes);
    ExitCode::from(status_more(outcome))
}

// Prints the line of a fault. At a terminal, and after `--explain`, other lines come before it,
// which help a person; after a success they say how close the texture is to its source, and if the
// output is another kind of file than its name says.
fn tell_fault(
    rt: &HostRuntime,
    line: &CommandLine,
    outcome: &MoreOutcome,
    notes: &CommandNotes,
) -> io::Result<()> {
    if line.explains || is_terminal(rt) {
        let words = line.words;
        let seen = look_again(&FileLooker::new(rt), words, outcome, notes.look.get());
        let hint = Hint {
            words,
            outcome,
            seen: &seen,
            total: notes.total.get(),
        };
        eprint!(rt; "{hint}")?;
    }
    match outcome {
        MoreOutcome::Common(Outcome::Done | Outcome::Found(_)) => Ok(()),
        _ => eprintln!(rt; "astc_tool: {outcome}"),
    }
}

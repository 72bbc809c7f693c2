//! Runs commands over files in memory that rows write, and prints the end of each: its status and
//! text, its report, and the files that it leaves. The tables of rows are in data/, and the results
//! are in stdout. `: PIECES ..|STEPS` in a table has the sizes of pieces in which the rows below
//! move their files, and the steps for each, with ` then ` between two: `{}` is the row's words,
//! and the file of its rule is `in`.
#![tactic(auto)]

mod commands;
mod ends;
mod judging;
mod settling;
mod steps;
mod trials;

use case_files::{Row, Teller, told_table};
use std::alloc::{AllocError, Global};
use std::{env, fs, io};
use steps::told_of;

// Tells how the steps of rows end.
struct RowEnds;

impl Teller for RowEnds {
    fn tell(&self, alloc: Global, row: &Row<'_>, most: usize) -> io::Result<String> {
        let steps = steps_of(alloc, row.way, row.words)?;
        let file = if row.rule.is_empty() {
            None
        } else {
            Some(row.file)
        };
        told_of(alloc, row.named, steps.as_str(), file, most)
    }
}

// The steps of a row.
fn steps_of(alloc: Global, steps: &str, words: &str) -> Result<String, AllocError> {
    let (before, behind) = steps.split_once("{}").unwrap_or((steps, ""));
    if before.len() == steps.len() {
        return String::from_str(alloc, steps);
    }
    format!(in alloc; "{before}{words}{behind}")
}

fn main(rt: HostRuntime) -> io::Result<()> {
    for table in env::args(&rt)?.skip(1) {
        let text = fs::read_to_string(&rt, table.as_str())?;
        let told = told_table(rt.alloc(), text.as_str(), &RowEnds)?;
        print!(rt; "{told}")?;
    }
    Ok(())
}

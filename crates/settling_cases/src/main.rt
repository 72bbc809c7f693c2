//! Calls the crates that settle blocks with blocks and sources of rows, and prints the result of
//! each. The tables of rows are in data/, and the results are in stdout. `: CALL` in a table names
//! the call for the rows below.
#![tactic(auto)]

mod answers;
mod settled;
mod verdicts;
mod walks;

use answers::answer;
use case_files::{Row, Teller, told_table};
use std::alloc::Global;
use std::{env, fs, io};

// Prints the results of calls.
struct Calls;

impl Teller for Calls {
    fn tell(&self, alloc: Global, row: &Row<'_>, _most: usize) -> io::Result<String> {
        answer(alloc, row.way, row.words)
    }
}

fn main(rt: HostRuntime) -> io::Result<()> {
    for table in env::args(&rt)?.skip(1) {
        let text = fs::read_to_string(&rt, table.as_str())?;
        let told = told_table(rt.alloc(), text.as_str(), &Calls)?;
        print!(rt; "{told}")?;
    }
    Ok(())
}

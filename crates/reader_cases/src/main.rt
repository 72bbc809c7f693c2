//! Reads files that rows write, and prints the result of each: the texts of faults, or the contents
//! of the file. The tables of rows are in data/, and the results are in stdout. `: PIECES
//! ..|READER` in a table has the sizes of pieces in which the files of the rows below are read, and
//! the reader.
#![tactic(auto)]

mod answers;
mod astc;
mod headers;
mod ktx;
mod opened;
mod parts;
mod pictures;
mod sources;

use answers::answer;
use case_files::{Row, Teller, told_table};
use std::alloc::Global;
use std::{env, fs, io};

// Tells what files are read as.
struct Readers;

impl Teller for Readers {
    fn tell(&self, alloc: Global, row: &Row<'_>, most: usize) -> io::Result<String> {
        answer(alloc, row.way, row.words, row.file, most)
    }
}

fn main(rt: HostRuntime) -> io::Result<()> {
    for table in env::args(&rt)?.skip(1) {
        let text = fs::read_to_string(&rt, table.as_str())?;
        let told = told_table(rt.alloc(), text.as_str(), &Readers)?;
        print!(rt; "{told}")?;
    }
    Ok(())
}

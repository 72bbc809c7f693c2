// Tables of rows, and the text that a program prints for each.
use crate::lines::{Line, line_of, piece_of};
use crate::rules::file_by;
use crate::shelves::add_file;
use std::alloc::{AllocError, Global};
use std::io;
use tex_shelf::MemoryShelf;

/// A row of a table.
#[derive(Clone, Copy)]
pub struct Row<'a> {
    /// The files that are named above it.
    pub named: &'a MemoryShelf,
    /// The call for the row.
    pub way: &'a str,
    pub words: &'a str,
    /// The rule of its file, and the file.
    pub rule: &'a str,
    pub file: &'a [u8],
}

/// A program that prints a text for each row.
pub trait Teller {
    /// The text for a row whose file moves at most `most` bytes per call.
    ///
    /// # Errors
    ///
    /// If the row is unreadable, or memory runs out.
    fn tell(&self, alloc: Global, row: &Row<'_>, most: usize) -> io::Result<String>;
}

// Adds the text for a row in pieces of a size, if it is the first or differs from the first.
fn add_found(
    alloc: Global,
    told: &mut String,
    name: &str,
    piece: &str,
    first: &str,
    found: &str,
) -> Result<(), AllocError> {
    if first.is_empty() {
        told.push_str(format!(in alloc; "{name}: {found}\n")?.as_str())?;
    } else if found != first {
        let other = format!(in alloc; "{name}, in pieces of {piece} bytes: {found}\n")?;
        told.push_str(other.as_str())?;
    }
    Ok(())
}

// Adds the text for a row. In pieces of each size it must be the same; otherwise the difference is
// added too.
fn add_row<T: Teller>(
    alloc: Global,
    told: &mut String,
    teller: &T,
    name: &str,
    pieces: &str,
    row: &Row<'_>,
) -> io::Result<()> {
    let mut first = String::new(alloc);
    for piece in pieces.split(' ') {
        let found = teller.tell(alloc, row, piece_of(piece)?)?;
        add_found(alloc, told, name, piece, first.as_str(), found.as_str())?;
        if first.is_empty() {
            first = found;
        }
    }
    Ok(())
}

// Adds the text for a row under a way: `PIECES ..|WAY`, or the way alone, if its file moves as a
// whole.
fn add_row_under<T: Teller>(
    alloc: Global,
    told: &mut String,
    teller: &T,
    named: &MemoryShelf,
    way: &str,
    row: (&str, &str, &str),
) -> io::Result<()> {
    let (name, words, rule) = row;
    let (pieces, way) = way.split_once('|').unwrap_or(("whole", way));
    let file = file_by(alloc, named, rule)?;
    let row = Row {
        named,
        way,
        words,
        rule,
        file: &file,
    };
    add_row(alloc, told, teller, name, pieces, &row)
}

// Keeps the file of a rule under a name.
fn keep_file(alloc: Global, named: &mut MemoryShelf, name: &str, rule: &str) -> io::Result<()> {
    let file = file_by(alloc, named, rule)?;
    add_file(named, name, &file)
}

/// The text that a program prints for the rows of a table, one line for each or more.
///
/// # Errors
///
/// If a row is unreadable, or memory runs out.
pub fn told_table<T: Teller>(alloc: Global, text: &str, teller: &T) -> io::Result<String> {
    let mut told = String::new(alloc);
    let mut named = MemoryShelf::new(alloc);
    let mut way = String::new(alloc);
    for line in text.lines() {
        match line_of(line) {
            Line::Comment => {}
            Line::Named(name, rule) => keep_file(alloc, &mut named, name, rule)?,
            Line::Way(found) => way = String::from_str(alloc, found)?,
            Line::Row(name, words, rule) => {
                let row = (name, words, rule);
                add_row_under(alloc, &mut told, teller, &named, way.as_str(), row)?;
            }
        }
    }
    Ok(told)
}

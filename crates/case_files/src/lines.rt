// Lines of tables.
use crate::digits::{bad_row, number};
use std::io;

/// A line of a table.
#[derive(Clone, Copy)]
pub enum Line<'a> {
    /// An empty line, or a comment: `# COMMENT`.
    Comment,
    /// A file for the rules below it: `= NAME|RULE`.
    Named(&'a str, &'a str),
    /// The call for the rows below: `: WAY`, or `: PIECES ..|WAY` with the sizes of pieces in which
    /// their files move.
    Way(&'a str),
    /// A row: `NAME|WORDS|RULE`.
    Row(&'a str, &'a str, &'a str),
}

/// The line that a text is.
pub fn line_of(text: &str) -> Line<'_> {
    if let Some(file) = text.strip_prefix("= ") {
        let (name, rule) = file.split_once('|').unwrap_or((file, ""));
        return Line::Named(name, rule);
    }
    if let Some(way) = text.strip_prefix(": ") {
        return Line::Way(way);
    }
    if text.is_empty() || text.starts_with('#') {
        return Line::Comment;
    }
    let (name, rest) = text.split_once('|').unwrap_or((text, ""));
    let (words, rule) = rest.split_once('|').unwrap_or((rest, ""));
    Line::Row(name, words, rule)
}

/// The number of bytes of a piece, at most: a number from 1 on, or `whole`.
pub fn piece_of(word: &str) -> io::Result<usize> {
    if word == "whole" {
        return Ok(usize::MAX);
    }
    match number(word)? {
        0 => Err(bad_row()),
        bytes => Ok(bytes as usize),
    }
}

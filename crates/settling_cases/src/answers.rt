// The results of calls.
use crate::settled::settled_answer;
use crate::verdicts::verdict_answer;
use crate::walks::walk_answer;
use case_files::bad_row;
use std::alloc::Global;
use std::io;

/// The result of a call with the words of a row.
pub fn answer(alloc: Global, call: &str, words: &str) -> io::Result<String> {
    match call {
        "verdict" => verdict_answer(alloc, words, false),
        "pair verdict" => verdict_answer(alloc, words, true),
        "settled" => settled_answer(alloc, words),
        "walk" => walk_answer(alloc, words),
        _ => Err(bad_row()),
    }
}

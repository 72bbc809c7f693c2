// The results of calls.
use crate::blocks::{constant_answer, default_answer, extent_answer, read_answer, written_answer};
use crate::pools::{ask_answer, pool_answer, source_answer};
use case_files::bad_row;
use std::alloc::Global;
use std::io;

/// The result of a call with the words of a row.
pub fn answer(alloc: Global, call: &str, words: &str) -> io::Result<String> {
    match call {
        "read" => read_answer(alloc, words),
        "write" => written_answer(alloc, words),
        "extent" => extent_answer(alloc, words),
        "constant" => constant_answer(alloc, words),
        "default" => default_answer(alloc),
        "source" => source_answer(alloc, words),
        "ask" => ask_answer(alloc, words),
        "pool" => pool_answer(alloc, words),
        _ => Err(bad_row()),
    }
}

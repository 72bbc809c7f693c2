// The results of calls.
use crate::endpoints::{colours_answer, ideal_answer};
use crate::infills::{around_answer, touched_answer, weights_answer};
use crate::modes::{fault_answer, modes_answer, shape_answer};
use crate::partitions::{hash_answer, parts_answer};
use case_files::bad_row;
use std::alloc::Global;
use std::io;

// The result of a call for partitions and colours.
fn answer_of_colours(alloc: Global, call: &str, words: &str) -> io::Result<String> {
    match call {
        "hash" => hash_answer(alloc, words),
        "parts" => parts_answer(alloc, words),
        "colours" => colours_answer(alloc, words),
        "ideal" => ideal_answer(alloc, words),
        _ => Err(bad_row()),
    }
}

/// The result of a call with the words of a row.
pub fn answer(alloc: Global, call: &str, words: &str) -> io::Result<String> {
    match call {
        "modes" => modes_answer(alloc, words),
        "fault" => fault_answer(alloc, words),
        "shape" => shape_answer(alloc, words),
        "weights" => weights_answer(alloc, words),
        "around" => around_answer(alloc, words),
        "touched" => touched_answer(alloc, words),
        _ => answer_of_colours(alloc, call, words),
    }
}

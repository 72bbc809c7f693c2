// The results of calls.
use crate::candidates_made::{candidate_answer, count_answer, recipe_answer};
use crate::texels_shown::{error_answer, first_place_answer, texels_answer};
use case_files::bad_row;
use std::alloc::Global;
use std::io;

/// The result of a call with the words of a row.
pub fn answer(alloc: Global, call: &str, words: &str) -> io::Result<String> {
    match call {
        "count" => count_answer(alloc, words),
        "recipe" => recipe_answer(alloc, words),
        "candidate" => candidate_answer(alloc, words),
        "texels" => texels_answer(alloc, words),
        "error" => error_answer(alloc, words),
        "first place" => first_place_answer(alloc, words),
        _ => Err(bad_row()),
    }
}

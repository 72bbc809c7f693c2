// The results of calls.
use crate::names::{channels_answer, footprint_answer, format_answer, preset_answer};
use crate::sequences::{
    bytes_answer, field_answer, length_answer, sequence_answer, written_sequence_answer,
};
use crate::values::{colour_values_answer, level_answer, weight_values_answer};
use case_files::bad_row;
use std::alloc::Global;
use std::io;

// The result of a call for names.
fn answer_of_names(alloc: Global, call: &str, words: &str) -> io::Result<String> {
    match call {
        "footprint" => footprint_answer(alloc, words),
        "format" => format_answer(alloc, words),
        "preset" => preset_answer(alloc, words),
        "channels" => channels_answer(alloc, words),
        _ => Err(bad_row()),
    }
}

/// The result of a call with the words of a row.
pub fn answer(alloc: Global, call: &str, words: &str) -> io::Result<String> {
    match call {
        "level" => level_answer(alloc, words),
        "length" => length_answer(alloc, words),
        "field" => field_answer(alloc, words),
        "bytes" => bytes_answer(alloc, words),
        "sequence" => sequence_answer(alloc, words),
        "write sequence" => written_sequence_answer(alloc, words),
        "colour values" => colour_values_answer(alloc, words),
        "weight values" => weight_values_answer(alloc, words),
        _ => answer_of_names(alloc, call, words),
    }
}

// The results of readers.
use crate::astc::astc_answer;
use crate::headers::{grid_answer, header_answer, plain_answer, written_answer};
use crate::ktx::ktx_answer;
use crate::opened::opened;
use crate::parts::{part_answer, range_answer};
use crate::pictures::{chain_answer, images_answer, source_answer};
use crate::sources::levels_answer;
use case_files::{bad_row, number};
use std::alloc::Global;
use std::io;
use tex_shelf::MemoryShelf;

// The result of a reader over a shelf.
fn answer_over(
    alloc: Global,
    reader: &str,
    words: &str,
    shelf: &mut MemoryShelf,
) -> io::Result<String> {
    match reader {
        "images" => images_answer(alloc, words, shelf),
        "chain" => chain_answer(alloc, words, shelf),
        "cut" => source_answer(alloc, words, shelf),
        "ktx" => ktx_answer(alloc, words, shelf),
        "source" => levels_answer(alloc, shelf),
        "astc" => astc_answer(alloc, shelf),
        "part" => part_answer(alloc, shelf),
        _ => Err(bad_row()),
    }
}

// The same over a shelf whose call of this number fails, with how often it failed.
fn failing_answer(
    alloc: Global,
    reader: &str,
    words: &str,
    file: &[u8],
    most: usize,
) -> io::Result<String> {
    let (call, words) = words.split_once(' ').unwrap_or((words, ""));
    let mut shelf = opened(alloc, file, most, number(call)?)?;
    let text = answer_over(alloc, reader, words, &mut shelf)?;
    let faults = shelf.read_faults();
    Ok(format!(in alloc; "{text}, failed reads {faults}")?)
}

/// The result of a reader for a file in such pieces. After a first word `fail` and a number, the
/// shelf's call with this number fails.
pub fn answer(
    alloc: Global,
    reader: &str,
    words: &str,
    file: &[u8],
    most: usize,
) -> io::Result<String> {
    match (reader, words.strip_prefix("fail ")) {
        ("header", _) => header_answer(alloc, words, file),
        ("written", _) => written_answer(alloc, words),
        ("plain", _) => plain_answer(alloc, words),
        ("grid", _) => grid_answer(alloc, words),
        ("range", _) => range_answer(alloc, words, file),
        (_, Some(words)) => failing_answer(alloc, reader, words, file, most),
        _ => answer_over(alloc, reader, words, &mut opened(alloc, file, most, 0)?),
    }
}

// Part files.
use case_files::{bad_row, numbers};
use ktx_file::header_in;
use part_file::{Part, PartStop, block_of, error_of, part_header, part_range, piece_of, read_part};
use std::alloc::{AllocError, Global};
use std::io;
use tex_shelf::MemoryShelf;

// The file of a part, each piece of which is taken apart and made again.
fn written(alloc: Global, part: &Part) -> Result<Vec<u8>, AllocError> {
    let mut file = Vec::from_slice(alloc, &part_header(&part.front()))?;
    for piece in part.pieces() {
        file.extend_from_slice(&piece_of(&block_of(piece), error_of(piece)))?;
    }
    Ok(file)
}

// The errors of a part's blocks.
fn errors(alloc: Global, part: &Part) -> Result<String, AllocError> {
    let mut text = String::new(alloc);
    for piece in part.pieces() {
        let error = error_of(piece);
        let more = format!(in alloc; " {error}")?;
        text.push_str(more.as_str())?;
    }
    Ok(text)
}

// The place, the number of parts and the errors, and whether the file is written again.
fn told(alloc: Global, part: &Part, file: &[u8]) -> Result<String, AllocError> {
    let again = written(alloc, part)?;
    let front = part.front();
    let (place, count) = (front.place, front.count);
    let errors = errors(alloc, part)?;
    let kept = if again.as_slice() == file {
        ""
    } else {
        ", written otherwise"
    };
    format!(in alloc; "{place} of {count}:{errors}{kept}")
}

/// The result of reading a part file.
pub fn part_answer(alloc: Global, shelf: &mut MemoryShelf) -> io::Result<String> {
    match read_part(alloc, shelf) {
        Ok(part) => Ok(told(alloc, &part, shelf.file("in").unwrap_or(&[]))?),
        Err(PartStop::Fault(fault)) => Ok(format!(in alloc; "{fault:?}: {fault}")?),
        Err(stop) => Ok(format!(in alloc; "{stop:?}")?),
    }
}

/// The first block and the number of blocks of a part of the texture whose header is in a part
/// file. The words are the place and the number of parts.
pub fn range_answer(alloc: Global, words: &str, file: &[u8]) -> io::Result<String> {
    let [place, count] = numbers::<2>(words)?;
    if file.len() < 80 || place >= count || count > 65_536 {
        return Err(bad_row());
    }
    match header_in(&file[16..80]) {
        Ok(header) => {
            let (first, blocks) = part_range(&header.layout, place, count);
            Ok(format!(in alloc; "{first} {blocks}")?)
        }
        Err(_) => Err(bad_row()),
    }
}

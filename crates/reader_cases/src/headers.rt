// Headers, without a shelf.
use astc_file::astc_header;
use astc_model::{Flavour, FootprintName};
use case_files::{bad_row, number, numbers, told};
use ktx_file::{Shape, columns, level_size, rows};
use ktx_header::{HeaderFault, HeaderWords, WordOrder, extent_of};
use pam_header::{header_at, pam_header};
use std::alloc::{AllocError, Global};
use std::io;
use texture::Layout;

// The result of reading a PAM header that belongs to the image with this number.
fn told_header(alloc: Global, image: u64, bytes: &[u8]) -> Result<String, AllocError> {
    if bytes.len() > 4096 {
        return format!(in alloc; "too long to be read at once");
    }
    match header_at(image, bytes) {
        Ok(header) => {
            let (width, height) = (header.width, header.height);
            let (depth, size) = (header.depth, header.size);
            format!(in alloc; "width {width} height {height} depth {depth} size {size}")
        }
        Err(fault) => format!(in alloc; "{fault:?}: {fault}"),
    }
}

/// The result of reading a PAM header. The word is its image's number.
pub fn header_answer(alloc: Global, words: &str, file: &[u8]) -> io::Result<String> {
    Ok(told_header(alloc, u64::from(number(words)?), file)?)
}

/// The written header of a PAM image, and the result of reading it. The words are its sides.
pub fn written_answer(alloc: Global, words: &str) -> io::Result<String> {
    let [width, height] = numbers::<2>(words)?;
    if width < 1 || width > 8192 || height < 1 || height > 8192 {
        return Err(bad_row());
    }
    let header = pam_header(width, height);
    let bytes = told(alloc, header.as_slice())?;
    let read = told_header(alloc, 0, header.as_slice())?;
    Ok(format!(in alloc; "{bytes}, read as {read}")?)
}

/// The header that is written of a plain `.astc` file. The words are the footprint and the sides.
pub fn plain_answer(alloc: Global, words: &str) -> io::Result<String> {
    let (name, rest) = words.split_once(' ').unwrap_or((words, ""));
    let [width, height] = numbers::<2>(rest)?;
    match FootprintName::from_word(name) {
        Some(name) if width >= 1 && width <= 8192 && height >= 1 && height <= 8192 => {
            Ok(told(alloc, &astc_header(name, width, height))?)
        }
        _ => Err(bad_row()),
    }
}

// The layout of a shape that a header may say.
fn layout_of(name: FootprintName, numbers: [u32; 6]) -> Result<Layout, HeaderFault> {
    let [width, height, elements, faces, levels, _] = numbers;
    let extent = extent_of(&HeaderWords {
        order: WordOrder::Little,
        kind: 0,
        format: 0,
        internal: 0,
        width,
        height,
        depth: 0,
        elements,
        faces,
        levels,
        key_bytes: 0,
    })?;
    Ok(Layout::new(Shape {
        name,
        flavour: Flavour::Srgb,
        width: extent.width,
        height: extent.height,
        elements: extent.elements,
        faces: extent.faces,
        levels: extent.levels,
    }))
}

/// The columns and rows of blocks of a level, and its size. The words are a footprint, sides,
/// elements, faces, levels and the level.
pub fn grid_answer(alloc: Global, words: &str) -> io::Result<String> {
    let (name, rest) = words.split_once(' ').unwrap_or((words, ""));
    let Some(name) = FootprintName::from_word(name) else {
        return Err(bad_row());
    };
    let all = numbers::<6>(rest)?;
    let [_, _, _, _, _, level] = all;
    match layout_of(name, all) {
        Ok(layout) if level < layout.levels() => {
            let shape = layout.shape();
            let (columns, rows) = (columns(&shape, level), rows(&shape, level));
            let size = level_size(&shape, level);
            Ok(format!(in alloc; "columns {columns} rows {rows} size {size}")?)
        }
        Ok(_) => Ok(String::from_str(alloc, "no such level")?),
        Err(fault) => Ok(format!(in alloc; "{fault:?}")?),
    }
}

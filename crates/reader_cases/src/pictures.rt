// Images of PAM files, their mip levels and the sources of their blocks.
use astc_model::{Source, full_levels};
use case_files::{bad_row, number, told_texels};
use images::{chain, source_at};
use pam_image::{ImageStop, Images, Want, read_images};
use std::alloc::{AllocError, Global};
use std::io;
use tex_shelf::MemoryShelf;

// The sides that images are to have: `WIDTHxHEIGHT`, or none.
fn sides_of(text: &str) -> io::Result<Option<(u32, u32)>> {
    match text.split_once('x') {
        Some((width, height)) => Ok(Some((number(width)?, number(height)?))),
        None => Ok(None),
    }
}

// The request for images: their number, `cube` for faces of a cube, and their sides if these are
// known.
fn wanted(text: &str) -> io::Result<Want> {
    let (count, rest) = text.split_once(' ').unwrap_or((text, ""));
    let sides = rest.strip_prefix("cube").unwrap_or(rest).trim();
    Ok(Want {
        count: number(count)?,
        cube: rest.starts_with("cube"),
        sides: sides_of(sides)?,
    })
}

fn read(alloc: Global, shelf: &mut MemoryShelf, want: &Want) -> Result<Images, ImageStop> {
    if want.count < 1 {
        return Err(ImageStop::ReadFault);
    }
    read_images(alloc, shelf, want)
}

// The images' sizes and texels.
fn told(alloc: Global, images: &Images) -> Result<String, AllocError> {
    let (width, height, count) = (images.width(), images.height(), images.count());
    let texels = told_texels(alloc, images.raster())?;
    format!(in alloc; "width {width} height {height} count {count} texels {texels}")
}

/// The result of reading a PAM file.
pub fn images_answer(alloc: Global, words: &str, shelf: &mut MemoryShelf) -> io::Result<String> {
    match read(alloc, shelf, &wanted(words)?) {
        Ok(images) => Ok(told(alloc, &images)?),
        Err(ImageStop::Fault(fault)) => Ok(format!(in alloc; "{fault:?}: {fault}")?),
        Err(stop) => Ok(format!(in alloc; "{stop:?}")?),
    }
}

// The texels of all levels but the first.
fn further_levels(alloc: Global, levels: &[Images]) -> Result<String, AllocError> {
    let mut text = String::new(alloc);
    for level in 1..levels.len() {
        let gap = if level > 1 { " / " } else { "" };
        text.push_str(gap)?;
        text.push_str(told_texels(alloc, levels[level].raster())?.as_str())?;
    }
    Ok(text)
}

// The texels of the further levels of the full chain of images.
fn told_chain(alloc: Global, images: Images) -> io::Result<String> {
    let levels = full_levels(images.width(), images.height());
    match chain(alloc, images, levels) {
        Ok(chain) => Ok(further_levels(alloc, &chain)?),
        Err(_) => Err(io::Error::from(io::ErrorKind::OutOfMemory)),
    }
}

/// The texels of the further mip levels of a PAM file.
pub fn chain_answer(alloc: Global, words: &str, shelf: &mut MemoryShelf) -> io::Result<String> {
    match read(alloc, shelf, &wanted(words)?) {
        Ok(images) => told_chain(alloc, images),
        Err(_) => Err(bad_row()),
    }
}

// The texels of a source, a dot for each place outside.
fn told_source(alloc: Global, source: &Source<4, 4>) -> Result<String, AllocError> {
    let mut text = String::new(alloc);
    for place in 0..16u8 {
        let gap = if place > 0 { " " } else { "" };
        text.push_str(gap)?;
        match source.get(place % 4, place / 4) {
            Some(texel) => text.push_str(told_texels(alloc, &texel)?.as_str())?,
            None => text.push_str(".")?,
        }
    }
    Ok(text)
}

/// The source of a block of 4x4 texels. The words are the number of images, the image's number, and
/// the block's column and row.
pub fn source_answer(alloc: Global, words: &str, shelf: &mut MemoryShelf) -> io::Result<String> {
    let (count, rest) = words.split_once(' ').unwrap_or((words, ""));
    let (image, rest) = rest.split_once(' ').unwrap_or((rest, ""));
    let (column, row) = rest.split_once(' ').unwrap_or((rest, ""));
    let (image, column, row) = (number(image)?, number(column)?, number(row)?);
    match read(alloc, shelf, &wanted(count)?) {
        Ok(images) if image < images.count() => {
            let source = source_at(&images, image, column, row);
            Ok(told_source(alloc, &source)?)
        }
        _ => Err(bad_row()),
    }
}

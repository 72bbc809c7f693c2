// Uncompressed KTX files.
use case_files::told_texels;
use ktx_source::{SourceKtx, SourceStop, read_source};
use std::alloc::{AllocError, Global};
use std::io;
use tex_shelf::MemoryShelf;

// The texels of the levels.
fn texels(alloc: Global, source: &SourceKtx) -> Result<String, AllocError> {
    let mut text = String::new(alloc);
    let mut gap = " ";
    for level in source.levels() {
        text.push_str(gap)?;
        text.push_str(told_texels(alloc, level.raster())?.as_str())?;
        gap = " / ";
    }
    Ok(text)
}

// The same pictures, made of what they hold.
fn made_again(source: SourceKtx) -> SourceKtx {
    let extent = source.extent();
    SourceKtx::new(extent, source.into_levels())
}

// The sides, elements, faces and number of levels, and the texels of each level.
fn told(alloc: Global, source: &SourceKtx) -> Result<String, AllocError> {
    let texels = texels(alloc, source)?;
    let (width, height) = (source.width(), source.height());
    let (elements, faces) = (source.elements(), source.faces());
    let levels = source.extent().levels;
    format!(in alloc;
        "width {width} height {height} elements {elements} faces {faces} levels {levels}:{texels}"
    )
}

/// The result of reading an uncompressed KTX file.
pub fn levels_answer(alloc: Global, shelf: &mut MemoryShelf) -> io::Result<String> {
    match read_source(alloc, shelf) {
        Ok(source) => Ok(told(alloc, &made_again(source))?),
        Err(SourceStop::Fault(fault)) => Ok(format!(in alloc; "{fault:?}: {fault}")?),
        Err(stop) => Ok(format!(in alloc; "{stop:?}")?),
    }
}

// Plain `.astc` files.
use astc_file::{AstcImage, AstcStop, astc_header, read_astc};
use case_files::fnv;
use std::alloc::{AllocError, Global};
use std::io;
use tex_shelf::MemoryShelf;

// The file of an image.
fn written(alloc: Global, image: &AstcImage) -> Result<Vec<u8>, AllocError> {
    let header = astc_header(image.name(), image.width(), image.height());
    let mut file = Vec::from_slice(alloc, &header)?;
    for block in image.blocks() {
        file.extend_from_slice(block)?;
    }
    Ok(file)
}

// The same image, made of what it holds.
fn made_again(image: AstcImage) -> AstcImage {
    let (name, width, height) = (image.name(), image.width(), image.height());
    AstcImage::new(name, width, height, image.into_blocks())
}

// The footprint, the sides, the number of blocks and the hash of their bytes, and whether the file
// is written again.
fn told(alloc: Global, image: AstcImage, file: &[u8]) -> Result<String, AllocError> {
    let image = made_again(image);
    let again = written(alloc, &image)?;
    let (name, width, height) = (image.name(), image.width(), image.height());
    let count = image.blocks().len();
    let hash = fnv(again.get(16..).unwrap_or(&[]));
    let kept = if again.as_slice() == file {
        ""
    } else {
        ", written otherwise"
    };
    format!(in alloc; "{name:?} {width} {height}: {count} blocks, {hash:016X}{kept}")
}

/// The result of reading a plain `.astc` file.
pub fn astc_answer(alloc: Global, shelf: &mut MemoryShelf) -> io::Result<String> {
    match read_astc(alloc, shelf) {
        Ok(image) => Ok(told(alloc, image, shelf.file("in").unwrap_or(&[]))?),
        Err(AstcStop::Fault(fault)) => Ok(format!(in alloc; "{fault:?}: {fault}")?),
        Err(stop) => Ok(format!(in alloc; "{stop:?}")?),
    }
}

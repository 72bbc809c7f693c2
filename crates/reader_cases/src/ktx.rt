// KTX files of ASTC blocks.
use case_files::fnv;
use ktx_file::{Ktx, KtxStop, Shape, columns, header, level_size, place, read_file, rows};
use std::alloc::{AllocError, Global};
use std::io;
use tex_shelf::MemoryShelf;
use texture::Layout;

// The bytes of all blocks.
fn block_bytes(alloc: Global, ktx: &Ktx) -> Result<Vec<u8>, AllocError> {
    let mut bytes = Vec::new(alloc);
    for block in ktx.blocks() {
        bytes.extend_from_slice(block)?;
    }
    Ok(bytes)
}

// The sizes of the levels, a blank before each.
fn sizes(alloc: Global, layout: &Layout) -> Result<String, AllocError> {
    let shape = layout.shape();
    let mut text = String::new(alloc);
    for level in 0..shape.levels {
        let size = level_size(&shape, level);
        text.push_str(format!(in alloc; " {size}")?.as_str())?;
    }
    Ok(text)
}

// The shape, the sizes of its levels, and the hash of the blocks.
fn told(alloc: Global, ktx: &Ktx) -> Result<String, AllocError> {
    let shape = ktx.shape();
    let sizes = sizes(alloc, &ktx.layout())?;
    let hash = fnv(&block_bytes(alloc, ktx)?);
    let Shape {
        name,
        flavour,
        width,
        height,
        elements,
        faces,
        levels,
    } = shape;
    format!(in alloc;
        "{name:?} {flavour:?} {width} {height} {elements} {faces} {levels}:{sizes}: {hash:X}"
    )
}

// Adds the blocks of an image.
fn push_image(
    file: &mut Vec<u8>,
    ktx: &Ktx,
    level: u32,
    element: u32,
    face: u32,
) -> Result<(), AllocError> {
    let shape = ktx.shape();
    if level < shape.levels && element < shape.elements.max(1) && face < shape.faces {
        for row in 0..rows(&shape, level) {
            for column in 0..columns(&shape, level) {
                let number = place(&shape, level, element, face, row, column);
                file.extend_from_slice(&ktx.blocks()[number])?;
            }
        }
    }
    Ok(())
}

// The file of a texture, block by block.
fn written(alloc: Global, ktx: &Ktx) -> Result<Vec<u8>, AllocError> {
    let shape = ktx.shape();
    let mut file = Vec::from_slice(alloc, &header(&shape))?;
    for level in 0..shape.levels {
        file.extend_from_slice(&level_size(&shape, level).to_le_bytes())?;
        for element in 0..shape.elements.max(1) {
            for face in 0..shape.faces {
                push_image(&mut file, ktx, level, element, face)?;
            }
        }
    }
    Ok(file)
}

// The same texture, made of what it holds.
fn made_again(ktx: Ktx) -> Ktx {
    Ktx::new(ktx.layout(), ktx.into_blocks())
}

// The contents of a texture, and whether writing it gives its file.
fn told_again(alloc: Global, ktx: Ktx, file: &[u8]) -> Result<String, AllocError> {
    let ktx = made_again(ktx);
    let again = written(alloc, &ktx)?;
    let kept = if again.as_slice() == file {
        "written again"
    } else {
        "written otherwise"
    };
    let text = told(alloc, &ktx)?;
    format!(in alloc; "{text}, {kept}")
}

/// The result of reading a KTX file; with the word `again`, also whether writing it gives the file.
pub fn ktx_answer(alloc: Global, words: &str, shelf: &mut MemoryShelf) -> io::Result<String> {
    match read_file(alloc, shelf) {
        Ok(ktx) if words == "again" => {
            Ok(told_again(alloc, ktx, shelf.file("in").unwrap_or(&[]))?)
        }
        Ok(ktx) => Ok(told(alloc, &ktx)?),
        Err(KtxStop::Fault(fault)) => Ok(format!(in alloc; "{fault:?}: {fault}")?),
        Err(stop) => Ok(format!(in alloc; "{stop:?}")?),
    }
}

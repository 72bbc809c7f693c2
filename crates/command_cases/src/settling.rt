// Textures of blocks that are settled one by one.
use astc_model::{Block, ChannelWeights, Flavour, Preset, full_levels};
use case_files::{add_file, bad_row};
use descent::encode_block;
use images::{chain, source_at};
use pam_image::{Images, Want, read_images};
use std::alloc::{AllocError, Global};
use std::io;
use tex_shelf::{MemoryShelf, Shelf};
use texel_error::Steps;

// Appends a level of a texture of 6x6: its size and its blocks.
fn push_level(texture: &mut Vec<u8>, images: &Images) -> Result<(), AllocError> {
    if images.count() == 0 {
        return Ok(());
    }
    let columns = images.width().div_ceil(6).max(1);
    let count = columns.saturating_mul(images.height().div_ceil(6));
    texture.extend_from_slice(&count.saturating_mul(16).to_le_bytes())?;
    let none: [Block; 0] = [];
    let mut steps = Steps::<()>::new();
    for k in 0..count {
        let source = source_at::<6, 6>(images, 0, k % columns, k / columns);
        let (preset, flavour) = (Preset::Quick, Flavour::Linear);
        let weights = ChannelWeights::even();
        let (bytes, _) = encode_block(preset, flavour, weights, &source, &none, &mut steps);
        texture.extend_from_slice(&bytes)?;
    }
    Ok(())
}

// The image of the file `in`.
fn read(alloc: Global, shelf: &mut MemoryShelf) -> io::Result<Images> {
    let want = Want {
        count: 1,
        cube: false,
        sides: None,
    };
    if shelf.open("in").is_err() {
        return Err(bad_row());
    }
    match read_images(alloc, shelf, &want) {
        Ok(images) => Ok(images),
        Err(_) => Err(bad_row()),
    }
}

// Appends all levels of an image.
fn push_levels(alloc: Global, texture: &mut Vec<u8>, image: Images) -> io::Result<()> {
    let count = full_levels(image.width(), image.height());
    let Ok(levels) = chain(alloc, image, count) else {
        return Err(io::Error::from(io::ErrorKind::OutOfMemory));
    };
    for level in &levels {
        push_level(texture, level)?;
    }
    Ok(())
}

/// Appends to a file the levels of the image of the file `in`, whose blocks of 6x6 are settled one
/// by one under the preset `quick`.
pub fn settle_file(alloc: Global, shelf: &mut MemoryShelf, name: &str) -> io::Result<()> {
    let mut texture = shelf.file(name).unwrap_or(&[]).to_vec(alloc)?;
    let image = read(alloc, shelf)?;
    push_levels(alloc, &mut texture, image)?;
    add_file(shelf, name, &texture)
}

// The blocks of a range, each settled.
ghost use Rattle.std.specs.Prelude.{◌≡◌, ◌≤◌, ◌<◌, ◌+◌, [], length, slice_index_or, IfOk, IsTrue};
ghost use Rattle.astc_model.specs.Footprints.{is_footprint};
ghost use Rattle.astc_model.specs.Limits.{most_block_error};
ghost use Rattle.texture.specs.Shapes.{all_blocks};
ghost use Rattle.packed_levels.specs.Settling.{IsSettledFor, way_of};
ghost use Rattle.packed_levels.specs.Sources.{ArePackedLevels, sources};
ghost use Rattle.astc_model.specs.FootprintNames.{sides_of};
ghost use Rattle.packed_levels.specs.Settled.{proposed_at, unadvised, way_by, AreSettledFrom};

use astc_model::{Source, for_footprint};
use descent::fit_scratch;
use encoder::{Encoder, FitScratch, Settings, shown_block, tables_for};
use images::{Images, source_at};
use std::alloc::{AllocError, Global};
use texture::Layout;

/// Some of the blocks of a texture: `count` blocks from this number on, in the order of the file.
#[derive(Clone, Copy, Debug, PartialEq, Eq)]
pub struct BlockRange {
    pub start: u32,
    pub count: u32,
}

/// Blocks that were settled, and their errors.
#[derive(Drop)]
pub struct SettledBlocks {
    pub blocks: Vec<[u8; 16]>,
    pub errors: Vec<u32>,
}

// Settles a block for a source. If another texture has a block of the same number, the block that a
// decoder shows for it is a proposal.
fn settle_source<const W: usize, const H: usize>(
    encoder: &Encoder<W, H>,
    source: &Source<W, H>,
    number: u32,
    others: &[[u8; 16]],
    scratch: &mut FitScratch,
) -> ([u8; 16], u32)
    requires footprint { IsTrue (is_footprint W H) }
    ensures settled { IsSettledFor (way_by W H encoder.now) source.now
        (proposed_at (way_by W H encoder.now) others.now number) result.0 result.1 }
    ensures small { result.1 ≤ most_block_error }
{
    match others.get(number as usize) {
        Some(bytes) => encoder.settle(source, &[shown_block::<W, H>(bytes)], scratch),
        None => encoder.settle(source, &[], scratch),
    }
}

// Settles the block of this number of a texture.
fn settle_block<const W: usize, const H: usize>(
    encoder: &Encoder<W, H>,
    layout: &Layout,
    levels: &[Images],
    number: u32,
    others: &[[u8; 16]],
    scratch: &mut FitScratch,
) -> ([u8; 16], u32)
    requires footprint { IsTrue (is_footprint W H) }
    requires sides { sides_of layout.now.name ≡ (W, H) }
    requires levels { ArePackedLevels layout.now levels.now }
    requires inside { number < all_blocks layout.now }
    ensures settled { IsSettledFor (way_by W H encoder.now)
        (slice_index_or (sources layout.now levels.now) number [])
        (proposed_at (way_by W H encoder.now) others.now number) result.0 result.1 }
    ensures small { result.1 ≤ most_block_error }
{
    let place = layout.block_place(number);
    let images = &levels[place.image.level as usize];
    let image = place.image.element * layout.shape().faces + place.image.face;
    let source = source_at::<W, H>(images, image, place.column, place.row);
    settle_source(encoder, &source, number, others, scratch)
}

// Settles each block of a range.
#[inline(never)]
fn settle_each<const W: usize, const H: usize>(
    alloc: Global,
    encoder: &Encoder<W, H>,
    layout: &Layout,
    levels: &[Images],
    range: BlockRange,
    others: &[[u8; 16]],
) -> Result<SettledBlocks, AllocError>
    requires footprint { IsTrue (is_footprint W H) }
    requires sides { sides_of layout.now.name ≡ (W, H) }
    requires levels { ArePackedLevels layout.now levels.now }
    requires range { range.start + range.count ≤ all_blocks layout.now }
    ensures settled { IfOk result (λ it. AreSettledFrom (way_by W H encoder.now) others.now
        (sources layout.now levels.now) range.start it.blocks.items it.errors.items) }
    ensures full { IfOk result (λ it. length it.blocks.items ≡ range.count) }
{
    // ensures that the numbers of all blocks fit
    layout.all_blocks();
    let mut blocks = Vec::new(alloc);
    let mut errors = Vec::new(alloc);
    fit_scratch!(scratch);
    for k in 0..range.count {
        let number = range.start + k;
        let (block, error) = settle_block(encoder, layout, levels, number, others, scratch);
        blocks.push(block)?;
        errors.push(error)?;
    }
    Ok(SettledBlocks { blocks, errors })
}

// Settles the range with the sides of the blocks as const parameters.
fn settle_as<const W: usize, const H: usize>(
    alloc: Global,
    layout: &Layout,
    settings: &Settings,
    levels: &[Images],
    range: BlockRange,
    others: &[[u8; 16]],
) -> Result<SettledBlocks, AllocError>
    requires footprint { IsTrue (is_footprint W H) }
    requires sides { sides_of layout.now.name ≡ (W, H) }
    requires levels { ArePackedLevels layout.now levels.now }
    requires range { range.start + range.count ≤ all_blocks layout.now }
    ensures settled { IfOk result
        (λ it. AreSettledFrom (way_of layout.now.name (unadvised settings.now)) others.now
        (sources layout.now levels.now) range.start it.blocks.items it.errors.items) }
    ensures full { IfOk result (λ it. length it.blocks.items ≡ range.count) }
{
    let tables = tables_for::<W, H>(alloc, settings.preset, levels)?;
    let encoder = Encoder::new(*settings, tables.view());
    settle_each(alloc, &encoder, layout, levels, range, others)
}

/// Settles each block of a range of a texture for its source in the images of the levels. If
/// `others` has bytes for a block's number, the block that a decoder shows for them is a proposal,
/// so that no block is settled with a greater error.
///
/// # Errors
///
/// Out of memory.
pub fn settle_range(
    alloc: Global,
    layout: &Layout,
    settings: &Settings,
    levels: &[Images],
    range: BlockRange,
    others: &[[u8; 16]],
) -> Result<SettledBlocks, AllocError>
    requires levels { ArePackedLevels layout.now levels.now }
    requires range { range.start + range.count ≤ all_blocks layout.now }
    ensures settled { IfOk result
        (λ it. AreSettledFrom (way_of layout.now.name (unadvised settings.now)) others.now
        (sources layout.now levels.now) range.start it.blocks.items it.errors.items) }
    ensures full { IfOk result (λ it. length it.blocks.items ≡ range.count) }
{
    for_footprint!(
        layout.shape().name,
        settle_as(alloc, layout, settings, levels, range, others)
    )
}

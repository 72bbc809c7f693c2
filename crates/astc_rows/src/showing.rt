// Blocks shown.
ghost use Rattle.std.specs.Prelude.{◌≡◌, ◌<◌, ◌≤◌, ◌+◌, ◌*◌, ◌/◌, ◌%◌, ℕ, [], length, slice_index_or, IsTrue, IfOk, OnErr};
ghost use Rattle.astc_model.specs.Footprints.{is_footprint};
ghost use Rattle.astc_model.specs.FootprintNames.{sides_of};
ghost use Rattle.astc_model.specs.Reading.{read};
ghost use Rattle.astc_model.specs.Shown.{shown};
ghost use Rattle.astc_rows.specs.Arguments.{AnswersAlways};
ghost use Rattle.astc_rows.specs.Bands.{AreCheckedRows, block_count};
ghost use Rattle.astc_rows.specs.Showing.{AreShown, BandIsShown, IsFitted, block_of, faults_in, fitted, place_of, checked_show, texel_rows, with_texel};

use crate::arguments::{Argument, Rows};
use crate::bands::{CheckedRows, checked_rows, covering};
use astc_model::{Flavour, for_footprint};
use block_reader::read_block;
use texel_error::{MAGENTA, texels};

/// The texels of a block, and 1 if it is unreadable.
#[derive(Clone, Copy)]
struct ShownBlock {
    texels: [[u8; 4]; 144],
    illegal: u32,
}

// The texels that the bytes of a block show: magenta if they are unreadable.
#[tactic(auto, unfolding(astc_model::specs::Shown::shown))]
fn shown_block<const W: usize, const H: usize>(bytes: &[u8; 16], flavour: Flavour) -> ShownBlock
    requires { IsTrue (is_footprint W H) }
    ensures texels { (p : ℕ) → p < W * H → slice_index_or result.texels p []
        ≡ shown W H flavour bytes.now (p % W) (p / W) }
    ensures illegal { result.illegal ≡ faults_in (read W H bytes.now) }
    ensures one { result.illegal ≤ 1 }
{
    match read_block::<W, H>(bytes) {
        Ok(block) => ShownBlock {
            texels: texels::<W, H>(&block, flavour),
            illegal: 0,
        },
        Err(_) => ShownBlock {
            texels: [MAGENTA; 144],
            illegal: 1,
        },
    }
}

// The number of texel rows that the rows of blocks cover.
fn texel_rows(band: CheckedRows, unit: u32) -> u32
    requires few { unit ≤ 12 }
    requires within { band.first + band.count ≤ 8203 }
    ensures exact { result ≡ texel_rows unit band }
    ensures most { result ≤ band.height }
{
    ((band.first + band.count) * unit).min(band.height) - (band.first * unit).min(band.height)
}

// Puts a texel in column `x` and row `y` of `rows` rows of `width` texels, if they reach that far.
fn put_texel(rows: usize, width: usize, x: usize, y: usize, texel: [u8; 4], texels: &mut [[u8; 4]])
    requires wide { width ≤ 8192 }
    requires high { rows ≤ 8192 }
    requires full { length texels.old ≡ rows * width }
    ensures { texels.new ≡ with_texel rows width x y texel texels.old }
{
    if x < width && y < rows {
        texels[y * width + x] = texel;
    }
}

// Puts the inside texels of block `k` of the rows in their places.
fn put_block<const W: usize, const H: usize>(
    band: CheckedRows,
    k: usize,
    block: &[[u8; 4]; 144],
    texels: &mut [[u8; 4]],
)
    requires footprint { IsTrue (is_footprint W H) }
    requires band { AreCheckedRows H band }
    requires full { length texels.old ≡ texel_rows H band * band.width }
    requires block { k < block_count W band }
    ensures own { (i : ℕ) → i < length texels.old → block_of W H band i ≡ k
        → slice_index_or texels.new i [] ≡ slice_index_or block.now (place_of W H band i) [] }
    ensures others { (i : ℕ) → (block_of W H band i ≡ k → ⊥) → slice_index_or texels.new i []
        ≡ slice_index_or texels.old i [] }
    ensures length { length texels.new ≡ length texels.old }
{
    let width = band.width as usize;
    let rows = texel_rows(band, H as u32) as usize;
    let columns = covering(band.width, W as u32) as usize;
    let left = k % columns * W;
    let top = k / columns * H;
    for p in 0..W * H {
        let x = left + p % W;
        let y = top + p / W;
        put_texel(rows, width, x, y, block[p], texels);
    }
}

// Shows each block, and returns the number of unreadable blocks.
fn show_each<const W: usize, const H: usize>(
    band: CheckedRows,
    blocks: &[[u8; 16]],
    texels: &mut [[u8; 4]],
) -> u32
    requires footprint { IsTrue (is_footprint W H) }
    requires band { AreCheckedRows H band }
    requires full { length texels.old ≡ texel_rows H band * band.width }
    requires blocks { length blocks.now ≡ block_count W band }
    ensures shown { AreShown W H band blocks.now texels.new result }
    ensures length { length texels.new ≡ length texels.old }
{
    let mut illegal = 0u32;
    for k in 0..blocks.len() {
        let shown = shown_block::<W, H>(&blocks[k], band.flavour);
        put_block::<W, H>(band, k, &shown.texels, texels);
        illegal += shown.illegal;
    }
    illegal
}

// The rows, if both slices have the required lengths.
fn fitted(band: CheckedRows, texels: usize, blocks: usize) -> Result<CheckedRows, Argument>
    requires { AreCheckedRows (sides_of band.name).1 band }
    ensures same { result ≡ fitted band texels blocks }
    ensures fits { IfOk result (λ band. IsFitted band texels blocks) }
{
    let (unit_width, unit_height) = band.name.sides();
    if texels != texel_rows(band, unit_height) as usize * band.width as usize {
        return Err(Argument::Texels);
    }
    if blocks != band.count as usize * covering(band.width, unit_width) as usize {
        return Err(Argument::Blocks);
    }
    Ok(band)
}

// The checked arguments of a call, or the first wrong argument.
#[tactic(auto, unfolding(crate::specs::Showing::checked_show))]
fn checked_show(rows: &Rows, texels: usize, blocks: usize) -> Result<CheckedRows, Argument>
    ensures same { result ≡ checked_show rows.now texels blocks }
    ensures fits { IfOk result (λ band. IsFitted band texels blocks) }
{
    let band = checked_rows(*rows)?;
    fitted(band, texels, blocks)
}

// Shows the blocks of rows.
fn show_band(band: CheckedRows, blocks: &[[u8; 16]], texels: &mut [[u8; 4]]) -> u32
    requires { IsFitted band (length texels.old) (length blocks.now) }
    ensures shown { BandIsShown blocks.now texels.new band result }
    ensures length { length texels.new ≡ length texels.old }
{
    for_footprint!(band.name, show_each(band, blocks, texels))
}

/// Shows the blocks of rows: writes the texels that a decoder shows to `texels`, and returns the
/// number of unreadable blocks, which are magenta. The call takes no memory.
///
/// `texels` has the rows of texels that these rows of blocks cover, up to the picture's last, in
/// its whole width; `blocks` has as many blocks as the rows.
///
/// # Errors
///
/// The first argument that is wrong: then nothing is written.
pub fn show_rows(rows: &Rows, blocks: &[[u8; 16]], texels: &mut [[u8; 4]]) -> Result<u32, Argument>
    ensures shown { AnswersAlways (BandIsShown blocks.now texels.new)
        (checked_show rows.now (length texels.old) (length blocks.now)) result }
    ensures length { length texels.new ≡ length texels.old }
    ensures unchanged { OnErr result (texels.new ≡ texels.old) }
{
    let band = checked_show(rows, texels.len(), blocks.len())?;
    Ok(show_band(band, blocks, texels))
}

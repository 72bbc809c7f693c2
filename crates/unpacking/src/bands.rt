// The texels of a row of blocks.
ghost use Rattle.std.specs.Prelude.{◌≡◌, ◌<◌, ◌≤◌, ◌*◌, ◌/◌, ◌%◌, ◌++◌, ℕ, [], length, slice_index_or, IsTrue, OnOk};
ghost use Rattle.astc_model.specs.Limits.{most_side};
ghost use Rattle.astc_model.specs.Footprints.{is_footprint};
ghost use Rattle.astc_model.specs.FootprintNames.{sides_of};
ghost use Rattle.astc_model.specs.Shown.{shown};
ghost use Rattle.texture.specs.Rows.{IsRowOf};
ghost use Rattle.unpacking.specs.Bands.{illegal, faults_of, row_from, rows_from, AreDecoded};
ghost use Rattle.unpacking.specs.Unpacked.{header_before, row_faults, piece_of};

use astc_model::{Flavour, side_at_level};
use block_reader::read_block;
use ktx_file::Ktx;
use pam_header::pam_header;
use std::alloc::{AllocError, Global};
use texel_error::{MAGENTA, texels};
use texture::BlockRow;

/// The texels of a block, and 1 if it is unreadable.
#[derive(Clone, Copy)]
struct Shown {
    texels: [[u8; 4]; 144],
    illegal: u32,
}

/// The texels that the bytes of a block show: magenta if they are unreadable.
#[tactic(auto, unfolding(astc_model::specs::Shown::shown, crate::specs::Bands::illegal))]
fn shown_of<const W: usize, const H: usize>(bytes: &[u8; 16], flavour: Flavour) -> Shown
    requires { IsTrue (is_footprint W H) }
    ensures texels { (p : ℕ) → p < W * H → slice_index_or result.texels p []
        ≡ shown W H flavour bytes.now (p % W) (p / W) }
    ensures illegal { result.illegal ≡ illegal W H bytes.now }
{
    match read_block::<W, H>(bytes) {
        Ok(block) => Shown {
            texels: texels::<W, H>(&block, flavour),
            illegal: 0,
        },
        Err(_) => Shown {
            texels: [MAGENTA; 144],
            illegal: 1,
        },
    }
}

/// Writes the texels of each block of a row to `decoded`. Appends to `faults` 1 for each unreadable
/// block, and 0 for each other.
fn decode_row<const W: usize, const H: usize>(
    blocks: &[[u8; 16]],
    flavour: Flavour,
    decoded: &mut Vec<[[u8; 4]; 144]>,
    faults: &mut Vec<u32>,
) -> Result<(), AllocError>
    requires { IsTrue (is_footprint W H) }
    ensures decoded { OnOk result
        (AreDecoded W H flavour blocks.now (length blocks.now) decoded.new.items) }
    ensures faults { OnOk result (faults.new.items ≡ faults.old.items ++ faults_of W H blocks.now) }
{
    decoded.clear();
    for k in 0..blocks.len() {
        let shown = shown_of::<W, H>(&blocks[k], flavour);
        decoded.push(shown.texels)?;
        faults.push(shown.illegal)?;
    }
    Ok(())
}

/// Appends the header of an image of these sides in front of its first row of blocks, and nothing
/// in front of the others.
fn push_header(
    row: BlockRow,
    width: u32,
    height: u32,
    bytes: &mut Vec<u8>,
) -> Result<(), AllocError>
    requires width_some { 1 ≤ width }
    requires width_most { width ≤ most_side }
    requires height_some { 1 ≤ height }
    requires height_most { height ≤ most_side }
    ensures { OnOk result (bytes.new.items ≡ bytes.old.items ++ header_before row width height) }
{
    if row.begins_image() {
        let header = pam_header(width, height);
        bytes.extend_from_slice(header.as_slice())?;
    }
    Ok(())
}

/// Appends the texels of row `y` of decoded blocks.
fn push_row<const W: usize, const H: usize>(
    decoded: &[[[u8; 4]; 144]],
    width: u32,
    y: usize,
    raster: &mut Vec<u8>,
) -> Result<(), AllocError>
    requires footprint { IsTrue (is_footprint W H) }
    requires row { y < H }
    requires blocks { width ≤ length decoded.now * W }
    ensures { OnOk result (raster.new.items ≡ raster.old.items ++ row_from W decoded.now y width) }
{
    for x in 0..width as usize {
        raster.extend_from_slice(&decoded[x / W][y * W + x % W])?;
    }
    Ok(())
}

/// Appends the first rows of the texels of decoded blocks.
fn push_rows<const W: usize, const H: usize>(
    decoded: &[[[u8; 4]; 144]],
    width: u32,
    rows: u32,
    raster: &mut Vec<u8>,
) -> Result<(), AllocError>
    requires footprint { IsTrue (is_footprint W H) }
    requires rows { rows ≤ H }
    requires blocks { width ≤ length decoded.now * W }
    ensures { OnOk result (raster.new.items
        ≡ raster.old.items ++ rows_from W decoded.now width rows) }
{
    for y in 0..rows as usize {
        push_row::<W, H>(decoded, width, y, raster)?;
    }
    Ok(())
}

/// A row of blocks: the texels of each of them, and the bytes of the file that are made of them.
#[derive(Drop)]
pub(crate) struct UnpackedRow {
    decoded: Vec<[[u8; 4]; 144]>,
    pub(crate) bytes: Vec<u8>,
}

impl UnpackedRow {
    pub(crate) fn new(alloc: Global) -> UnpackedRow {
        UnpackedRow {
            decoded: Vec::new(alloc),
            bytes: Vec::new(alloc),
        }
    }

    /// Writes the bytes for a row of blocks of a texture: the header before the first row of an
    /// image, then the texels. Appends to `faults` 1 for each unreadable block, and 0 for each
    /// other.
    pub(crate) fn fill<const W: usize, const H: usize>(
        &mut self,
        ktx: &Ktx,
        row: BlockRow,
        faults: &mut Vec<u32>,
    ) -> Result<(), AllocError>
        requires footprint { IsTrue (is_footprint W H) }
        requires sides { sides_of ktx.now.shape.name ≡ (W, H) }
        requires row { IsRowOf ktx.now.shape row }
        ensures bytes { OnOk result (self.new.bytes.items ≡ piece_of ktx.now row) }
        ensures faults { OnOk result (faults.new.items
            ≡ faults.old.items ++ row_faults ktx.now row) }
    {
        let shape = ktx.shape();
        let first = row.first as usize;
        let blocks = &ktx.blocks()[first..first + row.columns as usize];
        decode_row::<W, H>(blocks, shape.flavour, &mut self.decoded, faults)?;
        let width = side_at_level(shape.width, row.level);
        let height = side_at_level(shape.height, row.level);
        self.bytes.clear();
        push_header(row, width, height, &mut self.bytes)?;
        let (_, unit) = shape.name.sides();
        let rows = (height - row.row * unit).min(unit);
        push_rows::<W, H>(&self.decoded, width, rows, &mut self.bytes)
    }
}

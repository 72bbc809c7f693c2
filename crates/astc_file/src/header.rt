// The 16 bytes in front of the blocks.
ghost use Rattle.std.specs.Prelude.{◌≡◌, ◌≤◌, ◌+◌, length, drop, IfOk, OnOk};
ghost use Rattle.astc_model.specs.Limits.{most_side};
ghost use Rattle.ktx_header.specs.Words.{first_difference};
ghost use Rattle.astc_file.specs.Counting.{AreFileSides};
ghost use Rattle.astc_file.specs.Headers.{magic, long_enough, identified, footprint_at, footprint_in, sides_fit, number_at, header_in, header_of};

use crate::AstcFault;
use astc_model::FootprintName;
use byteorder::{ByteOrder, LittleEndian};
use ktx_header::first_difference;

static MAGIC: [u8; 4] = [0x13, 0xAB, 0xA1, 0x5C];

// The header of an image whose footprint, width and height are 0.
static BLANK_HEADER: [u8; 16] = [
    0x13, 0xAB, 0xA1, 0x5C, // magic number
    0, 0, 1, // width, height and depth of the blocks
    0, 0, 0, // width of the image
    0, 0, 0, // its height
    1, 0, 0, // its depth
];

/// The meaning of a header: the footprint, and the sides in texels.
#[derive(Clone, Copy, Debug, PartialEq, Eq)]
pub struct AstcHeader {
    pub name: FootprintName,
    pub width: u32,
    pub height: u32,
}

/// The 16 bytes before the blocks of an image of these sides in texels, 1 to 8192: the magic
/// number, one byte each for the blocks' width, height and depth, and 24 bits each, low byte first,
/// for the image's.
#[tactic(auto, unfolding(crate::specs::Headers::header_of))]
pub fn astc_header(name: FootprintName, width: u32, height: u32) -> [u8; 16]
    requires width_some { 1 ≤ width }
    requires width_most { width ≤ most_side }
    requires height_some { 1 ≤ height }
    requires height_most { height ≤ most_side }
    ensures { result ≡ header_of name width height }
{
    let (block_width, block_height) = name.sides();
    let mut bytes = BLANK_HEADER;
    bytes[4] = block_width as u8;
    bytes[5] = block_height as u8;
    LittleEndian::write_u24(&mut bytes[7..10], width);
    LittleEndian::write_u24(&mut bytes[10..13], height);
    bytes
}

fn long_enough(front: &[u8]) -> Result<(), AstcFault>
    ensures { result ≡ long_enough front.now }
{
    if front.len() < 16 {
        return Err(AstcFault::ShortHeader(front.len() as u64));
    }
    Ok(())
}

fn identified(front: &[u8]) -> Result<(), AstcFault>
    ensures { result ≡ identified (first_difference 0 magic front.now) }
{
    match first_difference(0, &MAGIC, front) {
        None => Ok(()),
        Some(place) => Err(AstcFault::BadMagic(place)),
    }
}

fn footprint_at(width: u8, height: u8) -> Option<FootprintName>
    ensures { result ≡ footprint_at width height }
{
    FootprintName::of(width as usize, height as usize)
}

// The footprint of these sides of a block.
fn footprint_in(width: u8, height: u8, depth: u8) -> Result<FootprintName, AstcFault>
    ensures { result ≡ footprint_in width height depth }
{
    match footprint_at(width, height) {
        Some(name) if depth == 1 => Ok(name),
        _ => Err(AstcFault::BadFootprint(u64::from(width), u64::from(height), u64::from(depth))),
    }
}

fn sides_fit(width: u32, height: u32, depth: u32) -> Result<(), AstcFault>
    ensures same { result ≡ sides_fit width height depth }
    ensures fits { OnOk result (AreFileSides width height) }
{
    if depth != 1 || width < 1 || width > 8192 || height < 1 || height > 8192 {
        return Err(AstcFault::BadSides(u64::from(width), u64::from(height), u64::from(depth)));
    }
    let texels = u64::from(width) * u64::from(height);
    if texels > 33_554_432 {
        return Err(AstcFault::TooManyTexels(texels));
    }
    Ok(())
}

// The number of 24 bits at a place.
#[tactic(auto, unfolding(crate::specs::Headers::number_at))]
fn number_at(bytes: &[u8], at: usize) -> u32
    requires { at + 3 ≤ length bytes.now }
    ensures { result ≡ number_at at bytes.now }
{
    LittleEndian::read_u24(&bytes[at..])
}

/// The header of a file whose first bytes, 16 at most, these are.
///
/// # Errors
///
/// The first fault of these bytes, in the order of [`AstcFault`].
#[tactic(auto, unfolding(crate::specs::Headers::header_in))]
pub fn header_in(front: &[u8]) -> Result<AstcHeader, AstcFault>
    requires { length front.now ≤ 16 }
    ensures exact { result ≡ header_in front.now }
    ensures valid { IfOk result (λ header. AreFileSides header.width header.height) }
{
    long_enough(front)?;
    identified(front)?;
    let name = footprint_in(front[4], front[5], front[6])?;
    let width = number_at(front, 7);
    let height = number_at(front, 10);
    sides_fit(width, height, number_at(front, 13))?;
    Ok(AstcHeader {
        name,
        width,
        height,
    })
}

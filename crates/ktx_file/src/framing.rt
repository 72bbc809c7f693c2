// The framing of a file around its blocks.
ghost use Rattle.std.specs.Prelude.{◌≡◌, ◌<◌, ◌≤◌, ◌+◌, ◌*◌, max};
ghost use Rattle.texture.specs.Shapes.{IsValid, columns_of, rows_of, all_blocks};
ghost use Rattle.ktx_file.specs.Framing.{level_size_of, header_of};
ghost use Rattle.texture.specs.Places.{place_of};

use byteorder::{ByteOrder, LittleEndian};
use texture::{Layout, Shape};

// The header of a shape whose format, sides, elements, faces and levels are 0.
static BLANK_HEADER: [u8; 92] = [
    0xAB, 0x4B, 0x54, 0x58, 0x20, 0x31, 0x31, 0xBB, 0x0D, 0x0A, 0x1A, 0x0A, // identifier
    1, 2, 3, 4, // endianness
    0, 0, 0, 0, // glType
    1, 0, 0, 0, // glTypeSize
    0, 0, 0, 0, // glFormat
    0, 0, 0, 0, // glInternalFormat
    0x08, 0x19, 0, 0, // glBaseInternalFormat
    0, 0, 0, 0, // pixelWidth
    0, 0, 0, 0, // pixelHeight
    0, 0, 0, 0, // pixelDepth
    0, 0, 0, 0, // numberOfArrayElements
    0, 0, 0, 0, // numberOfFaces
    0, 0, 0, 0, // numberOfMipmapLevels
    28, 0, 0, 0, // bytesOfKeyValueData
    23, 0, 0, 0, // KTXorientation, S=r,T=d, each with a zero byte, and a byte of padding
    b'K', b'T', b'X', b'o', b'r', b'i', b'e', b'n', b't', b'a', b't', b'i', b'o', b'n', 0, b'S',
    b'=', b'r', b',', b'T', b'=', b'd', 0, 0,
];

/// The 92 bytes in front of the first level: identifier, 13 words, low byte first, and the one key.
pub fn header(shape: &Shape) -> [u8; 92]
    requires { IsValid shape.now }
    ensures { result ≡ header_of shape.now }
{
    let mut bytes = BLANK_HEADER;
    LittleEndian::write_u32(&mut bytes[28..32], shape.name.gl(shape.flavour));
    LittleEndian::write_u32(&mut bytes[36..40], shape.width);
    LittleEndian::write_u32(&mut bytes[40..44], shape.height);
    LittleEndian::write_u32(&mut bytes[48..52], shape.elements);
    LittleEndian::write_u32(&mut bytes[52..56], shape.faces);
    LittleEndian::write_u32(&mut bytes[56..60], shape.levels);
    bytes
}

/// The columns of blocks of a level.
pub fn columns(shape: &Shape, level: u32) -> u32
    requires shape { IsValid shape.now }
    requires level { level < shape.now.levels }
    ensures exact { result ≡ columns_of shape.now level }
    ensures some { 1 ≤ result }
    ensures most { result ≤ shape.now.width }
{
    Layout::new(*shape).columns(level)
}

/// The rows of blocks of an image of a level.
pub fn rows(shape: &Shape, level: u32) -> u32
    requires shape { IsValid shape.now }
    requires level { level < shape.now.levels }
    ensures exact { result ≡ rows_of shape.now level }
    ensures some { 1 ≤ result }
    ensures most { result ≤ shape.now.height }
{
    Layout::new(*shape).rows(level)
}

/// The imageSize of a level in bytes: of one face without an array, else of the whole level.
#[tactic(auto, unfolding(crate::specs::Framing::level_size_of))]
pub fn level_size(shape: &Shape, level: u32) -> u32
    requires shape { IsValid shape.now }
    requires level { level < shape.now.levels }
    ensures { result ≡ level_size_of shape.now level }
{
    let layout = Layout::new(*shape);
    if shape.elements == 0 {
        16 * layout.image_blocks(level)
    } else {
        16 * layout.level_blocks(level)
    }
}

/// The number of a block in file order: by level, element, face, row and column.
pub fn place(shape: &Shape, level: u32, element: u32, face: u32, row: u32, column: u32) -> usize
    requires shape { IsValid shape.now }
    requires level { level < shape.now.levels }
    requires element { element < max 1 shape.now.elements }
    requires face { face < shape.now.faces }
    requires row { row < rows_of shape.now level }
    requires column { column < columns_of shape.now level }
    ensures exact { result ≡ place_of shape.now level element face row column }
    ensures within { result < all_blocks shape.now }
{
    let layout = Layout::new(*shape);
    let first = layout.first_block(level, element * shape.faces + face);
    (first + row * layout.columns(level) + column) as usize
}

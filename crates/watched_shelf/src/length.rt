// The length that a KTX file will have.
ghost use Rattle.std.specs.Prelude.{◌≡◌, ◌≤◌, ◌<◌, ◌*◌, ◌^◌, length};
ghost use Rattle.ktx_header.specs.Extents.{most_key_bytes};
ghost use Rattle.watched_shelf.specs.Lengths.{level_length, file_length, length_in};

use ktx_file::{header_in, level_size};
use texture::Layout;

// The bytes of a level: its size, and the blocks of all its images. The size is that of one face
// without an array.
fn level_length(layout: &Layout, level: u32) -> u64
    requires level { level < layout.now.levels }
    ensures exact { result ≡ level_length layout.now level }
    ensures most { result < 2 ^ 40 }
{
    let shape = layout.shape();
    let size = u64::from(level_size(&shape, level));
    if shape.elements == 0 {
        4 + u64::from(shape.faces) * size
    } else {
        4 + size
    }
}

/// The bytes of the file of a shape with this number of bytes of keys.
#[tactic(auto, unfolding(crate::specs::Lengths::file_length))]
pub fn file_length(layout: &Layout, key_bytes: u32) -> u64
    requires keys { key_bytes ≤ most_key_bytes }
    ensures { result ≡ file_length layout.now key_bytes }
{
    let mut bytes = 64 + u64::from(key_bytes);
    for level in 0..layout.levels() {
        bytes += level_length(layout, level);
    }
    bytes
}

/// The bytes of the file with these first bytes, or `None` if they are fewer than 64 or not a
/// header.
pub fn length_in(front: &[u8]) -> Option<u64>
    requires { length front.now ≤ 64 }
    ensures { result ≡ length_in front.now }
{
    match header_in(front) {
        Ok(header) => Some(file_length(&header.layout, header.key_bytes)),
        Err(_) => None,
    }
}

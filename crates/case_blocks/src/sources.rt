// Sources.
ghost use Rattle.std.specs.Prelude.{IsTrue};
ghost use Rattle.astc_model.specs.Footprints.{is_footprint};

use astc_model::{Footprint, Source};
use case_files::byte_at;

// The texel of eight hexadecimal digits at a place.
fn texel_at(digits: &[u8], at: usize) -> [u8; 4] {
    let mut texel = [0u8; 4];
    for c in 0..4usize {
        texel[c] = byte_at(digits, at.saturating_add(2 * c));
    }
    texel
}

/// The source of texels of eight hexadecimal digits each; `-` stands for each digit of a place
/// outside the image.
pub fn source_of<const W: usize, const H: usize>(texels: &[u8]) -> Source<W, H>
    requires { IsTrue (is_footprint W H) }
{
    let mut source = Source::new(Footprint::<W, H>::new());
    for p in 0..W * H {
        let (x, y) = (p % W, p / W);
        if y < H && texels.get(8 * p).copied().unwrap_or(b'-') != b'-' {
            source.set(x as u8, y as u8, texel_at(texels, 8 * p));
        }
    }
    source
}

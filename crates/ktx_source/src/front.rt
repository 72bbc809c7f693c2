// The meaning of the first 64 bytes of a file.
ghost use Rattle.std.specs.Prelude.{◌≡◌, ◌≤◌, length, IfOk};
ghost use Rattle.texture.specs.Extents.{IsExtent};
ghost use Rattle.ktx_header.specs.Extents.{most_key_bytes};
ghost use Rattle.ktx_source.specs.Headers.{format_named, format_in, header_in};

use crate::SourceFault;
use crate::format::Format;
use ktx_header::{HeaderWords, WordOrder, extent_of, words_of};
use texture::Extent;

/// The meaning of a header.
#[derive(Clone, Copy, Debug, PartialEq, Eq)]
pub struct SourceHeader {
    pub order: WordOrder,
    pub format: Format,
    pub extent: Extent,
    pub key_bytes: u32,
}

// The format of these three words.
fn format_named(kind: u32, format: u32, internal: u32) -> Option<Format>
    ensures { result ≡ format_named kind format internal }
{
    match (kind, format, internal) {
        (0x1401, 0x1908, 0x8058 | 0x1908 | 0x8C43) => Some(Format::Rgba8),
        (0x1401, 0x1907, 0x8051 | 0x1907 | 0x8C41) => Some(Format::Rgb8),
        _ => None,
    }
}

fn format_in(words: &HeaderWords) -> Result<Format, SourceFault>
    ensures { result ≡ format_in words.now }
{
    match format_named(words.kind, words.format, words.internal) {
        Some(format) => Ok(format),
        None => Err(SourceFault::WrongFormat {
            kind: u64::from(words.kind),
            format: u64::from(words.format),
            internal: u64::from(words.internal),
        }),
    }
}

/// The header of a file whose first bytes, 64 at most, these are.
///
/// # Errors
///
/// The first fault of these bytes, in the order of [`SourceFault`].
#[tactic(auto, unfolding(crate::specs::Headers::header_in))]
pub fn header_in(front: &[u8]) -> Result<SourceHeader, SourceFault>
    requires { length front.now ≤ 64 }
    ensures exact { result ≡ header_in front.now }
    ensures valid { IfOk result (λ header. IsExtent header.extent) }
    ensures keys { IfOk result (λ header. header.key_bytes ≤ most_key_bytes) }
{
    let words = words_of(front)?;
    let format = format_in(&words)?;
    let extent = extent_of(&words)?;
    Ok(SourceHeader {
        order: words.order,
        format,
        extent,
        key_bytes: words.key_bytes,
    })
}

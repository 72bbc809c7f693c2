// The meaning of the first 64 bytes of a file.
ghost use Rattle.std.specs.Prelude.{◌≡◌, ◌≤◌, length, IfOk};
ghost use Rattle.ktx_header.specs.Extents.{most_key_bytes};
ghost use Rattle.ktx_file.specs.Headers.{format_in, header_in};

use crate::KtxFault;
use astc_model::{Flavour, FootprintName};
use ktx_header::{HeaderWords, WordOrder, extent_of, words_of};
use texture::{Layout, Shape};

/// The meaning of a header.
#[derive(Clone, Copy, Debug, PartialEq, Eq)]
pub struct KtxHeader {
    pub order: WordOrder,
    pub layout: Layout,
    pub key_bytes: u32,
}

fn format_in(words: &HeaderWords) -> Result<(FootprintName, Flavour), KtxFault>
    ensures { result ≡ format_in words.now }
{
    if words.kind != 0 || words.format != 0 {
        return Err(KtxFault::NotCompressed(u64::from(words.kind), u64::from(words.format)));
    }
    match FootprintName::from_gl(words.internal) {
        Some(format) => Ok(format),
        None => Err(KtxFault::UnknownFormat(u64::from(words.internal))),
    }
}

/// The header of a file whose first bytes, 64 at most, these are.
///
/// # Errors
///
/// The first fault of these bytes, in the order of [`KtxFault`].
#[tactic(auto, unfolding(crate::specs::Headers::header_in))]
pub fn header_in(front: &[u8]) -> Result<KtxHeader, KtxFault>
    requires { length front.now ≤ 64 }
    ensures exact { result ≡ header_in front.now }
    ensures keys { IfOk result (λ header. header.key_bytes ≤ most_key_bytes) }
{
    let words = words_of(front)?;
    let (name, flavour) = format_in(&words)?;
    let extent = extent_of(&words)?;
    Ok(KtxHeader {
        order: words.order,
        layout: Layout::new(Shape {
            name,
            flavour,
            width: extent.width,
            height: extent.height,
            elements: extent.elements,
            faces: extent.faces,
            levels: extent.levels,
        }),
        key_bytes: words.key_bytes,
    })
}

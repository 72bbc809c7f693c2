// Sides, elements, faces and levels.
ghost use Rattle.std.specs.Prelude.{◌≡◌, ◌≤◌, ◌<◌, ◌*◌, IfOk, OnOk};
ghost use Rattle.texture.specs.Extents.{IsExtent};
ghost use Rattle.ktx_header.specs.Extents.{HasSides, HasImages, HasSizes, sides_fit, images_fit, faces_fit, sizes_fit, texels_of, extent_of, most_key_bytes};

use crate::{HeaderFault, HeaderWords};
use astc_model::full_levels;
use texture::Extent;

fn sides_fit(words: &HeaderWords) -> Result<(), HeaderFault>
    ensures same { result ≡ sides_fit words.now }
    ensures fits { OnOk result (HasSides words.now) }
{
    if words.width < 1 || words.width > 8192 || words.height < 1 || words.height > 8192 {
        return Err(HeaderFault::BadSides(u64::from(words.width), u64::from(words.height)));
    }
    if words.depth > 1 {
        return Err(HeaderFault::HasDepth(u64::from(words.depth)));
    }
    Ok(())
}

fn images_fit(words: &HeaderWords) -> Result<(), HeaderFault>
    ensures same { result ≡ images_fit words.now }
    ensures fits { OnOk result (HasImages words.now) }
{
    if words.elements > 2048 {
        return Err(HeaderFault::TooManyElements(u64::from(words.elements)));
    }
    if words.faces != 1 && words.faces != 6 {
        return Err(HeaderFault::BadFaces(u64::from(words.faces)));
    }
    if words.faces == 6 && words.width != words.height {
        return Err(HeaderFault::FacesNotSquare(u64::from(words.width), u64::from(words.height)));
    }
    Ok(())
}

fn texels_of(words: &HeaderWords) -> u64
    requires sides { HasSides words.now }
    requires images { HasImages words.now }
    ensures { result ≡ texels_of words.now }
{
    u64::from(words.width)
        * u64::from(words.height)
        * (u64::from(words.elements).max(1) * u64::from(words.faces))
}

fn sizes_fit(words: &HeaderWords) -> Result<(), HeaderFault>
    requires sides { HasSides words.now }
    requires images { HasImages words.now }
    ensures same { result ≡ sizes_fit words.now }
    ensures fits { OnOk result (HasSizes words.now) }
{
    if words.levels > full_levels(words.width, words.height) {
        return Err(HeaderFault::TooManyLevels(u64::from(words.levels)));
    }
    if words.key_bytes > 1_048_576 {
        return Err(HeaderFault::KeysTooLong(u64::from(words.key_bytes)));
    }
    let texels = texels_of(words);
    if texels > 33_554_432 {
        return Err(HeaderFault::TooLarge(texels));
    }
    Ok(())
}

/// The extent that the words give. Levels 0 means one stored level.
///
/// # Errors
///
/// The first fault from `BadSides` on.
#[tactic(auto, unfolding(crate::specs::Extents::extent_of))]
pub fn extent_of(words: &HeaderWords) -> Result<Extent, HeaderFault>
    ensures same { result ≡ extent_of words.now }
    ensures valid { IfOk result IsExtent }
    ensures keys { OnOk result (words.now.key_bytes ≤ most_key_bytes) }
{
    sides_fit(words)?;
    images_fit(words)?;
    sizes_fit(words)?;
    Ok(Extent {
        width: words.width,
        height: words.height,
        elements: words.elements,
        faces: words.faces,
        levels: words.levels.max(1),
    })
}

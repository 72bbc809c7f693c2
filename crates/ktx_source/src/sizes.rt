// The bytes of rows, faces and levels.
ghost use Rattle.std.specs.Prelude.{◌≡◌, ◌≤◌, ◌<◌, ◌*◌};
ghost use Rattle.astc_model.specs.Limits.{most_texels};
ghost use Rattle.texture.specs.Extents.{IsExtent, images_of};
ghost use Rattle.ktx_source.specs.Rasters.{texel_size, row_size, face_size, level_bytes, image_size};

use crate::format::Format;
use astc_model::side_at_level;
use texture::Extent;

/// The bytes of a texel.
pub fn texel_size(format: Format) -> u32
    ensures exact { result ≡ texel_size format }
    ensures most { result ≤ 4 }
{
    match format {
        Format::Rgb8 => 3,
        Format::Rgba8 => 4,
    }
}

/// The bytes of a row of this number of texels, with its padding to a multiple of four bytes.
pub fn row_size(format: Format, width: u32) -> u32
    requires { width ≤ 8192 }
    ensures exact { result ≡ row_size format width }
    ensures all { texel_size format * width ≤ result }
    ensures most { result ≤ 4 * width }
{
    (texel_size(format) * width + 3) / 4 * 4
}

/// The images of each level: a face each of every element.
pub fn image_count(extent: &Extent) -> u32
    requires { IsExtent extent.now }
    ensures exact { result ≡ images_of extent.now }
    ensures some { 1 ≤ result }
{
    extent.elements.max(1) * extent.faces
}

// The bytes of a face of a level.
#[tactic(auto, unfolding(crate::specs::Rasters::face_size))]
fn face_size(format: Format, extent: &Extent, level: u32) -> u32
    requires extent { IsExtent extent.now }
    requires level { level < extent.now.levels }
    ensures exact { result ≡ face_size format extent.now level }
    ensures all { images_of extent.now * result ≤ 4 * most_texels }
    ensures most { result ≤ 4 * most_texels }
{
    row_size(format, side_at_level(extent.width, level)) * side_at_level(extent.height, level)
}

/// The bytes of a level, without its size.
#[tactic(auto, unfolding(crate::specs::Rasters::level_bytes))]
pub fn level_bytes(format: Format, extent: &Extent, level: u32) -> u32
    requires extent { IsExtent extent.now }
    requires level { level < extent.now.levels }
    ensures exact { result ≡ level_bytes format extent.now level }
    ensures most { result ≤ 4 * most_texels }
{
    image_count(extent) * face_size(format, extent, level)
}

/// The imageSize of a level: of one face without an array, else of the whole level.
#[tactic(auto, unfolding(crate::specs::Rasters::image_size))]
pub fn image_size(format: Format, extent: &Extent, level: u32) -> u32
    requires extent { IsExtent extent.now }
    requires level { level < extent.now.levels }
    ensures { result ≡ image_size format extent.now level }
{
    if extent.elements == 0 {
        face_size(format, extent, level)
    } else {
        level_bytes(format, extent, level)
    }
}

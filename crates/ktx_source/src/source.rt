// Pictures with stored mip levels.
ghost use Rattle.std.specs.Prelude.{◌≡◌, ◌≤◌};
ghost use Rattle.texture.specs.Extents.{IsExtent};
ghost use Rattle.ktx_source.specs.Sources.{AreLevels, extent_in};

use images::Images;
use std::marker::Model;
use texture::Extent;

/// Pictures with stored mip levels. A contract sees the width and height of level 0, the array
/// elements, the faces, and the list of levels: the images of each by element, then by face. These
/// make a valid extent, and each level has its sides and a face each of every element.
#[derive(Drop)]
pub struct SourceKtx {
    extent: Extent,
    levels: Vec<Images>,
}

impl Model for SourceKtx {
    ghost use Rattle.texture.specs.Extents.{IsExtent};
    ghost use Rattle.ktx_source.specs.Sources.{SourceFile, AreLevels, source_with};

    ghost Value = { SourceFile };

    ghost view = { λ s. source_with s.extent s.levels.items };

    ghost invariant = { λ s. IsExtent s.extent × AreLevels s.extent s.levels.items };
}

impl SourceKtx {
    ghost use Rattle.ktx_source.specs.Sources.{source_with};

    /// The pictures of this extent and these levels.
    pub fn new(extent: Extent, levels: Vec<Images>) -> Self
        requires extent { IsExtent extent }
        requires levels { AreLevels extent levels.items }
        ensures { result ≡ source_with extent levels.items }
    {
        SourceKtx { extent, levels }
    }

    /// The sides, elements, faces and number of levels, which are valid.
    pub fn extent(&self) -> Extent
        ensures same { result ≡ extent_in self.now }
        ensures valid { IsExtent result }
    {
        self.extent
    }

    /// The width of level 0 in texels, 1 to 8192.
    pub fn width(&self) -> u32
        ensures same { result ≡ self.now.width }
        ensures some { 1 ≤ result }
        ensures most { result ≤ 8192 }
    {
        self.extent.width
    }

    /// The height of level 0 in texels, 1 to 8192.
    pub fn height(&self) -> u32
        ensures same { result ≡ self.now.height }
        ensures some { 1 ≤ result }
        ensures most { result ≤ 8192 }
    {
        self.extent.height
    }

    /// The number of array elements, at most 2048; 0 without an array.
    pub fn elements(&self) -> u32
        ensures same { result ≡ self.now.elements }
        ensures most { result ≤ 2048 }
    {
        self.extent.elements
    }

    /// 6 for a cube map, else 1.
    pub fn faces(&self) -> u32
        ensures same { result ≡ self.now.faces }
        ensures some { 1 ≤ result }
        ensures most { result ≤ 6 }
    {
        self.extent.faces
    }

    /// The levels: the images of each by element, then by face.
    pub fn levels(&self) -> &[Images]
        ensures same { result.now ≡ self.now.levels }
        ensures valid { IsExtent (extent_in self.now) }
        ensures full { AreLevels (extent_in self.now) result.now }
    {
        self.levels.as_slice()
    }

    /// The levels, for good.
    pub fn into_levels(self) -> Vec<Images>
        ensures same { result.items ≡ self.levels }
        ensures valid { IsExtent (extent_in self) }
        ensures full { AreLevels (extent_in self) result.items }
    {
        self.levels
    }
}

// An image in blocks.
ghost use Rattle.std.specs.Prelude.{◌≡◌};
ghost use Rattle.astc_file.specs.Counting.{AreFileSides, block_count};
ghost use Rattle.tex_shelf.specs.Pieces.{ArePieces};
ghost use Rattle.astc_file.specs.Files.{IsImage};

use astc_model::FootprintName;
use std::marker::Model;

/// An image in ASTC blocks: its footprint, its sides in texels, 1 to 8192, at most 33,554,432
/// texels, and a block of 16 bytes for each place, in rows from the top, columns from the left. The
/// blocks are not checked.
#[derive(Drop)]
pub struct AstcImage {
    name: FootprintName,
    width: u32,
    height: u32,
    blocks: Vec<[u8; 16]>,
}

impl Model for AstcImage {
    ghost use Rattle.astc_file.specs.Files.{Image, IsImage};

    ghost Value = { Image };

    ghost view = { λ i. record {
      name = i.name;
      width = i.width;
      height = i.height;
      blocks = i.blocks.items;
    } };

    ghost invariant = { λ i.
        IsImage (record {
          name = i.name;
          width = i.width;
          height = i.height;
          blocks = i.blocks.items;
        }) };
}

impl AstcImage {
    /// The image of this footprint, these sides and these blocks.
    pub fn new(name: FootprintName, width: u32, height: u32, blocks: Vec<[u8; 16]>) -> Self
        requires sides { AreFileSides width height }
        requires full { ArePieces 16 (block_count name width height) blocks.items }
        ensures { result ≡ record {
          name = name;
          width = width;
          height = height;
          blocks = blocks.items;
        } }
    {
        AstcImage {
            name,
            width,
            height,
            blocks,
        }
    }

    /// The footprint.
    pub fn name(&self) -> FootprintName
        ensures same { result ≡ self.now.name }
        ensures valid { IsImage self.now }
    {
        self.name
    }

    /// The width in texels.
    pub fn width(&self) -> u32
        ensures same { result ≡ self.now.width }
        ensures valid { IsImage self.now }
    {
        self.width
    }

    /// The height in texels.
    pub fn height(&self) -> u32
        ensures same { result ≡ self.now.height }
        ensures valid { IsImage self.now }
    {
        self.height
    }

    /// The blocks, one for each place.
    pub fn blocks(&self) -> &[[u8; 16]]
        ensures same { result.now ≡ self.now.blocks }
        ensures valid { IsImage self.now }
    {
        self.blocks.as_slice()
    }

    /// The blocks, for good.
    pub fn into_blocks(self) -> Vec<[u8; 16]>
        ensures same { result.items ≡ self.blocks }
        ensures valid { IsImage self }
    {
        self.blocks
    }
}

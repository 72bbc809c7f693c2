// A texture in blocks.
ghost use Rattle.std.specs.Prelude.{◌≡◌};
ghost use Rattle.texture.specs.Shapes.{IsValid};
ghost use Rattle.ktx_file.specs.Files.{AreBlocks, IsFile};

use std::marker::Model;
use texture::{Layout, Shape};

/// A texture in ASTC blocks: a valid shape, and a block of 16 bytes for each place, in the order of
/// the file.
#[derive(Drop)]
pub struct Ktx {
    layout: Layout,
    blocks: Vec<[u8; 16]>,
}

impl Model for Ktx {
    ghost use Rattle.ktx_file.specs.Files.{File, IsFile};

    ghost Value = { File };

    ghost view = { λ k. record { shape = k.layout; blocks = k.blocks.items } };

    ghost invariant = { λ k. IsFile (record { shape = k.layout; blocks = k.blocks.items }) };
}

impl Ktx {
    /// The texture of this layout and these blocks.
    pub fn new(layout: Layout, blocks: Vec<[u8; 16]>) -> Self
        requires { AreBlocks layout blocks.items }
        ensures { result ≡ record { shape = layout; blocks = blocks.items } }
    {
        // says that the shape is valid
        layout.shape();
        Ktx { layout, blocks }
    }

    /// The shape, which is valid.
    pub fn shape(&self) -> Shape
        ensures same { result ≡ self.now.shape }
        ensures valid { IsValid result }
    {
        self.layout.shape()
    }

    /// The places of the blocks.
    pub fn layout(&self) -> Layout
        ensures { result ≡ self.now.shape }
    {
        self.layout
    }

    /// The blocks, one for each place.
    pub fn blocks(&self) -> &[[u8; 16]]
        ensures same { result.now ≡ self.now.blocks }
        ensures full { AreBlocks self.now.shape result.now }
    {
        self.blocks.as_slice()
    }

    /// The blocks, for good.
    pub fn into_blocks(self) -> Vec<[u8; 16]>
        ensures same { result.items ≡ self.blocks }
        ensures full { AreBlocks self.shape result.items }
    {
        self.blocks
    }
}

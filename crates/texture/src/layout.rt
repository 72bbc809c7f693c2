// The number of blocks of a texture, and their places.
ghost use Rattle.std.specs.Prelude.{◌≡◌, ◌<◌, ◌≤◌, ◌+◌, ◌*◌};
ghost use Rattle.astc_model.specs.Limits.{most_side, most_texels};
ghost use Rattle.astc_model.specs.Sums.{sum_to};
ghost use Rattle.texture.specs.Shapes.{IsValid, columns_of, rows_of, image_count, image_blocks, level_blocks, all_blocks, most_blocks};
ghost use Rattle.texture.specs.Places.{image_place, first_block, HasPlace, IsPlaceOf};
ghost use Rattle.texture.specs.Rows.{block_rows};

use crate::rows::BlockRows;
use crate::{BlockPlace, ImagePlace, Shape, covering};
use astc_model::side_at_level;
use std::marker::Model;

/// The blocks of a texture: their number, the place of each, and their order. A layout is made of a
/// shape that a contract knows to be valid.
#[derive(Clone, Copy, Debug, PartialEq, Eq)]
pub struct Layout {
    shape: Shape,
}

impl Model for Layout {
    ghost use Rattle.texture.specs.Shapes.{Shape, IsValid};

    ghost Value = { Shape };

    ghost view = { λ layout. layout.shape };

    ghost invariant = { λ layout. IsValid layout.shape };

    ghost inverse = { λ shape. record { shape = shape } };
}

impl Layout {
    /// The layout of a valid shape.
    pub fn new(shape: Shape) -> Layout
        requires { IsValid shape }
        ensures { result ≡ shape }
    {
        Layout { shape }
    }

    /// The shape, which is valid.
    pub fn shape(&self) -> Shape
        ensures same { result ≡ self.now }
        ensures valid { IsValid result }
    {
        self.shape
    }

    /// The number of levels.
    pub fn levels(&self) -> u32
        ensures exact { result ≡ self.now.levels }
        ensures some { 1 ≤ result }
        ensures few { result ≤ 14 }
    {
        self.shape.levels
    }

    /// The columns of blocks of a level.
    pub fn columns(&self, level: u32) -> u32
        requires { level < self.now.levels }
        ensures exact { result ≡ columns_of self.now level }
        ensures some { 1 ≤ result }
        ensures most { result ≤ self.now.width }
        ensures short { result ≤ most_side }
    {
        covering(
            side_at_level(self.shape.width, level),
            self.shape.name.sides().0,
        )
    }

    /// The rows of blocks of an image of a level.
    pub fn rows(&self, level: u32) -> u32
        requires { level < self.now.levels }
        ensures exact { result ≡ rows_of self.now level }
        ensures some { 1 ≤ result }
        ensures most { result ≤ self.now.height }
        ensures short { result ≤ most_side }
    {
        covering(
            side_at_level(self.shape.height, level),
            self.shape.name.sides().1,
        )
    }

    /// The images of each level: a face each of every element.
    pub fn image_count(&self) -> u32
        ensures exact { result ≡ image_count self.now }
        ensures some { 1 ≤ result }
        ensures most { result ≤ 12288 }
    {
        self.shape.elements.max(1) * self.shape.faces
    }

    /// The blocks of an image of a level.
    pub fn image_blocks(&self, level: u32) -> u32
        requires { level < self.now.levels }
        ensures exact { result ≡ image_blocks self.now level }
        ensures some { 1 ≤ result }
        ensures all { image_count self.now * result ≤ most_texels }
        ensures most { result ≤ most_texels }
    {
        // opens the invariant: the images of level 0 have at most the limit of texels
        let _ = &self.shape;
        self.rows(level) * self.columns(level)
    }

    /// The blocks of a level.
    #[tactic(auto, unfolding(crate::specs::Shapes::level_blocks))]
    pub fn level_blocks(&self, level: u32) -> u32
        requires { level < self.now.levels }
        ensures exact { result ≡ level_blocks self.now level }
        ensures most { result ≤ most_texels }
    {
        self.image_count() * self.image_blocks(level)
    }

    // The blocks of all levels before this one.
    fn blocks_before(&self, level: u32) -> u32
        requires { level ≤ self.now.levels }
        ensures exact { result ≡ sum_to (level_blocks self.now) level }
        ensures most { result ≤ level * most_texels }
    {
        // opens the invariant: the number of levels is small
        let _ = &self.shape;
        let mut count = 0;
        for before in 0..level {
            count += self.level_blocks(before);
        }
        count
    }

    /// The blocks of all levels.
    pub fn all_blocks(&self) -> u32
        ensures exact { result ≡ all_blocks self.now }
        ensures most { result ≤ most_blocks }
    {
        self.blocks_before(self.shape.levels)
    }

    /// The number of the first block of an image of a level: blocks are counted from 0, level by
    /// level, element by element, face by face and row by row. Images are counted by element and
    /// then by face.
    pub fn first_block(&self, level: u32, image: u32) -> u32
        requires level { level < self.now.levels }
        requires image { image < image_count self.now }
        ensures exact { result ≡ first_block self.now level image }
        ensures within { result + image_blocks self.now level ≤ all_blocks self.now }
        ensures most { result + image_blocks self.now level ≤ most_blocks }
    {
        // opens the invariant: the images of level 0 have at most the limit of texels
        let _ = &self.shape;
        self.blocks_before(level) + image * self.image_blocks(level)
    }

    /// The place of an image of a level: images are in order of element, then of face.
    pub fn image_place(&self, level: u32, image: u32) -> ImagePlace
        requires level { level < self.now.levels }
        requires image { image < image_count self.now }
        ensures exact { result ≡ image_place self.now.faces level image }
        ensures inside { HasPlace self.now result }
    {
        ImagePlace {
            level,
            element: image / self.shape.faces,
            face: image % self.shape.faces,
        }
    }

    // The level of the block of this number, and its number among those of the level.
    fn level_of(&self, number: u32) -> (u32, u32)
        requires { number < all_blocks self.now }
        ensures level { result.0 < self.now.levels }
        ensures within { result.1 < level_blocks self.now result.0 }
        ensures number { sum_to (level_blocks self.now) result.0 + result.1 ≡ number }
    {
        let mut within = number;
        for level in 0..self.shape.levels {
            let blocks = self.level_blocks(level);
            if within < blocks {
                return (level, within);
            }
            within -= blocks;
        }
        unreachable!()
    }

    /// The place of the block with this number.
    pub fn block_place(&self, number: u32) -> BlockPlace
        requires { number < all_blocks self.now }
        ensures { IsPlaceOf self.now number result }
    {
        let (level, within) = self.level_of(number);
        let columns = self.columns(level);
        let rows = self.rows(level);
        let row = within / columns;
        BlockPlace {
            image: self.image_place(level, row / rows),
            row: row % rows,
            column: within % columns,
        }
    }

    /// The rows of blocks, in order.
    pub fn block_rows(&self) -> BlockRows
        ensures { result ≡ block_rows self.now }
    {
        // opens the invariant, which says that the shape is valid
        let _ = &self.shape;
        BlockRows::of(self)
    }
}

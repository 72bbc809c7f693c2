// The rows of blocks of a texture, one after another.
ghost use Rattle.std.specs.Prelude.{◌≡◌, ◌<◌, ◌∷◌, ◌==◌};
ghost use Rattle.std.specs.Iterator.{YieldsFirst, item_count};
ghost use Rattle.texture.specs.Shapes.{IsValid, columns_of};
ghost use Rattle.texture.specs.Rows.{row_at, block_rows};
ghost use Rattle.texture.specs.Positions.{IsPosition, left_from};

use crate::Layout;
use std::marker::Model;

/// A row of blocks of an image of a texture.
#[derive(Clone, Copy, Debug, PartialEq, Eq)]
pub struct BlockRow {
    pub level: u32,
    /// Which image of the level: they are counted from 0, by element and then by face.
    pub image: u32,
    /// Which row of the image, from the top.
    pub row: u32,
    /// The number of its first block: blocks are counted from 0, in the order of the rows.
    pub first: u32,
    /// The number of blocks.
    pub columns: u32,
}

impl BlockRow {
    /// Whether it is the first of its image.
    pub fn begins_image(&self) -> bool
        ensures { result ≡ (self.now.row == 0) }
    {
        self.row == 0
    }
}

// The position of a row among the rows of a texture; the position after the last row is in a level
// that the texture lacks.
#[derive(Clone, Copy)]
struct Position {
    level: u32,
    image: u32,
    row: u32,
    first: u32,
}

// The position after the position of a row with this number of blocks.
fn behind(layout: &Layout, at: Position, columns: u32) -> Position
    requires at { IsPosition layout.now at }
    requires level { at.level < layout.now.levels }
    requires columns { columns ≡ columns_of layout.now at.level }
    ensures at { IsPosition layout.now result }
    ensures left { left_from layout.now at ≡ row_at layout.now at.level at.image at.row
        ∷ left_from layout.now result }
{
    let first = at.first + columns;
    if at.row + 1 < layout.rows(at.level) {
        let row = at.row + 1;
        return Position { row, first, ..at };
    }
    let (level, image, row) = if at.image + 1 < layout.image_count() {
        (at.level, at.image + 1, 0)
    } else {
        (at.level + 1, 0, 0)
    };
    Position {
        level,
        image,
        row,
        first,
    }
}

/// The rows of blocks that are left of a texture. A contract sees their list.
#[derive(Drop)]
pub struct BlockRows {
    layout: Layout,
    at: Position,
}

impl Model for BlockRows {
    ghost use Rattle.std.specs.Prelude.{List};
    ghost use Rattle.texture.specs.declared.rows.BlockRow.{BlockRow};
    ghost use Rattle.texture.specs.Positions.{IsPosition, left_from};

    ghost Value = { List BlockRow };

    ghost view = { λ left. left_from left.layout left.at };

    ghost invariant = { λ left. IsPosition left.layout left.at };
}

impl BlockRows {
    // All rows of a texture.
    pub(crate) fn of(layout: &Layout) -> BlockRows
        requires { IsValid layout.now }
        ensures { result ≡ block_rows layout.now }
    {
        let at = Position {
            level: 0,
            image: 0,
            row: 0,
            first: 0,
        };
        BlockRows {
            layout: *layout,
            at,
        }
    }
}

impl Iterator for BlockRows {
    type Item = BlockRow;

    ghost next_gives = { YieldsFirst (λ left. left) };

    ghost remaining = { item_count (λ left. left) };

    fn next(&mut self) -> Option<BlockRow> {
        let at = self.at;
        if at.level == self.layout.shape().levels {
            return None;
        }
        let columns = self.layout.columns(at.level);
        self.at = behind(&self.layout, at, columns);
        Some(BlockRow {
            level: at.level,
            image: at.image,
            row: at.row,
            first: at.first,
            columns,
        })
    }
}

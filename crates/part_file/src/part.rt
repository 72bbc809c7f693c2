// A part of a texture in blocks.
ghost use Rattle.std.specs.Prelude.{◌≡◌};
ghost use Rattle.tex_shelf.specs.Pieces.{ArePieces};
ghost use Rattle.part_file.specs.Fronts.{IsFront};
ghost use Rattle.part_file.specs.Files.{IsPart, count_of};

use crate::Front;
use std::marker::Model;

/// One of the parts that the blocks of a texture are cut into: the prefix before its blocks, and a
/// piece of 20 bytes for each of them, in the order of the file: the block and its error. The shape
/// is valid and the place is one among the parts; the mark, the blocks and the errors are not
/// checked.
#[derive(Drop)]
pub struct Part {
    front: Front,
    pieces: Vec<[u8; 20]>,
}

impl Model for Part {
    ghost use Rattle.part_file.specs.Files.{PartFile, IsPart};

    ghost Value = { PartFile };

    ghost view = { λ p. record { front = p.front; pieces = p.pieces.items } };

    ghost invariant = { λ p. IsPart (record { front = p.front; pieces = p.pieces.items }) };
}

impl Part {
    /// The part with this prefix and these pieces.
    pub fn new(front: Front, pieces: Vec<[u8; 20]>) -> Self
        requires front { IsFront front }
        requires full { ArePieces 20 (count_of front) pieces.items }
        ensures { result ≡ record { front = front; pieces = pieces.items } }
    {
        Part { front, pieces }
    }

    /// The prefix before the blocks.
    pub fn front(&self) -> Front
        ensures same { result ≡ self.now.front }
        ensures valid { IsPart self.now }
    {
        self.front
    }

    /// The blocks of the part with their errors.
    pub fn pieces(&self) -> &[[u8; 20]]
        ensures same { result.now ≡ self.now.pieces }
        ensures valid { IsPart self.now }
    {
        self.pieces.as_slice()
    }
}

// The integers of a block by their kind.
ghost use Rattle.std.specs.Prelude.{◌≡◌, ◌<◌, ◌≤◌};
ghost use Rattle.error_state.specs.Scans.{integers_of, range_of, with_value};

use crate::state::ErrorState;

/// The kinds of integers of a coded block.
#[derive(Clone, Copy, Debug, PartialEq, Eq)]
pub enum CodedKind {
    Colour,
    Weight,
}

impl<'a, const W: usize, const H: usize> ErrorState<'a, W, H> {
    /// How many integers of a kind the block has: at most 18 of colours and 64 of weights.
    pub fn count(&self, kind: CodedKind) -> u8
        ensures exact { result ≡ integers_of self.now kind }
        ensures small { result ≤ 64 }
    {
        match kind {
            CodedKind::Colour => self.block().colours.len() as u8,
            CodedKind::Weight => self.block().weights.len() as u8,
        }
    }

    /// Gives integer `i` of a kind another value.
    pub fn set_value(&mut self, kind: CodedKind, i: u8, value: u8)
        requires integer { i < integers_of self.old kind }
        requires range { value < range_of self.old kind }
        ensures { self.new ≡ with_value self.old kind i value }
    {
        match kind {
            CodedKind::Colour => self.set_colour(i, value),
            CodedKind::Weight => self.set_weight(i, value),
        }
    }
}

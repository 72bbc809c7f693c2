// The known facts of an output that grows.
ghost use Rattle.std.specs.Prelude.{◌≡◌, ◌+◌, ◌-◌, ◌^◌, [], min, length};
ghost use Rattle.watched_shelf.specs.Lengths.{front_with, length_in};

use crate::length::length_in;
use arrayvec::ArrayVec;

/// The length of an output so far, and its first bytes.
#[derive(Drop)]
pub struct Growth {
    /// The number of bytes that are written.
    pub stands: u64,
    /// The first of them, 64 at most.
    front: ArrayVec<u8, 64>,
}

impl Growth {
    /// An empty output.
    pub fn new() -> Self
        ensures stands { result.stands ≡ 0 }
        ensures front { result.front.items ≡ [] }
    {
        Growth {
            stands: 0,
            front: ArrayVec::new(),
        }
    }

    /// Appends these bytes.
    pub fn grow(&mut self, piece: &[u8])
        ensures stands { self.new.stands ≡ min (self.old.stands + length piece.now) (2 ^ 64 - 1) }
        ensures front { self.new.front.items ≡ front_with self.old.front.items piece.now }
    {
        self.stands = self.stands.saturating_add(piece.len() as u64);
        let n = piece.len().min(64 - self.front.len());
        let _ = self.front.try_extend_from_slice(&piece[..n]);
    }

    /// The number of bytes of the whole output, if the first bytes give it.
    pub fn whole(&self) -> Option<u64>
        ensures { result ≡ length_in self.now.front.items }
    {
        length_in(self.front.as_slice())
    }
}

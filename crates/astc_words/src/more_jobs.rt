// The jobs over parts and textures of other encoders.
ghost use Rattle.std.specs.Prelude.{◌≡◌, ◌≤◌, ◌<◌};
ghost use Rattle.astc_words.specs.Parts.{part_place_of};

use crate::{AuditJob, PackJob};
use std::fmt;
use std::marker::Model;

/// The place of a part, from 0, below the number of parts, which is 65,536 at most.
#[derive(Clone, Copy, PartialEq, Eq)]
pub struct PartPlace {
    place: u32,
    parts: u32,
}

impl Model for PartPlace {
    ghost use Rattle.std.specs.Prelude.{◌≤◌, ◌<◌};
    ghost use Rattle.astc_words.specs.Parts.{PlaceView};

    ghost Value = { PlaceView };

    ghost view = { λ at. record { place = at.place; parts = at.parts } };

    ghost invariant = { λ at. (at.place < at.parts) × (at.parts ≤ 65536) };

    ghost inverse = { λ at. record { place = at.place; parts = at.parts } };
}

impl fmt::Debug for PartPlace {
    fn fmt<W: fmt::Write>(&self, f: &mut fmt::Formatter<W>) -> fmt::Result {
        fmt::Debug::fmt(&(self.place, self.parts), f)
    }
}

impl PartPlace {
    /// The place with this number among `parts` parts; None exactly if the number is not below
    /// `parts`, or `parts` is more than 65,536.
    pub fn new(place: u32, parts: u32) -> Option<Self>
        ensures { result ≡ part_place_of place parts }
    {
        if place < parts && parts <= 65_536 {
            Some(PartPlace { place, parts })
        } else {
            None
        }
    }

    /// The place, from 0.
    pub fn place(self) -> u32
        ensures same { result ≡ self.place }
        ensures below { result < self.parts }
    {
        self.place
    }

    /// The number of parts.
    pub fn parts(self) -> u32
        ensures same { result ≡ self.parts }
        ensures below { self.place < result }
        ensures most { result ≤ 65536 }
    {
        self.parts
    }
}

/// Which part of which pack is to be made.
#[derive(Clone, Copy, Debug, PartialEq, Eq)]
pub struct PartJob {
    pub at: PartPlace,
    /// The pack, without advisers.
    pub pack: PackJob,
}

/// The job of the words of a command line over parts or textures of other encoders.
#[derive(Clone, Copy, Debug, PartialEq, Eq)]
pub enum MoreJob {
    /// Packs images into one part of a texture. The names of files are words 1 and 2.
    Part(PartJob),
    /// Joins parts into a texture, whose name is word 1; the words after it name the parts.
    Join,
    /// Improves a texture against its images. The names of files are words 1 to 3: the images, the
    /// texture, and the output.
    Polish(AuditJob),
}

// Numbers in ranges.
ghost use Rattle.std.specs.Prelude.{◌≡◌, ◌≤◌};
ghost use Rattle.astc_words.specs.Values.{in_range};

use std::fmt;
use std::marker::Model;

/// A number of `LEAST` to `MOST`. A contract sees the number.
#[derive(Clone, Copy, PartialEq, Eq)]
pub struct Within<const LEAST: u32, const MOST: u32> {
    number: u32,
}

impl<const LEAST: u32, const MOST: u32> Model for Within<LEAST, MOST> {
    ghost use Rattle.std.specs.Prelude.{ℕ, ◌≤◌};

    ghost Value = { ℕ };

    ghost view = { λ within. within.number };

    ghost invariant = { λ within. (LEAST ≤ within.number) × (within.number ≤ MOST) };

    ghost inverse = { λ number. record { number = number } };
}

impl<const LEAST: u32, const MOST: u32> fmt::Debug for Within<LEAST, MOST> {
    fn fmt<W: fmt::Write>(&self, f: &mut fmt::Formatter<W>) -> fmt::Result {
        fmt::Debug::fmt(&self.number, f)
    }
}

impl<const LEAST: u32, const MOST: u32> Within<LEAST, MOST> {
    /// This number; None exactly if it is outside.
    pub fn new(number: u32) -> Option<Self>
        ensures { result ≡ in_range LEAST MOST number }
    {
        if LEAST <= number && number <= MOST {
            Some(Within { number })
        } else {
            None
        }
    }

    /// This number, which is known to be inside.
    pub fn known(number: u32) -> Self
        requires least { LEAST ≤ number }
        requires most { number ≤ MOST }
        ensures { result ≡ number }
    {
        Within { number }
    }

    /// The number.
    pub fn get(self) -> u32
        ensures same { result ≡ self.entry }
        ensures least { LEAST ≤ result }
        ensures most { result ≤ MOST }
    {
        self.number
    }
}

// The 21 quantization levels of integer sequences.
ghost use Rattle.std.specs.Prelude.{◌≡◌, ◌≤◌, ◌↔◌, IsSome, IfSome, IsTrue};
ghost use Rattle.astc_model.specs.Levels.{digit_of, low_bits_of, count_of, sequence_bits, is_level_count};

/// The part of an integer above its low bits, by which integer sequence encoding groups integers.
#[derive(Clone, Copy, Debug, PartialEq, Eq)]
pub enum Digit {
    /// No digit: the integer is its low bits.
    Bits,
    /// A trit, 0 to 2.
    Trit,
    /// A quint, 0 to 4.
    Quint,
}

/// A quantization level: the number of values that an integer of a sequence can have (Khronos Data
/// Format Specification, ASTC, "Integer Sequence Encoding").
#[derive(Clone, Copy, Debug, PartialEq, Eq)]
pub enum Level {
    Two,
    Three,
    Four,
    Five,
    Six,
    Eight,
    Ten,
    Twelve,
    Sixteen,
    Twenty,
    TwentyFour,
    ThirtyTwo,
    Forty,
    FortyEight,
    SixtyFour,
    Eighty,
    NinetySix,
    OneTwentyEight,
    OneSixty,
    OneNinetyTwo,
    TwoFiftySix,
}

impl Level {
    /// Returns the level with `count` values; None exactly if no level has this count.
    pub fn of(count: u16) -> Option<Level>
        ensures listed { IsSome result ↔ IsTrue (is_level_count count) }
        ensures same { IfSome result (λ level. count_of level ≡ count) }
    {
        match count {
            2 => Some(Level::Two),
            3 => Some(Level::Three),
            4 => Some(Level::Four),
            5 => Some(Level::Five),
            6 => Some(Level::Six),
            8 => Some(Level::Eight),
            10 => Some(Level::Ten),
            12 => Some(Level::Twelve),
            16 => Some(Level::Sixteen),
            20 => Some(Level::Twenty),
            24 => Some(Level::TwentyFour),
            32 => Some(Level::ThirtyTwo),
            40 => Some(Level::Forty),
            48 => Some(Level::FortyEight),
            64 => Some(Level::SixtyFour),
            80 => Some(Level::Eighty),
            96 => Some(Level::NinetySix),
            128 => Some(Level::OneTwentyEight),
            160 => Some(Level::OneSixty),
            192 => Some(Level::OneNinetyTwo),
            256 => Some(Level::TwoFiftySix),
            _ => None,
        }
    }

    /// Returns the number of values of an integer of this level, 2 to 256.
    pub fn count(self) -> u16
        ensures { result ≡ count_of self }
    {
        match self {
            Level::Two => 2,
            Level::Three => 3,
            Level::Four => 4,
            Level::Five => 5,
            Level::Six => 6,
            Level::Eight => 8,
            Level::Ten => 10,
            Level::Twelve => 12,
            Level::Sixteen => 16,
            Level::Twenty => 20,
            Level::TwentyFour => 24,
            Level::ThirtyTwo => 32,
            Level::Forty => 40,
            Level::FortyEight => 48,
            Level::SixtyFour => 64,
            Level::Eighty => 80,
            Level::NinetySix => 96,
            Level::OneTwentyEight => 128,
            Level::OneSixty => 160,
            Level::OneNinetyTwo => 192,
            Level::TwoFiftySix => 256,
        }
    }

    /// Returns the kind of digit above the low bits of each integer.
    pub fn digit(self) -> Digit
        ensures { result ≡ digit_of self }
    {
        match self {
            Level::Two => Digit::Bits,
            Level::Three => Digit::Trit,
            Level::Four => Digit::Bits,
            Level::Five => Digit::Quint,
            Level::Six => Digit::Trit,
            Level::Eight => Digit::Bits,
            Level::Ten => Digit::Quint,
            Level::Twelve => Digit::Trit,
            Level::Sixteen => Digit::Bits,
            Level::Twenty => Digit::Quint,
            Level::TwentyFour => Digit::Trit,
            Level::ThirtyTwo => Digit::Bits,
            Level::Forty => Digit::Quint,
            Level::FortyEight => Digit::Trit,
            Level::SixtyFour => Digit::Bits,
            Level::Eighty => Digit::Quint,
            Level::NinetySix => Digit::Trit,
            Level::OneTwentyEight => Digit::Bits,
            Level::OneSixty => Digit::Quint,
            Level::OneNinetyTwo => Digit::Trit,
            Level::TwoFiftySix => Digit::Bits,
        }
    }

    /// Returns the number of low bits of each integer, 0 to 8.
    pub fn low_bits(self) -> u32
        ensures bits { result ≡ low_bits_of self }
        ensures small { result ≤ 8 }
    {
        match self {
            Level::Two => 1,
            Level::Three => 0,
            Level::Four => 2,
            Level::Five => 0,
            Level::Six => 1,
            Level::Eight => 3,
            Level::Ten => 1,
            Level::Twelve => 2,
            Level::Sixteen => 4,
            Level::Twenty => 2,
            Level::TwentyFour => 3,
            Level::ThirtyTwo => 5,
            Level::Forty => 3,
            Level::FortyEight => 4,
            Level::SixtyFour => 6,
            Level::Eighty => 4,
            Level::NinetySix => 5,
            Level::OneTwentyEight => 7,
            Level::OneSixty => 5,
            Level::OneNinetyTwo => 6,
            Level::TwoFiftySix => 8,
        }
    }

    /// Returns the length in bits of a sequence of `n` integers; `n` is at most 64.
    pub fn bits(self, n: u32) -> u32
        requires { n ≤ 64 }
        ensures { result ≡ sequence_bits self n }
    {
        let digits = match self.digit() {
            Digit::Bits => 0,
            Digit::Trit => (8 * n + 4) / 5,
            Digit::Quint => (7 * n + 2) / 3,
        };
        n * self.low_bits() + digits
    }
}

// The fourteen footprints as an enum.
ghost use Rattle.std.specs.Prelude.{◌≡◌, ◌↔◌, IsTrue, IsSome, IfSome, IfNone};
ghost use Rattle.astc_model.specs.Footprints.{is_footprint};
ghost use Rattle.astc_model.specs.FootprintNames.{sides_of, gl_of, footprint_word, FootprintName, Flavour};

use crate::Flavour;

/// One of the fourteen block footprints of two dimensions, named by width and height (Khronos Data
/// Format Specification, ASTC, table of footprints).
#[derive(Clone, Copy, Debug, PartialEq, Eq)]
pub enum FootprintName {
    F4x4,
    F5x4,
    F5x5,
    F6x5,
    F6x6,
    F8x5,
    F8x6,
    F8x8,
    F10x5,
    F10x6,
    F10x8,
    F10x10,
    F12x10,
    F12x12,
}

impl FootprintName {
    /// Returns the footprint of width `w` and height `h` in texels; None exactly if these are not
    /// the sides of a footprint.
    pub fn of(w: usize, h: usize) -> Option<FootprintName>
        ensures listed { IsSome result ↔ IsTrue (is_footprint w h) }
        ensures same { IfSome result (λ name. sides_of name ≡ (w, h)) }
    {
        match (w, h) {
            (4, 4) => Some(FootprintName::F4x4),
            (5, 4) => Some(FootprintName::F5x4),
            (5, 5) => Some(FootprintName::F5x5),
            (6, 5) => Some(FootprintName::F6x5),
            (6, 6) => Some(FootprintName::F6x6),
            (8, 5) => Some(FootprintName::F8x5),
            (8, 6) => Some(FootprintName::F8x6),
            (8, 8) => Some(FootprintName::F8x8),
            (10, 5) => Some(FootprintName::F10x5),
            (10, 6) => Some(FootprintName::F10x6),
            (10, 8) => Some(FootprintName::F10x8),
            (10, 10) => Some(FootprintName::F10x10),
            (12, 10) => Some(FootprintName::F12x10),
            (12, 12) => Some(FootprintName::F12x12),
            _ => None,
        }
    }

    /// Returns the width and the height in texels, each 4 to 12.
    pub fn sides(self) -> (u32, u32)
        ensures { result ≡ sides_of self }
    {
        match self {
            FootprintName::F4x4 => (4, 4),
            FootprintName::F5x4 => (5, 4),
            FootprintName::F5x5 => (5, 5),
            FootprintName::F6x5 => (6, 5),
            FootprintName::F6x6 => (6, 6),
            FootprintName::F8x5 => (8, 5),
            FootprintName::F8x6 => (8, 6),
            FootprintName::F8x8 => (8, 8),
            FootprintName::F10x5 => (10, 5),
            FootprintName::F10x6 => (10, 6),
            FootprintName::F10x8 => (10, 8),
            FootprintName::F10x10 => (10, 10),
            FootprintName::F12x10 => (12, 10),
            FootprintName::F12x12 => (12, 12),
        }
    }

    /// Returns the format's number in OpenGL and KTX: 0x93B0 to 0x93BD in the linear flavour,
    /// 0x93D0 to 0x93DD in sRGB.
    pub fn gl(self, flavour: Flavour) -> u32
        ensures { result ≡ gl_of self flavour }
    {
        match flavour {
            Flavour::Linear => 0x93B0 + self as u32,
            Flavour::Srgb => 0x93D0 + self as u32,
        }
    }

    /// Returns the footprint and flavour whose format has the number `n`; None exactly if `n` is
    /// not a result of [`FootprintName::gl`].
    pub fn from_gl(n: u32) -> Option<(FootprintName, Flavour)>
        ensures found { IfSome result (λ format. gl_of format.0 format.1 ≡ n) }
        ensures none { IfNone result ((name : FootprintName) (flavour : Flavour)
            → gl_of name flavour ≡ n → ⊥) }
    {
        match n {
            0x93B0 => Some((FootprintName::F4x4, Flavour::Linear)),
            0x93B1 => Some((FootprintName::F5x4, Flavour::Linear)),
            0x93B2 => Some((FootprintName::F5x5, Flavour::Linear)),
            0x93B3 => Some((FootprintName::F6x5, Flavour::Linear)),
            0x93B4 => Some((FootprintName::F6x6, Flavour::Linear)),
            0x93B5 => Some((FootprintName::F8x5, Flavour::Linear)),
            0x93B6 => Some((FootprintName::F8x6, Flavour::Linear)),
            0x93B7 => Some((FootprintName::F8x8, Flavour::Linear)),
            0x93B8 => Some((FootprintName::F10x5, Flavour::Linear)),
            0x93B9 => Some((FootprintName::F10x6, Flavour::Linear)),
            0x93BA => Some((FootprintName::F10x8, Flavour::Linear)),
            0x93BB => Some((FootprintName::F10x10, Flavour::Linear)),
            0x93BC => Some((FootprintName::F12x10, Flavour::Linear)),
            0x93BD => Some((FootprintName::F12x12, Flavour::Linear)),
            0x93D0 => Some((FootprintName::F4x4, Flavour::Srgb)),
            0x93D1 => Some((FootprintName::F5x4, Flavour::Srgb)),
            0x93D2 => Some((FootprintName::F5x5, Flavour::Srgb)),
            0x93D3 => Some((FootprintName::F6x5, Flavour::Srgb)),
            0x93D4 => Some((FootprintName::F6x6, Flavour::Srgb)),
            0x93D5 => Some((FootprintName::F8x5, Flavour::Srgb)),
            0x93D6 => Some((FootprintName::F8x6, Flavour::Srgb)),
            0x93D7 => Some((FootprintName::F8x8, Flavour::Srgb)),
            0x93D8 => Some((FootprintName::F10x5, Flavour::Srgb)),
            0x93D9 => Some((FootprintName::F10x6, Flavour::Srgb)),
            0x93DA => Some((FootprintName::F10x8, Flavour::Srgb)),
            0x93DB => Some((FootprintName::F10x10, Flavour::Srgb)),
            0x93DC => Some((FootprintName::F12x10, Flavour::Srgb)),
            0x93DD => Some((FootprintName::F12x12, Flavour::Srgb)),
            _ => None,
        }
    }

    /// Returns the footprint that a word such as `4x4` names; None exactly if the word is not the
    /// name of a footprint.
    pub fn from_word(word: &str) -> Option<FootprintName>
        ensures found { IfSome result (λ name. word.now ≡ footprint_word name) }
        ensures none { IfNone result ((name : FootprintName) → word.now ≡ footprint_word name → ⊥) }
    {
        match word {
            "4x4" => Some(FootprintName::F4x4),
            "5x4" => Some(FootprintName::F5x4),
            "5x5" => Some(FootprintName::F5x5),
            "6x5" => Some(FootprintName::F6x5),
            "6x6" => Some(FootprintName::F6x6),
            "8x5" => Some(FootprintName::F8x5),
            "8x6" => Some(FootprintName::F8x6),
            "8x8" => Some(FootprintName::F8x8),
            "10x5" => Some(FootprintName::F10x5),
            "10x6" => Some(FootprintName::F10x6),
            "10x8" => Some(FootprintName::F10x8),
            "10x10" => Some(FootprintName::F10x10),
            "12x10" => Some(FootprintName::F12x10),
            "12x12" => Some(FootprintName::F12x12),
            _ => None,
        }
    }
}

/// Calls a function with the sides of a footprint as its const parameters: `for_footprint!(name,
/// function(arguments))`, or `for_footprint!(name, function::<Type>(arguments))` if a type
/// parameter precedes the sides. The arguments must be plain names, because the macro repeats them
/// in each arm.
#[macro_export]
macro_rules! for_footprint {
    ($name:expr, $function:ident$(::<$type:ty>)?($($argument:expr),* $(,)?)) => {
        match $name {
            $crate::FootprintName::F4x4 => $function::<$($type,)? 4, 4>($($argument),*),
            $crate::FootprintName::F5x4 => $function::<$($type,)? 5, 4>($($argument),*),
            $crate::FootprintName::F5x5 => $function::<$($type,)? 5, 5>($($argument),*),
            $crate::FootprintName::F6x5 => $function::<$($type,)? 6, 5>($($argument),*),
            $crate::FootprintName::F6x6 => $function::<$($type,)? 6, 6>($($argument),*),
            $crate::FootprintName::F8x5 => $function::<$($type,)? 8, 5>($($argument),*),
            $crate::FootprintName::F8x6 => $function::<$($type,)? 8, 6>($($argument),*),
            $crate::FootprintName::F8x8 => $function::<$($type,)? 8, 8>($($argument),*),
            $crate::FootprintName::F10x5 => $function::<$($type,)? 10, 5>($($argument),*),
            $crate::FootprintName::F10x6 => $function::<$($type,)? 10, 6>($($argument),*),
            $crate::FootprintName::F10x8 => $function::<$($type,)? 10, 8>($($argument),*),
            $crate::FootprintName::F10x10 => $function::<$($type,)? 10, 10>($($argument),*),
            $crate::FootprintName::F12x10 => $function::<$($type,)? 12, 10>($($argument),*),
            $crate::FootprintName::F12x12 => $function::<$($type,)? 12, 12>($($argument),*),
        }
    };
}

// Whole colours: grey, clamped, and with blue contraction.
ghost use Rattle.std.specs.Prelude.{◌≡◌, pos, negsuc, ◌≤ℤ◌};
ghost use Rattle.astc_model.specs.Endpoints.{blue_contract, clamped, grey};

use crate::channel::{clamp_byte_of, half_way};

pub(crate) fn grey_of(luminance: u8, alpha: u8) -> [u8; 4]
    ensures { result ≡ grey luminance alpha }
{
    [luminance, luminance, luminance, alpha]
}

pub(crate) fn clamped_colour(red: i32, green: i32, blue: i32, alpha: i32) -> [u8; 4]
    ensures { result ≡ clamped red green blue alpha }
{
    [
        clamp_byte_of(red),
        clamp_byte_of(green),
        clamp_byte_of(blue),
        clamp_byte_of(alpha),
    ]
}

// Blue contraction: moves red and green halfway to blue, and clamps the channels only then.
#[tactic(auto, unfolding(astc_model::specs::Endpoints::blue_contract))]
pub(crate) fn blue_contracted(red: i32, green: i32, blue: i32, alpha: i32) -> [u8; 4]
    requires red_low { negsuc 511 ≤ℤ red }
    requires red_high { red ≤ℤ pos 511 }
    requires green_low { negsuc 511 ≤ℤ green }
    requires green_high { green ≤ℤ pos 511 }
    requires blue_low { negsuc 511 ≤ℤ blue }
    requires blue_high { blue ≤ℤ pos 511 }
    ensures { result ≡ blue_contract red green blue alpha }
{
    clamped_colour(half_way(red, blue), half_way(green, blue), blue, alpha)
}

// Blue contraction of a colour whose channels are bytes.
pub(crate) fn contracted_bytes(red: u8, green: u8, blue: u8, alpha: u8) -> [u8; 4]
    ensures { result ≡ blue_contract (pos red) (pos green) (pos blue) (pos alpha) }
{
    blue_contracted(
        i32::from(red),
        i32::from(green),
        i32::from(blue),
        i32::from(alpha),
    )
}

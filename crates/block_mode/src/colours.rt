// The number of colour integers of a block, and the level that its shape leaves for them.
ghost use Rattle.std.specs.Prelude.{◌≡◌, ◌+◌, ◌-◌, ◌*◌, ◌<◌, ◌≤◌, ◌↔◌, IfOk, IfSome, IsNone, nat_le, take};
ghost use Rattle.std.specs.List.{list_all};
ghost use Rattle.astc_model.specs.Levels.{sequence_bits};
ghost use Rattle.astc_model.specs.Endpoints.{is_ldr_mode};
ghost use Rattle.astc_model.specs.Modes.{IsInModeRange};
ghost use Rattle.astc_model.specs.Shapes.{weight_count, colour_count, colour_start, high_mode_bits, plane_bits, taken_bits, greatest_fit, colour_level_of, IsGreatestFit, colour_shape};
ghost use Rattle.astc_model.specs.declared.level.Level.TheVariants.{Six};
ghost use Rattle.block_mode.specs.Places.{level_place};

use crate::weights::weight_bits;
use astc_model::{BlockFault, Level, Mode};

/// Returns the number of colour integers of the first `parts` partitions (at most 4) with these
/// endpoint modes (Khronos Data Format Specification, ASTC, "Color Endpoint Mode").
pub fn colour_count(parts: u8, cems: &[u8; 4]) -> u32
    requires { parts ≤ 4 }
    ensures count { result ≡ colour_count parts cems.now }
    ensures small { result ≤ 512 }
{
    let mut total = 0;
    for cem in &cems[..usize::from(parts)] {
        total += 2 * (u32::from(*cem) / 4 + 1);
    }
    total
}

/// Returns the bit at which the colour integers begin in a block with this number of partitions
/// (Khronos Data Format Specification, ASTC, "Block Layout").
pub fn colour_start(parts: u8) -> u32
    ensures start { result ≡ colour_start parts }
    ensures small { result ≤ 29 }
{
    if parts == 1 { 17 } else { 29 }
}

/// Returns the number of endpoint mode bits that are stored directly below the weights: 0 unless
/// several partitions have separate modes (Khronos Data Format Specification, ASTC, "Color Endpoint
/// Mode").
pub fn high_mode_bits(parts: u8, selector: u8) -> u32
    requires { parts ≤ 4 }
    ensures bits { result ≡ high_mode_bits parts selector }
    ensures small { result ≤ 8 }
{
    if selector == 0 {
        0
    } else {
        (3 * u32::from(parts)).saturating_sub(4)
    }
}

/// Returns the number of bits of the colour component selector: 2 with two planes, otherwise 0
/// (Khronos Data Format Specification, ASTC, "Dual-Plane Mode").
pub fn plane_bits(mode: &Mode) -> u32
    ensures bits { result ≡ plane_bits mode.now }
    ensures small { result ≤ 2 }
{
    if mode.planes == 2 { 2 } else { 0 }
}

// The number of bits of a block that the colour integers cannot use.
fn bits_beside_colours(mode: &Mode, parts: u8, selector: u8) -> u32
    requires columns { mode.now.across ≤ 12 }
    requires rows { mode.now.down ≤ 12 }
    requires planes { mode.now.planes ≤ 2 }
    requires weights { weight_count mode.now ≤ 64 }
    requires parts { parts ≤ 4 }
    ensures taken { result ≡ taken_bits mode.now parts selector }
    ensures small { result ≤ 1000 }
{
    colour_start(parts) + weight_bits(mode) + high_mode_bits(parts, selector) + plane_bits(mode)
}

// The levels that colour integers can have, the greatest first.
static COLOUR_LEVELS: [Level; 17] = [
    Level::TwoFiftySix,
    Level::OneNinetyTwo,
    Level::OneSixty,
    Level::OneTwentyEight,
    Level::NinetySix,
    Level::Eighty,
    Level::SixtyFour,
    Level::FortyEight,
    Level::Forty,
    Level::ThirtyTwo,
    Level::TwentyFour,
    Level::Twenty,
    Level::Sixteen,
    Level::Twelve,
    Level::Ten,
    Level::Eight,
    Level::Six,
];

// The length in bits of a sequence of 0 to 18 integers, in one row for each of the 21 levels from 2
// up.
static COLOUR_BITS: [[u8; 19]; 21] = [
    [
        0, 1, 2, 3, 4, 5, 6, 7, 8, 9, 10, 11, 12, 13, 14, 15, 16, 17, 18,
    ],
    [
        0, 2, 4, 5, 7, 8, 10, 12, 13, 15, 16, 18, 20, 21, 23, 24, 26, 28, 29,
    ],
    [
        0, 2, 4, 6, 8, 10, 12, 14, 16, 18, 20, 22, 24, 26, 28, 30, 32, 34, 36,
    ],
    [
        0, 3, 5, 7, 10, 12, 14, 17, 19, 21, 24, 26, 28, 31, 33, 35, 38, 40, 42,
    ],
    [
        0, 3, 6, 8, 11, 13, 16, 19, 21, 24, 26, 29, 32, 34, 37, 39, 42, 45, 47,
    ],
    [
        0, 3, 6, 9, 12, 15, 18, 21, 24, 27, 30, 33, 36, 39, 42, 45, 48, 51, 54,
    ],
    [
        0, 4, 7, 10, 14, 17, 20, 24, 27, 30, 34, 37, 40, 44, 47, 50, 54, 57, 60,
    ],
    [
        0, 4, 8, 11, 15, 18, 22, 26, 29, 33, 36, 40, 44, 47, 51, 54, 58, 62, 65,
    ],
    [
        0, 4, 8, 12, 16, 20, 24, 28, 32, 36, 40, 44, 48, 52, 56, 60, 64, 68, 72,
    ],
    [
        0, 5, 9, 13, 18, 22, 26, 31, 35, 39, 44, 48, 52, 57, 61, 65, 70, 74, 78,
    ],
    [
        0, 5, 10, 14, 19, 23, 28, 33, 37, 42, 46, 51, 56, 60, 65, 69, 74, 79, 83,
    ],
    [
        0, 5, 10, 15, 20, 25, 30, 35, 40, 45, 50, 55, 60, 65, 70, 75, 80, 85, 90,
    ],
    [
        0, 6, 11, 16, 22, 27, 32, 38, 43, 48, 54, 59, 64, 70, 75, 80, 86, 91, 96,
    ],
    [
        0, 6, 12, 17, 23, 28, 34, 40, 45, 51, 56, 62, 68, 73, 79, 84, 90, 96, 101,
    ],
    [
        0, 6, 12, 18, 24, 30, 36, 42, 48, 54, 60, 66, 72, 78, 84, 90, 96, 102, 108,
    ],
    [
        0, 7, 13, 19, 26, 32, 38, 45, 51, 57, 64, 70, 76, 83, 89, 95, 102, 108, 114,
    ],
    [
        0, 7, 14, 20, 27, 33, 40, 47, 53, 60, 66, 73, 80, 86, 93, 99, 106, 113, 119,
    ],
    [
        0, 7, 14, 21, 28, 35, 42, 49, 56, 63, 70, 77, 84, 91, 98, 105, 112, 119, 126,
    ],
    [
        0, 8, 15, 22, 30, 37, 44, 52, 59, 66, 74, 81, 88, 96, 103, 110, 118, 125, 132,
    ],
    [
        0, 8, 16, 23, 31, 38, 46, 54, 61, 69, 76, 84, 92, 99, 107, 114, 122, 130, 137,
    ],
    [
        0, 8, 16, 24, 32, 40, 48, 56, 64, 72, 80, 88, 96, 104, 112, 120, 128, 136, 144,
    ],
];

// The row of a level in `COLOUR_BITS`.
#[tactic(auto, unfolding(crate::specs::Places::level_place))]
fn row_of(level: Level) -> usize
    ensures place { result ≡ level_place level }
    ensures within { result < 21 }
{
    match level {
        Level::Two => 0,
        Level::Three => 1,
        Level::Four => 2,
        Level::Five => 3,
        Level::Six => 4,
        Level::Eight => 5,
        Level::Ten => 6,
        Level::Twelve => 7,
        Level::Sixteen => 8,
        Level::Twenty => 9,
        Level::TwentyFour => 10,
        Level::ThirtyTwo => 11,
        Level::Forty => 12,
        Level::FortyEight => 13,
        Level::SixtyFour => 14,
        Level::Eighty => 15,
        Level::NinetySix => 16,
        Level::OneTwentyEight => 17,
        Level::OneSixty => 18,
        Level::OneNinetyTwo => 19,
        Level::TwoFiftySix => 20,
    }
}

// The length in bits of a sequence of at most 18 integers.
fn colour_bits(level: Level, integers: u8) -> u32
    requires { integers ≤ 18 }
    ensures bits { result ≡ sequence_bits level integers }
    ensures small { result ≤ 255 }
{
    u32::from(COLOUR_BITS[row_of(level)][usize::from(integers)])
}

// Whether a sequence of `integers` integers of this level fits into the bits of a block that are
// left after `taken` bits.
fn sequence_fits(taken: u32, level: Level, integers: u8) -> bool
    requires taken { taken ≤ 1000 }
    requires integers { integers ≤ 18 }
    ensures { result ≡ nat_le (taken + sequence_bits level integers) 128 }
{
    taken + colour_bits(level, integers) <= 128
}

// The greatest level from 6 on at which the integers fit into a block after `taken` bits; None if
// they do not fit at level 6.
#[tactic(auto, unfolding(astc_model::specs::Shapes::greatest_fit))]
fn greatest_level(taken: u32, integers: u8) -> Option<Level>
    requires taken { taken ≤ 1000 }
    requires integers { integers ≤ 18 }
    ensures { result ≡ greatest_fit taken integers }
{
    COLOUR_LEVELS
        .iter()
        .copied()
        .find(|level| sequence_fits(taken, *level, integers))
}

/// Returns the level of the given number of colour integers (at most 18): the greatest level from 6
/// on whose sequence fits into the bits that a block with this mode, these partitions and this
/// selector has left for them. None exactly if even level 6 does not fit.
pub fn colour_level(mode: &Mode, parts: u8, selector: u8, integers: u8) -> Option<Level>
    requires columns { mode.now.across ≤ 12 }
    requires rows { mode.now.down ≤ 12 }
    requires planes { mode.now.planes ≤ 2 }
    requires weights { weight_count mode.now ≤ 64 }
    requires parts { parts ≤ 4 }
    requires integers { integers ≤ 18 }
    ensures level { result ≡ colour_level_of mode.now parts selector integers }
    ensures greatest { IfSome result
        (λ level. IsGreatestFit (taken_bits mode.now parts selector) integers level) }
    ensures none { IsNone result ↔
        (128 < taken_bits mode.now parts selector + sequence_bits Six integers) }
{
    greatest_level(bits_beside_colours(mode, parts, selector), integers)
}

// Whether an endpoint mode belongs to the LDR profile.
fn is_of_profile(cem: u8) -> bool
    ensures { result ≡ is_ldr_mode cem }
{
    matches!(cem, 0 | 1 | 4 | 5 | 6 | 8 | 9 | 10 | 12 | 13)
}

// Whether the first `parts` partitions all have endpoint modes of the LDR profile.
fn are_of_profile(parts: u8, cems: &[u8; 4]) -> bool
    requires { parts ≤ 4 }
    ensures { result ≡ list_all is_ldr_mode (take parts cems.now) }
{
    cems[..usize::from(parts)]
        .iter()
        .all(|cem| is_of_profile(*cem))
}

/// Returns the level of the colour integers of a block with this mode, number of partitions,
/// selector and endpoint modes (Khronos Data Format Specification, ASTC, "Illegal Encodings").
///
/// # Errors
///
/// The first of these faults: two planes with four partitions, more than 18 colour integers, an
/// endpoint mode of the HDR profile, or too few bits for the integers at level 6.
#[tactic(auto, unfolding(astc_model::specs::Shapes::colour_shape))]
pub fn colour_shape(
    mode: &Mode,
    parts: u8,
    selector: u8,
    cems: &[u8; 4],
) -> Result<Level, BlockFault>
    requires mode { IsInModeRange mode.now }
    requires weights { weight_count mode.now ≤ 64 }
    requires parts { parts ≤ 4 }
    ensures shape { result ≡ colour_shape mode.now parts selector cems.now }
    ensures few { IfOk result (λ level. colour_count parts cems.now ≤ 18) }
    ensures greatest { IfOk result (IsGreatestFit (taken_bits mode.now parts selector)
        (colour_count parts cems.now)) }
{
    if mode.planes == 2 && parts == 4 {
        return Err(BlockFault::DualPlaneFour);
    }
    let integers = colour_count(parts, cems);
    if integers > 18 {
        return Err(BlockFault::TooManyColours);
    }
    if !are_of_profile(parts, cems) {
        return Err(BlockFault::HdrEndpoint);
    }
    colour_level(mode, parts, selector, integers as u8).ok_or(BlockFault::ColourBits)
}

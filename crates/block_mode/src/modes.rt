// Decodes the eleven bits of a block mode, by the two tables of the standard: modes whose bits 1
// and 0 are not both 0 (here called first), and the others (second).
ghost use Rattle.std.specs.Prelude.{◌≡◌, ◌+◌, ◌-◌, ◌*◌, ◌/◌, ◌%◌, ◌^◌, ◌<◌, ◌≤◌, IfSome};
ghost use Rattle.astc_model.specs.Levels.{count_of};
ghost use Rattle.astc_model.specs.Sequences.{slice};
ghost use Rattle.astc_model.specs.Modes.{IsInModeRange, last_grid, first_grid, fixed_grid, second_grid, weight_level, bit_beside_grid, first_mode, second_mode, decoded_mode};

use astc_model::{Level, Mode};

// The `n` bits of a block mode from bit `at`.
#[tactic(auto, using(crate::proofs::ModeLemmas::bits_by_mask))]
fn bits(mode: u16, at: u32, n: u32) -> u16
    requires at { at ≤ 10 }
    requires n { n ≤ 9 }
    ensures value { result ≡ mode / 2 ^ at % 2 ^ n }
    ensures small { result < 2 ^ n }
{
    (mode >> at) & ((1 << n) - 1)
}

// The columns and rows of the grid, for the modes of the first table.
#[tactic(auto, unfolding(astc_model::specs::Modes::first_grid))]
fn grid_of_first(mode: u16) -> (u8, u8)
    ensures grid { result ≡ first_grid mode }
    ensures some_columns { 2 ≤ result.0 }
    ensures columns { result.0 ≤ 12 }
    ensures some_rows { 2 ≤ result.1 }
    ensures rows { result.1 ≤ 12 }
{
    let a = bits(mode, 5, 2) as u8;
    let b = bits(mode, 7, 2) as u8;
    match bits(mode, 2, 2) {
        0 => (b + 4, a + 2),
        1 => (b + 8, a + 2),
        2 => (a + 2, b + 8),
        _ => grid_of_last(mode),
    }
}

// The columns and rows of the grid, for the modes of the first table whose bits 3 and 2 are both 1.
#[tactic(auto, unfolding(astc_model::specs::Modes::last_grid))]
fn grid_of_last(mode: u16) -> (u8, u8)
    ensures grid { result ≡ last_grid mode }
    ensures some_columns { 2 ≤ result.0 }
    ensures columns { result.0 ≤ 12 }
    ensures some_rows { 2 ≤ result.1 }
    ensures rows { result.1 ≤ 12 }
{
    let a = bits(mode, 5, 2) as u8;
    let b = bits(mode, 7, 1) as u8;
    if bits(mode, 8, 1) == 0 {
        (a + 2, b + 6)
    } else {
        (b + 2, a + 2)
    }
}

// The columns and rows of the grid, for the modes of the second table whose bits 8 and 7 are both
// 1: 6 by 10 or 10 by 6. None if the mode is reserved.
#[tactic(auto, unfolding(astc_model::specs::Modes::fixed_grid))]
fn grid_of_fixed(mode: u16) -> Option<(u8, u8)>
    ensures grid { result ≡ fixed_grid mode }
    ensures some_columns { IfSome result (λ grid. 2 ≤ grid.0) }
    ensures columns { IfSome result (λ grid. grid.0 ≤ 12) }
    ensures some_rows { IfSome result (λ grid. 2 ≤ grid.1) }
    ensures rows { IfSome result (λ grid. grid.1 ≤ 12) }
{
    match bits(mode, 5, 2) {
        0 => Some((6, 10)),
        1 => Some((10, 6)),
        _ => None,
    }
}

// The columns and rows of the grid, for the modes of the second table. None if the mode is
// reserved.
#[tactic(auto, unfolding(astc_model::specs::Modes::second_grid))]
fn grid_of_second(mode: u16) -> Option<(u8, u8)>
    ensures grid { result ≡ second_grid mode }
    ensures some_columns { IfSome result (λ grid. 2 ≤ grid.0) }
    ensures columns { IfSome result (λ grid. grid.0 ≤ 12) }
    ensures some_rows { IfSome result (λ grid. 2 ≤ grid.1) }
    ensures rows { IfSome result (λ grid. grid.1 ≤ 12) }
{
    let a = bits(mode, 5, 2) as u8;
    match bits(mode, 7, 2) {
        0 => Some((12, a + 2)),
        1 => Some((a + 2, 12)),
        2 => Some((a + 6, bits(mode, 9, 2) as u8 + 6)),
        _ => grid_of_fixed(mode),
    }
}

// The weight levels for R = 2 to 7, first those with H = 0, then those with H = 1.
static WEIGHT_LEVELS: [Level; 12] = [
    Level::Two,
    Level::Three,
    Level::Four,
    Level::Five,
    Level::Six,
    Level::Eight,
    Level::Ten,
    Level::Twelve,
    Level::Sixteen,
    Level::Twenty,
    Level::TwentyFour,
    Level::ThirtyTwo,
];

// The weight level for the three bits R (2 to 7) and the bit H of a block mode.
#[tactic(auto, unfolding(astc_model::specs::Modes::weight_level))]
fn level_of(r: u16, h: u16) -> Level
    requires low { 2 ≤ r }
    requires high { r < 8 }
    requires bit { h < 2 }
    ensures level { result ≡ weight_level r h }
    ensures few { count_of result ≤ 32 }
{
    WEIGHT_LEVELS[(6 * h + (r - 2)) as usize]
}

// Decodes a mode of the first table.
#[tactic(auto, unfolding(astc_model::specs::Modes::first_mode))]
fn mode_of_first(mode: u16) -> Mode
    requires { 0 < slice mode 1 0 }
    ensures row { result ≡ first_mode mode }
    ensures range { IsInModeRange result }
{
    let (across, down) = grid_of_first(mode);
    let r = 2 * bits(mode, 0, 2) + bits(mode, 4, 1);
    Mode {
        across,
        down,
        level: level_of(r, bits(mode, 9, 1)),
        planes: bits(mode, 10, 1) as u8 + 1,
    }
}

// Bit `at` of a mode of the second table; 0 in the modes whose bits 10 and 9 (D and H in other
// modes) belong to the size of the grid.
#[tactic(auto, unfolding(astc_model::specs::Modes::bit_beside_grid))]
fn bit_of_second(mode: u16, at: u32) -> u16
    requires { at ≤ 10 }
    ensures value { result ≡ bit_beside_grid mode at }
    ensures small { result < 2 }
{
    if bits(mode, 7, 2) == 2 {
        0
    } else {
        bits(mode, at, 1)
    }
}

// Decodes a mode of the second table; None if it is reserved.
#[tactic(auto, unfolding(astc_model::specs::Modes::second_mode))]
fn mode_of_second(mode: u16) -> Option<Mode>
    requires { 0 < slice mode 3 2 }
    ensures row { result ≡ second_mode mode }
    ensures range { IfSome result IsInModeRange }
{
    let r = 2 * bits(mode, 2, 2) + bits(mode, 4, 1);
    let level = level_of(r, bit_of_second(mode, 9));
    let planes = bit_of_second(mode, 10) as u8 + 1;
    match grid_of_second(mode) {
        Some((across, down)) => Some(Mode {
            across,
            down,
            level,
            planes,
        }),
        None => None,
    }
}

/// Decodes a block mode: the grid, the level of the weights and the number of planes. None exactly
/// if the mode is reserved or is that of a void extent (Khronos Data Format Specification, ASTC,
/// "Block Mode"). Bits above bit 10 are ignored.
#[tactic(auto, unfolding(astc_model::specs::Modes::decoded_mode))]
pub fn mode_of(mode: u16) -> Option<Mode>
    ensures row { result ≡ decoded_mode mode }
    ensures range { IfSome result IsInModeRange }
{
    if bits(mode, 0, 9) == 0x1FC {
        return None;
    }
    if bits(mode, 0, 4) == 0 {
        return None;
    }
    if bits(mode, 0, 2) == 0 {
        mode_of_second(mode)
    } else {
        Some(mode_of_first(mode))
    }
}

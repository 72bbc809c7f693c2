// Decodes the number of partitions, the partition index, and the endpoint modes. The endpoint mode
// bits of several partitions are in two places: six bits from bit 23 (the selector and four more),
// and the rest directly below the weights. Joined, they are called the code here.
ghost use Rattle.std.specs.Prelude.{◌≡◌, ◌+◌, ◌-◌, ◌<◌, ◌≤◌};
ghost use Rattle.std.specs.Int.{bit_at};
ghost use Rattle.astc_model.specs.Modes.{IsInModeRange};
ghost use Rattle.astc_model.specs.Shapes.{weight_count, weight_data_bits};
ghost use Rattle.astc_model.specs.Fields.{parts_at, seed_at, selector_at, high_modes_start, code_at, mode_in_code, if_part, modes_in_code, cems_at, plane_at};

use astc_model::Mode;
use block_mode::{high_mode_bits, weight_bits};
use ise_codec::field;

// The number of partitions, 1 to 4.
pub(crate) fn parts_of(bits: u128) -> u8
    ensures value { result ≡ parts_at bits }
    ensures some { 1 ≤ result }
    ensures four { result ≤ 4 }
{
    field(bits, 11, 2) as u8 + 1
}

// The partition index; 0 for one partition.
pub(crate) fn seed_of(bits: u128, parts: u8) -> u16
    requires { parts ≡ parts_at bits }
    ensures { result ≡ seed_at bits }
{
    if parts == 1 {
        0
    } else {
        field(bits, 13, 10) as u16
    }
}

// The CEM selector; 0 for one partition.
pub(crate) fn selector_of(bits: u128, parts: u8) -> u8
    requires { parts ≡ parts_at bits }
    ensures value { result ≡ selector_at bits }
    ensures small { result < 4 }
{
    if parts == 1 {
        0
    } else {
        field(bits, 23, 2) as u8
    }
}

// The position of the first endpoint mode bit below the weights.
fn high_modes_start(mode: &Mode, parts: u8, selector: u8) -> u32
    requires mode { IsInModeRange mode.now }
    requires few { weight_count mode.now ≤ 64 }
    requires short { weight_data_bits mode.now ≤ 96 }
    requires parts { parts ≤ 4 }
    ensures start { result ≡ high_modes_start mode.now parts selector }
    ensures room { 24 ≤ result }
    ensures inside { result ≤ 128 }
{
    128 - weight_bits(mode) - high_mode_bits(parts, selector)
}

// The code: the six bits from bit 23, and above them the bits from below the weights.
fn code_of(bits: u128, mode: &Mode, parts: u8, selector: u8) -> u128
    requires mode { IsInModeRange mode.now }
    requires few { weight_count mode.now ≤ 64 }
    requires short { weight_data_bits mode.now ≤ 96 }
    requires parts { parts ≤ 4 }
    ensures { result ≡ code_at bits mode.now parts selector }
{
    let start = high_modes_start(mode, parts, selector);
    let high = field(bits, start, high_mode_bits(parts, selector));
    field(bits, 23, 6) + 64 * high
}

// Bit `at` of the code.
#[tactic(auto, unfolding(astc_model::specs::Bits::field_of))]
fn bit_of(code: u128, at: u32) -> u8
    requires { at < 128 }
    ensures value { result ≡ bit_at code at }
    ensures small { result < 2 }
{
    field(code, at, 1) as u8
}

// The endpoint mode of partition `part` in the code. If the partitions have separate modes, the
// code has a bit for each partition that selects the class, then two bits for each partition that
// select the mode in its class.
fn mode_in_code(parts: u8, selector: u8, code: u128, part: u8) -> u8
    requires parts { parts ≤ 4 }
    requires selector { selector < 4 }
    requires part { part < 4 }
    ensures { result ≡ mode_in_code parts selector code part }
{
    if selector == 0 {
        return field(code, 2, 4) as u8;
    }
    let class = selector - 1 + bit_of(code, 2 + u32::from(part));
    let low = field(code, 2 + u32::from(parts) + 2 * u32::from(part), 2) as u8;
    4 * class + low
}

// The endpoint mode of partition `part` in the code, or 0 if the block has no partition of this
// number.
fn mode_or_none(parts: u8, selector: u8, code: u128, part: u8) -> u8
    requires parts { parts ≤ 4 }
    requires selector { selector < 4 }
    requires part { part < 4 }
    ensures { result ≡ if_part parts part (mode_in_code parts selector code part) }
{
    if part < parts {
        mode_in_code(parts, selector, code, part)
    } else {
        0
    }
}

// The endpoint modes of all partitions in the code.
#[tactic(auto, unfolding(astc_model::specs::Fields::modes_in_code))]
fn modes_in_code(parts: u8, selector: u8, code: u128) -> [u8; 4]
    requires parts { parts ≤ 4 }
    requires selector { selector < 4 }
    ensures { result ≡ modes_in_code parts selector code }
{
    [
        mode_or_none(parts, selector, code, 0),
        mode_or_none(parts, selector, code, 1),
        mode_or_none(parts, selector, code, 2),
        mode_or_none(parts, selector, code, 3),
    ]
}

// The endpoint modes of the block; 0 for the partitions from `parts` on.
#[tactic(auto, unfolding(astc_model::specs::Fields::cems_at))]
pub(crate) fn cems_of(bits: u128, mode: &Mode, parts: u8, selector: u8) -> [u8; 4]
    requires mode { IsInModeRange mode.now }
    requires few { weight_count mode.now ≤ 64 }
    requires short { weight_data_bits mode.now ≤ 96 }
    requires parts { parts ≡ parts_at bits }
    requires selector { selector ≡ selector_at bits }
    requires four { parts ≤ 4 }
    requires small { selector < 4 }
    ensures { result ≡ cems_at bits mode.now }
{
    if parts == 1 {
        [field(bits, 13, 4) as u8, 0, 0, 0]
    } else {
        modes_in_code(parts, selector, code_of(bits, mode, parts, selector))
    }
}

// The component whose weights are in the second plane, 1 to 4; 0 for one plane.
#[tactic(auto, unfolding(astc_model::specs::Fields::plane_at))]
pub(crate) fn plane_of(bits: u128, mode: &Mode, parts: u8, selector: u8) -> u8
    requires mode { IsInModeRange mode.now }
    requires few { weight_count mode.now ≤ 64 }
    requires short { weight_data_bits mode.now ≤ 96 }
    requires parts { parts ≤ 4 }
    ensures { result ≡ plane_at bits mode.now parts selector }
{
    if mode.planes == 2 {
        field(bits, high_modes_start(mode, parts, selector) - 2, 2) as u8 + 1
    } else {
        0
    }
}

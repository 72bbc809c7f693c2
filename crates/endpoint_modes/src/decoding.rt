// Decodes the two endpoints from colour values, for each endpoint mode of the LDR profile.
ghost use Rattle.std.specs.Prelude.{◌≡◌, ◌≤◌, length, slice_index, IsTrue};
ghost use Rattle.astc_model.specs.Endpoints.{is_ldr_mode, endpoint_integers, endpoint_colours, is_ascending, luminance_direct, luminance_base_offset, luminance_alpha_direct, luminance_alpha_base_offset, base_scale, direct, base_offset};
ghost use Rattle.endpoint_modes.specs.Modes.{number_of};

use crate::channel::{base_at, base_with_offset_at, offsets_rise, scaled};
use crate::colour::{blue_contracted, clamped_colour, contracted_bytes, grey_of};
use crate::mode::EndpointMode;

// Mode 0: luminance, direct.
fn from_luminances(values: &[u8]) -> ([u8; 4], [u8; 4])
    requires { 2 ≤ length values.now }
    ensures { result ≡ luminance_direct (slice_index values.now) }
{
    (grey_of(values[0], 255), grey_of(values[1], 255))
}

// Mode 1: luminance, base and offset.
fn from_luminance_and_offset(values: &[u8]) -> ([u8; 4], [u8; 4])
    requires { 2 ≤ length values.now }
    ensures { result ≡ luminance_base_offset (slice_index values.now) }
{
    let first = (values[0] >> 2) | (values[1] & 0xC0);
    let second = first.saturating_add(values[1] & 0x3F);
    (grey_of(first, 255), grey_of(second, 255))
}

// Mode 4: luminance and alpha, direct.
fn from_luminances_and_alphas(values: &[u8]) -> ([u8; 4], [u8; 4])
    requires { 4 ≤ length values.now }
    ensures { result ≡ luminance_alpha_direct (slice_index values.now) }
{
    (grey_of(values[0], values[2]), grey_of(values[1], values[3]))
}

// Mode 5: luminance and alpha, base and offset.
fn from_luminance_and_alpha_offsets(values: &[u8]) -> ([u8; 4], [u8; 4])
    requires { 4 ≤ length values.now }
    ensures { result ≡ luminance_alpha_base_offset (slice_index values.now) }
{
    let first = base_at(values, 0);
    let second = base_with_offset_at(values, 0);
    (
        clamped_colour(first, first, first, base_at(values, 2)),
        clamped_colour(second, second, second, base_with_offset_at(values, 2)),
    )
}

// Mode 6 (RGB, base and scale) and mode 10 (the same with two alphas).
fn from_scale(values: &[u8], first_alpha: u8, second_alpha: u8) -> ([u8; 4], [u8; 4])
    requires { 4 ≤ length values.now }
    ensures { result ≡ base_scale (slice_index values.now) first_alpha second_alpha }
{
    let scale = values[3];
    (
        [
            scaled(values[0], scale),
            scaled(values[1], scale),
            scaled(values[2], scale),
            first_alpha,
        ],
        [values[0], values[1], values[2], second_alpha],
    )
}

// Whether red + green + blue of the second colour is at least that of the first. If not, the
// decoder exchanges the colours and applies blue contraction.
fn sums_ascend(values: &[u8]) -> bool
    requires { 6 ≤ length values.now }
    ensures { result ≡ is_ascending (slice_index values.now) }
{
    let first = u16::from(values[0]) + u16::from(values[2]) + u16::from(values[4]);
    let second = u16::from(values[1]) + u16::from(values[3]) + u16::from(values[5]);
    second >= first
}

// Mode 8 (RGB, direct) and mode 12 (RGBA, direct).
fn from_colours(values: &[u8], first_alpha: u8, second_alpha: u8) -> ([u8; 4], [u8; 4])
    requires { 6 ≤ length values.now }
    ensures { result ≡ direct (slice_index values.now) first_alpha second_alpha }
{
    if sums_ascend(values) {
        (
            [values[0], values[2], values[4], first_alpha],
            [values[1], values[3], values[5], second_alpha],
        )
    } else {
        (
            contracted_bytes(values[1], values[3], values[5], second_alpha),
            contracted_bytes(values[0], values[2], values[4], first_alpha),
        )
    }
}

// Mode 9 (RGB, base and offset) and mode 13 (RGBA, base and offset).
fn from_offsets(values: &[u8], first_alpha: i32, second_alpha: i32) -> ([u8; 4], [u8; 4])
    requires { 6 ≤ length values.now }
    ensures { result ≡ base_offset (slice_index values.now) first_alpha second_alpha }
{
    let (red, green, blue) = (base_at(values, 0), base_at(values, 2), base_at(values, 4));
    let other_red = base_with_offset_at(values, 0);
    let other_green = base_with_offset_at(values, 2);
    let other_blue = base_with_offset_at(values, 4);
    if offsets_rise(values) {
        (
            clamped_colour(red, green, blue, first_alpha),
            clamped_colour(other_red, other_green, other_blue, second_alpha),
        )
    } else {
        (
            blue_contracted(other_red, other_green, other_blue, second_alpha),
            blue_contracted(red, green, blue, first_alpha),
        )
    }
}

#[tactic(auto, unfolding(astc_model::specs::Endpoints::endpoint_colours))]
fn colours_of_mode(mode: EndpointMode, values: &[u8]) -> ([u8; 4], [u8; 4])
    requires { length values.now ≡ endpoint_integers (number_of mode) }
    ensures { result ≡ endpoint_colours (number_of mode) values.now }
{
    match mode {
        EndpointMode::LuminanceDirect => from_luminances(values),
        EndpointMode::LuminanceBaseOffset => from_luminance_and_offset(values),
        EndpointMode::LuminanceAlphaDirect => from_luminances_and_alphas(values),
        EndpointMode::LuminanceAlphaBaseOffset => from_luminance_and_alpha_offsets(values),
        EndpointMode::RgbBaseScale => from_scale(values, 255, 255),
        EndpointMode::RgbDirect => from_colours(values, 255, 255),
        EndpointMode::RgbBaseOffset => from_offsets(values, 255, 255),
        EndpointMode::RgbBaseScaleTwoAlpha => from_scale(values, values[4], values[5]),
        EndpointMode::RgbaDirect => from_colours(values, values[6], values[7]),
        EndpointMode::RgbaBaseOffset => from_offsets(
            values,
            base_at(values, 6),
            base_with_offset_at(values, 6),
        ),
    }
}

/// Returns the two endpoints of a partition, each with red, green, blue and alpha, from its colour
/// values under an endpoint mode of the LDR profile. `values` has unquantized values, 0 to 255, as
/// many as the mode needs: 2, 4, 6 or 8 (Khronos Data Format Specification, ASTC, "LDR Endpoint
/// Decoding").
pub fn endpoints(cem: u8, values: &[u8]) -> ([u8; 4], [u8; 4])
    requires ldr { IsTrue (is_ldr_mode cem) }
    requires count { length values.now ≡ endpoint_integers cem }
    ensures { result ≡ endpoint_colours cem values.now }
{
    let mode = EndpointMode::of(cem).unwrap();
    colours_of_mode(mode, values)
}

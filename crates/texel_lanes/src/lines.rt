// Scalar products of texels with the direction of a line, on vectors.
ghost use Rattle.std.specs.Prelude.{◌≡◌, ℕ, ◌+◌, ◌*◌, ◌/◌, ◌%◌, ◌<◌, ◌≤◌, length, slice_index};
ghost use Rattle.texel_lanes.specs.Lanes.{HasLanes, along_lane, far_apart, four_products};

use std::simd::prelude::*;

// The absolute difference of two bytes in each lane.
#[inline(always)]
fn distances(one: u8x16, other: u8x16) -> u8x16
    ensures lanes { HasLanes 16 result (λ k. far_apart (slice_index one k) (slice_index other k)) }
    ensures small { (k : ℕ) → k < 16 → slice_index result k ≤ 255 }
{
    one.abs_diff(other)
}

/// Returns each byte divided by 4, rounded down.
#[inline(always)]
pub fn quarters_of(bytes: u8x16) -> u8x16
    ensures { HasLanes 16 result (λ k. slice_index bytes k / 4) }
{
    bytes >> u8x16::splat(2)
}

/// Returns each byte modulo 4.
#[inline(always)]
pub fn rests_of(bytes: u8x16) -> u8x16
    ensures { HasLanes 16 result (λ k. slice_index bytes k % 4) }
{
    bytes & u8x16::splat(3)
}

// For each of four texels, the sum of its channels times the factors. The factors must be small,
// since the instruction adds products of bytes.
#[inline(always)]
fn products_of(channels: u8x16, factors: u8x16) -> u32x4
    requires factors { (k : ℕ) → k < 16 → slice_index factors k ≤ 63 }
    ensures { HasLanes 4 result (four_products channels factors) }
{
    channels.dot4(factors)
}

// Four times one vector plus the other.
#[inline(always)]
fn four_times_and(one: u32x4, other: u32x4) -> u32x4
    requires one { (t : ℕ) → t < 4 → slice_index one t ≤ 65536 }
    requires other { (t : ℕ) → t < 4 → slice_index other t ≤ 65536 }
    ensures { HasLanes 4 result (λ t. 4 * slice_index one t + slice_index other t) }
{
    let two = one + one;
    two + two + other
}

/// Returns for each of four texels its scalar product with the direction of a line: the sum over
/// the channels of the distance of the texel from `origins` times the length of the direction in
/// the channel. `origins` is 0 or 255 in each channel, whichever makes the term rise along the
/// line; the length is given as `4 * quarters + rests`.
#[inline(always)]
pub fn along(texels: u8x16, origins: u8x16, quarters: u8x16, rests: u8x16) -> u32x4
    requires texels { length texels ≡ 16 }
    requires origins { length origins ≡ 16 }
    requires quarters { (k : ℕ) → k < 16 → slice_index quarters k ≤ 63 }
    requires rests { (k : ℕ) → k < 16 → slice_index rests k ≤ 3 }
    ensures exact { HasLanes 4 result (along_lane texels origins quarters rests) }
    ensures small { (t : ℕ) → t < 4 → slice_index result t ≤ 260100 }
{
    let apart = distances(texels, origins);
    let coarse = products_of(apart, quarters);
    let fine = products_of(apart, rests);
    four_times_and(coarse, fine)
}

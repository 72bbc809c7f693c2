// The weighted squared differences of texels, on vectors: a vector of eight lanes has the channels
// of two texels, in the order red, green, blue, alpha.
ghost use Rattle.std.specs.Prelude.{◌≡◌, ℕ, ◌+◌, ◌*◌, ◌<◌, ◌≤◌, length, slice_index};
ghost use Rattle.texel_lanes.specs.Lanes.{HasLanes, eight_sum, far_apart, squared_apart};

use std::simd::prelude::*;

// The absolute difference of two bytes in each lane.
#[inline(always)]
fn distances(shown: u16x8, wanted: u16x8) -> u16x8
    ensures { HasLanes 8 result (λ k. far_apart (slice_index shown k) (slice_index wanted k)) }
{
    shown.abs_diff(wanted)
}

// The difference in each lane times the weight of the channel (a gain, 0 to 15).
#[inline(always)]
fn weighted(distances: u16x8, gains: u16x8) -> u16x8
    requires distances { (k : ℕ) → k < 8 → slice_index distances k ≤ 255 }
    requires gains { (k : ℕ) → k < 8 → slice_index gains k ≤ 15 }
    ensures { HasLanes 8 result (λ k. slice_index distances k * slice_index gains k) }
{
    distances * gains
}

// Keeps the low twelve bits, which are all bits of these values. The mask shows the compiler that
// the lanes fit signed 16-bit numbers, for which one instruction multiplies and adds pairs.
#[inline(always)]
fn low_bits(lanes: u16x8) -> u16x8
    requires { (k : ℕ) → k < 8 → slice_index lanes k ≤ 3825 }
    ensures { HasLanes 8 result (slice_index lanes) }
{
    lanes & u16x8::splat(4095)
}

// Widens the lanes to 32 bits.
#[inline(always)]
fn widened(lanes: u16x8) -> u32x8
    ensures { result ≡ lanes }
{
    lanes.cast::<u32>()
}

// The product in each lane.
#[inline(always)]
fn multiplied(distances: u32x8, weighted: u32x8) -> u32x8
    requires distances { (k : ℕ) → k < 8 → slice_index distances k ≤ 255 }
    requires weighted { (k : ℕ) → k < 8 → slice_index weighted k ≤ 3825 }
    ensures { HasLanes 8 result (λ k. slice_index distances k * slice_index weighted k) }
{
    distances * weighted
}

/// Returns for each channel of two texels the squared difference between the decoded byte and that
/// of the source, times the gain. `gains` has the channel weights, 0 to 15.
#[inline(always)]
pub fn squares(shown: u16x8, wanted: u16x8, gains: u16x8) -> u32x8
    requires shown { (k : ℕ) → k < 8 → slice_index shown k ≤ 255 }
    requires wanted { (k : ℕ) → k < 8 → slice_index wanted k ≤ 255 }
    requires gains { (k : ℕ) → k < 8 → slice_index gains k ≤ 15 }
    ensures exact { HasLanes 8 result (λ k. slice_index gains k
        * squared_apart (slice_index shown k) (slice_index wanted k)) }
    ensures small { (k : ℕ) → k < 8 → slice_index result k ≤ 975375 }
{
    let apart = distances(shown, wanted);
    let often = weighted(apart, gains);
    let (low, low_often) = (low_bits(apart), low_bits(often));
    let (wide, wide_often) = (widened(low), widened(low_often));
    multiplied(wide, wide_often)
}

// The sum of two vectors, lane by lane.
#[inline(always)]
fn added(one: u32x8, other: u32x8) -> u32x8
    requires one { (k : ℕ) → k < 8 → slice_index one k ≤ 975375 }
    requires other { (k : ℕ) → k < 8 → slice_index other k ≤ 975375 }
    ensures { HasLanes 8 result (λ k. slice_index one k + slice_index other k) }
{
    one + other
}

// The sum of the eight lanes of a vector.
#[inline(always)]
fn sum_of(lanes: u32x8) -> u32
    requires long { length lanes ≡ 8 }
    requires small { (k : ℕ) → k < 8 → slice_index lanes k ≤ 1950750 }
    ensures { result ≡ eight_sum (slice_index lanes) }
{
    lanes.strict_reduce_sum()
}

/// Returns the sum of all lanes of two vectors from [`squares`], the error of four texels.
#[inline(always)]
pub fn sum_of_squares(one: u32x8, other: u32x8) -> u32
    requires one { (k : ℕ) → k < 8 → slice_index one k ≤ 975375 }
    requires other { (k : ℕ) → k < 8 → slice_index other k ≤ 975375 }
    ensures exact { result ≡ eight_sum (slice_index one) + eight_sum (slice_index other) }
    ensures small { result ≤ 15606000 }
{
    let both = added(one, other);
    sum_of(both)
}

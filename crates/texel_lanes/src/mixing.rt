// Interpolation between two endpoints by weights, on vectors of the channels of two texels.
ghost use Rattle.std.specs.Prelude.{ℕ, ◌+◌, ◌-◌, ◌*◌, ◌/◌, ◌<◌, ◌≤◌, slice_index};
ghost use Rattle.texel_lanes.specs.Lanes.{HasLanes};

use std::simd::prelude::*;

// 64 minus each weight.
#[inline(always)]
fn rest_of(weights: u16x8) -> u16x8
    requires { (k : ℕ) → k < 8 → slice_index weights k ≤ 64 }
    ensures { HasLanes 8 result (λ k. 64 - slice_index weights k) }
{
    u16x8::splat(64) - weights
}

// The product of endpoint and weight in each lane.
#[inline(always)]
fn scaled(ends: u16x8, weights: u16x8) -> u16x8
    requires ends { (k : ℕ) → k < 8 → slice_index ends k ≤ 255 }
    requires weights { (k : ℕ) → k < 8 → slice_index weights k ≤ 64 }
    ensures { HasLanes 8 result (λ k. slice_index ends k * slice_index weights k) }
{
    ends * weights
}

#[inline(always)]
fn added(one: u16x8, other: u16x8) -> u16x8
    requires one { (k : ℕ) → k < 8 → slice_index one k ≤ 16320 }
    requires other { (k : ℕ) → k < 8 → slice_index other k ≤ 16320 }
    ensures { HasLanes 8 result (λ k. slice_index one k + slice_index other k) }
{
    one + other
}

/// Returns the interpolation of each channel between two endpoints of 8 bits by a weight of 0 to
/// 64, multiplied by 64.
#[inline(always)]
pub fn mixed(first: u16x8, second: u16x8, weights: u16x8) -> u16x8
    requires first { (k : ℕ) → k < 8 → slice_index first k ≤ 255 }
    requires second { (k : ℕ) → k < 8 → slice_index second k ≤ 255 }
    requires weights { (k : ℕ) → k < 8 → slice_index weights k ≤ 64 }
    ensures { HasLanes 8 result (λ k. slice_index first k * (64 - slice_index weights k)
        + slice_index second k * slice_index weights k) }
{
    added(scaled(first, rest_of(weights)), scaled(second, weights))
}

/// Returns the decoded bytes for interpolated channels (times 64) whose endpoints are widened to 16
/// bits by repetition, as in the linear flavour.
#[inline(always)]
pub fn of_repeated(mix: u16x8) -> u16x8
    requires { (k : ℕ) → k < 8 → slice_index mix k ≤ 16320 }
    ensures { HasLanes 8 result (λ k. (slice_index mix k + (slice_index mix k + 32) / 256) / 64) }
{
    (mix + ((mix + u16x8::splat(32)) >> u16x8::splat(8))) >> u16x8::splat(6)
}

/// Returns the decoded bytes for interpolated channels (times 64) whose endpoints are widened to 16
/// bits with 128 as low byte, as for red, green and blue in the sRGB flavour.
#[inline(always)]
pub fn of_centred(mix: u16x8) -> u16x8
    requires { (k : ℕ) → k < 8 → slice_index mix k ≤ 16320 }
    ensures { HasLanes 8 result (λ k. (slice_index mix k + 32) / 64) }
{
    (mix + u16x8::splat(32)) >> u16x8::splat(6)
}

// The weights of four texels from the grid points around them, on vectors.
ghost use Rattle.std.specs.Prelude.{◌≡◌, ℕ, ◌+◌, ◌/◌, ◌<◌, ◌≤◌, slice_index};
ghost use Rattle.texel_lanes.specs.Lanes.{HasLanes, four_products};

use std::simd::prelude::*;

/// Returns the weights of four texels in sixteenths. In `values` and `factors`, each run of four
/// lanes has the values and the factors of the four grid points around one texel.
#[inline(always)]
pub fn numerators(values: u8x16, factors: u8x16) -> u32x4
    requires factors { (k : ℕ) → k < 16 → slice_index factors k ≤ 16 }
    ensures { HasLanes 4 result (four_products values factors) }
{
    values.dot4(factors)
}

/// Returns the weights of four texels, rounded from sixteenths.
#[inline(always)]
pub fn rounded(numerators: u32x4) -> u32x4
    requires { (t : ℕ) → t < 4 → slice_index numerators t ≤ 1024 }
    ensures { HasLanes 4 result (λ t. (slice_index numerators t + 8) / 16) }
{
    (numerators + u32x4::splat(8)) >> u32x4::splat(4)
}

// Narrows the lanes to 16 bits.
#[inline(always)]
fn narrowed(weights: u32x4) -> u16x4
    requires { (k : ℕ) → k < 4 → slice_index weights k ≤ 64 }
    ensures { result ≡ weights }
{
    weights.cast::<u16>()
}

/// Returns the weight of each channel, first for the first two of four texels, then for the other
/// two: each weight is repeated in the four lanes of its texel.
#[inline(always)]
pub fn spread(weights: u32x4) -> (u16x8, u16x8)
    requires { (k : ℕ) → k < 4 → slice_index weights k ≤ 64 }
    ensures first { HasLanes 8 result.0 (λ k. slice_index weights (0 + k / 4)) }
    ensures second { HasLanes 8 result.1 (λ k. slice_index weights (2 + k / 4)) }
{
    let narrow = narrowed(weights);
    (
        narrow.swizzle([0, 0, 0, 0, 1, 1, 1, 1]),
        narrow.swizzle([2, 2, 2, 2, 3, 3, 3, 3]),
    )
}

// Loads from arrays and stores to them, and a selection of lanes by channel.
ghost use Rattle.std.specs.Prelude.{◌≡◌, ℕ, ◌+◌, ◌%◌, ◌<◌, ◌≤◌, ◌==◌, if◌then◌else◌, length, slice_index};
ghost use Rattle.texel_lanes.specs.Lanes.{HasLanes, IsPutAt};

use std::simd::prelude::*;

/// Returns sixteen bytes as a vector.
#[inline(always)]
pub fn lanes_of(numbers: &[u8; 16]) -> u8x16
    ensures { result ≡ numbers.now }
{
    u8x16::from_array(*numbers)
}

// The eight bytes from index `at` on.
#[inline(always)]
fn bytes_at(bytes: &[u8], at: usize) -> u8x8
    requires { at + 8 ≤ length bytes.now }
    ensures lanes { HasLanes 8 result (λ k. slice_index bytes.now (at + k)) }
    ensures small { (k : ℕ) → k < 8 → slice_index result k ≤ 255 }
{
    u8x8::from_slice(&bytes[at..])
}

// Widens bytes to 16 bits.
#[inline(always)]
fn widened(bytes: u8x8) -> u16x8
    ensures { result ≡ bytes }
{
    bytes.cast::<u16>()
}

/// Returns the eight bytes from index `at` on (the channels of two texels), widened to 16 bits.
#[inline(always)]
pub fn texels_at(bytes: &[u8], at: usize) -> u16x8
    requires { at + 8 ≤ length bytes.now }
    ensures lanes { HasLanes 8 result (λ k. slice_index bytes.now (at + k)) }
    ensures small { (k : ℕ) → k < 8 → slice_index result k ≤ 255 }
{
    widened(bytes_at(bytes, at))
}

/// Returns the sixteen bytes from index `at` on (the channels of four texels).
#[inline(always)]
pub fn four_texels_at(bytes: &[u8], at: usize) -> u8x16
    requires { at + 16 ≤ length bytes.now }
    ensures { HasLanes 16 result (λ k. slice_index bytes.now (at + k)) }
{
    u8x16::from_slice(&bytes[at..])
}

/// Stores the channels of four texels from index `at` on.
#[inline(always)]
pub fn put_four_texels(bytes: &mut [u8], at: usize, texels: u8x16)
    requires room { at + 16 ≤ length bytes.old }
    requires texels { length texels ≡ 16 }
    ensures { IsPutAt bytes.old at texels bytes.new }
{
    texels.copy_to_slice(&mut bytes[at..]);
}

/// Returns for two texels the lanes of `here` at channel `channel` (0 to 3) and those of
/// `elsewhere` at the other channels.
#[inline(always)]
pub fn at_channel(channel: u8, here: u16x8, elsewhere: u16x8) -> u16x8
    requires here { length here ≡ 8 }
    requires elsewhere { length elsewhere ≡ 8 }
    ensures { HasLanes 8 result (λ k.
        if k % 4 == channel then slice_index here k else slice_index elsewhere k) }
{
    let channels = u16x8::from_array([0, 1, 2, 3, 0, 1, 2, 3]);
    let own = u16x8::splat(u16::from(channel));
    channels.simd_eq(own).select(here, elsewhere)
}

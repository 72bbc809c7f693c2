// Table look-ups with a different index in each lane. The instruction looks up sixteen entries, so
// longer tables need several look-ups and a selection.
ghost use Rattle.std.specs.Prelude.{◌≡◌, ℕ, ◌+◌, ◌%◌, ◌<◌, ◌≤◌, if◌then◌else◌, nat_le, bit_or, length, slice_index};
ghost use Rattle.texel_lanes.specs.Lanes.{AreInOne, HasLanes, MayLookUp, place_in, place_of_target, run_lane};

use std::simd::prelude::*;

// Each lane minus 1; 0 wraps to 255.
#[inline(always)]
fn one_less(targets: u8x16) -> u8x16
    ensures { HasLanes 16 result (λ k. (slice_index targets k + 255) % 256) }
{
    targets - u8x16::splat(1)
}

// The entry of a run of sixteen bytes, from index `at` on, at the low four bits of each lane.
#[inline(always)]
fn looked_up(values: &[u8], at: usize, places: u8x16) -> u8x16
    requires { at + 16 ≤ length values.now }
    ensures { HasLanes 16 result (λ k. slice_index values.now (at + slice_index places k % 16)) }
{
    u8x16::from_slice(&values[at..]).swizzle_dyn(places & u8x16::splat(15))
}

// The lanes of `from` at the places from `least` on, and those of `below` at the others.
#[inline(always)]
fn chosen(places: u8x16, least: u8, from: u8x16, below: u8x16) -> u8x16
    requires from { length from ≡ 16 }
    requires below { length below ≡ 16 }
    ensures { HasLanes 16 result (λ k.
        if nat_le least (slice_index places k) then slice_index from k else slice_index below k) }
{
    places.simd_ge(u8x16::splat(least)).select(from, below)
}

// The index of each target among 64 entries: the entries at 31 and 32 of the table with 65 are
// equal, so targets from 32 on move down by one.
#[inline(always)]
fn places_of(targets: u8x16) -> u8x16
    requires long { length targets ≡ 16 }
    requires targets { (k : ℕ) → k < 16 → slice_index targets k ≤ 64 }
    ensures { HasLanes 16 result (λ k. place_of_target (slice_index targets k)) }
{
    chosen(targets, 32, one_less(targets), targets)
}

/// Returns the entry at each target (0 to 64) of a table of 65 bytes, whose entries at 31 and 32
/// are equal. All tables of quantized weights are of this kind.
#[inline(always)]
pub fn values_at(values: &[u8], targets: u8x16) -> u8x16
    requires all { length values.now ≡ 65 }
    requires long { length targets ≡ 16 }
    requires middle { slice_index values.now 31 ≡ slice_index values.now 32 }
    requires targets { (k : ℕ) → k < 16 → slice_index targets k ≤ 64 }
    ensures { HasLanes 16 result (λ k. slice_index values.now (slice_index targets k)) }
{
    let places = places_of(targets);
    let first = looked_up(values, 0, places);
    let second = looked_up(values, 16, places);
    let third = looked_up(values, 33, places);
    let fourth = looked_up(values, 49, places);
    let low = chosen(places, 16, second, first);
    let high = chosen(places, 48, fourth, third);
    chosen(places, 32, high, low)
}

/// Returns for each lane of `places` the table entry at this index, which is below 16.
#[inline(always)]
pub fn picked(table: u8x16, places: u8x16) -> u8x16
    requires { (k : ℕ) → k < 16 → slice_index places k < 16 }
    ensures { HasLanes 16 result (λ k. slice_index table (slice_index places k)) }
{
    table.swizzle_dyn(places)
}

// The entry of a run of sixteen bytes, from index `start` on, at each place below 16; 0 at places
// from 128 on.
#[inline(always)]
fn run_at(table: &[u8], start: usize, places: u8x16) -> u8x16
    requires all { start + 16 ≤ length table.now }
    requires places { MayLookUp places }
    ensures { HasLanes 16 result (run_lane table.now start places) }
{
    u8x16::from_slice(&table[start..]).swizzle_dyn(places)
}

#[inline(always)]
fn either(first: u8x16, second: u8x16) -> u8x16
    ensures { HasLanes 16 result (λ k. bit_or (slice_index first k) (slice_index second k)) }
{
    first | second
}

/// Returns the entries of a table at sixteen places that lie in two runs of sixteen bytes. `starts`
/// has the first index of each run; `first` and `second` have the offset of each place in its run,
/// and 128 or more in the other run.
#[inline(always)]
pub fn gathered(table: &[u8], starts: (usize, usize), first: u8x16, second: u8x16) -> u8x16
    requires first { starts.0 + 16 ≤ length table.now }
    requires second { starts.1 + 16 ≤ length table.now }
    requires one { AreInOne first second }
    ensures { HasLanes 16 result (λ k. slice_index table.now
        (place_in starts.0 starts.1 (slice_index first k) (slice_index second k))) }
{
    let one = run_at(table, starts.0, first);
    let other = run_at(table, starts.1, second);
    either(one, other)
}

// The origins of the weights of four neighbouring texels: the places whose targets determine them.
ghost use Rattle.std.specs.Prelude.{◌≡◌, ◌⊎◌, ℕ, ◌+◌, ◌*◌, ◌<◌, ◌≤◌, IsTrue, true, false, List, length, slice_index};
ghost use Rattle.astc_model.specs.Footprints.{is_footprint};
ghost use Rattle.texel_lanes.specs.Lanes.{HasLanes, pairs_of, place_in};
ghost use Rattle.texel_error.specs.Groups.{AreFactors, IsOriginGroup, IsLaneKept, group_pairs, place_of_lane};
ghost use Rattle.texel_error.specs.Numerators.{share_sum};

use std::simd::prelude::*;
use texel_lanes::{gathered, lanes_of};

/// The origins of the weights of a group of four texels. The weight of a texel depends on four grid
/// points, and the weight of a grid point on the target at one place; so there are sixteen places,
/// four for each texel, and the factor of each in sixteenths.
#[derive(Clone, Copy)]
pub struct GroupOrigins {
    /// Whether the places lie in two runs of sixteen places, so that two vector look-ups find all.
    pub near: bool,
    /// The first place of each of the two runs.
    pub starts: (u8, u8),
    /// If `near`, the offset of each place in the first run, or 128 if the place is in the second
    /// run; else the places themselves.
    pub first: [u8; 16],
    /// If `near`, the offset of each place in the second run, or 128 if the place is in the first
    /// run.
    pub second: [u8; 16],
    pub factors: [u8; 16],
}

impl GroupOrigins {
    /// Returns the origins with the places stored as they are.
    pub fn of(places: [u8; 16], factors: [u8; 16]) -> GroupOrigins
        ensures near { result.near ≡ false }
        ensures places { result.first ≡ places }
        ensures all { length result.second ≡ 16 }
        ensures factors { result.factors ≡ factors }
    {
        GroupOrigins {
            near: false,
            starts: (0, 0),
            first: places,
            second: [0; 16],
            factors,
        }
    }

    /// Returns the origins with the places stored in two runs of sixteen if there are two runs that
    /// contain them all, else as they are. A place with the factor 0 may be replaced by another
    /// one.
    pub fn in_runs<const W: usize, const H: usize>(
        places: [u8; 16],
        factors: [u8; 16],
    ) -> GroupOrigins
        requires footprint { IsTrue (is_footprint W H) }
        requires places { (k : ℕ) → k < 16 → slice_index places k < W * H }
        requires factors { AreFactors factors }
        ensures group { IsOriginGroup (W * H) result }
        ensures same { (values : List ℕ) (t : ℕ) → t < 4
            → share_sum values (group_pairs result t)
            ≡ share_sum values (pairs_of (slice_index places) factors t) }
    {
        let near = GroupOrigins::near(&places, &factors);
        if near.has::<W, H>(&places) {
            near
        } else {
            GroupOrigins::of(places, factors)
        }
    }

    // The places in two runs: the first begins at the least place with a factor over 0, the second
    // at the least one after the first run. Places outside both runs get wrong offsets.
    fn near(places: &[u8; 16], factors: &[u8; 16]) -> GroupOrigins
        ensures near { result.near ≡ true }
        ensures factors { result.factors ≡ factors.now }
        ensures first { length result.first ≡ 16 }
        ensures second { length result.second ≡ 16 }
    {
        let start = least_from(places, factors, 0);
        let other = least_from(places, factors, start.saturating_add(16));
        let (mut first, mut second) = ([0; 16], [128; 16]);
        for k in 0..16 {
            if factors[k] > 0 && places[k].wrapping_sub(start) >= 16 {
                first[k] = 128;
                second[k] = places[k].wrapping_sub(other);
            } else if factors[k] > 0 {
                first[k] = places[k].wrapping_sub(start);
            }
        }
        GroupOrigins {
            near: true,
            starts: (start, other),
            first,
            second,
            factors: *factors,
        }
    }

    // Whether all places with a factor over 0 lie in the two runs.
    fn has<const W: usize, const H: usize>(&self, places: &[u8; 16]) -> bool
        requires footprint { IsTrue (is_footprint W H) }
        requires first { length self.now.first ≡ 16 }
        requires second { length self.now.second ≡ 16 }
        requires factors { length self.now.factors ≡ 16 }
        ensures first { IsTrue result → self.now.starts.0 ≤ 144 }
        ensures second { IsTrue result → self.now.starts.1 ≤ 144 }
        ensures each { IsTrue result
            → (k : ℕ) → k < 16 → IsLaneKept (W * H) self.now places.now k }
    {
        if self.starts.0 > 144 || self.starts.1 > 144 {
            return false;
        }
        for k in 0..16 {
            if !self.has_at::<W, H>(k, places[k]) {
                return false;
            }
        }
        true
    }

    // Whether lane `k` has this place, or has the factor 0 and any place of the block.
    fn has_at<const W: usize, const H: usize>(&self, k: usize, place: u8) -> bool
        requires footprint { IsTrue (is_footprint W H) }
        requires lane { k < 16 }
        requires first { length self.now.first ≡ 16 }
        requires second { length self.now.second ≡ 16 }
        requires factors { length self.now.factors ≡ 16 }
        ensures { (places : List ℕ) → place ≡ slice_index places k → IsTrue result
            → IsLaneKept (W * H) self.now places k }
    {
        let (first, second) = (self.first[k], self.second[k]);
        let own = place_of(self.starts, first, second);
        are_in_one(first, second)
            && own < W * H
            && (self.factors[k] == 0 || own == usize::from(place))
    }

    /// Returns the entry of a table at the place of each lane.
    #[inline(always)]
    pub fn lanes_at<const W: usize, const H: usize>(&self, table: &[u8; 160]) -> u8x16
        requires footprint { IsTrue (is_footprint W H) }
        requires own { IsOriginGroup (W * H) self.now }
        ensures { HasLanes 16 result (λ k. slice_index table.now (place_of_lane self.now k)) }
    {
        if self.near {
            let starts = (usize::from(self.starts.0), usize::from(self.starts.1));
            gathered(table, starts, lanes_of(&self.first), lanes_of(&self.second))
        } else {
            lanes_of(&each_of(table, &self.first))
        }
    }
}

// The place of a lane, from its offsets in the two runs.
fn place_of(starts: (u8, u8), first: u8, second: u8) -> usize
    ensures { result ≡ place_in starts.0 starts.1 first second }
{
    if first < 16 {
        usize::from(starts.0) + usize::from(first)
    } else {
        usize::from(starts.1) + usize::from(second)
    }
}

// Whether a lane has an offset in the first run only.
fn is_in_first(first: u8, second: u8) -> bool
    ensures { IsTrue result → (first < 16) × (128 ≤ second) }
{
    first < 16 && second >= 128
}

// Whether a lane has an offset in exactly one of the two runs.
fn are_in_one(first: u8, second: u8) -> bool
    ensures { IsTrue result → (first < 16) × (128 ≤ second) ⊎ (128 ≤ first) × (second < 16) }
{
    if is_in_first(first, second) {
        true
    } else {
        is_in_first(second, first)
    }
}

// The least place from `from` on that has a factor over 0; 144 if there is none.
fn least_from(places: &[u8; 16], factors: &[u8; 16], from: u8) -> u8 {
    let mut least = 144;
    for k in 0..16 {
        if factors[k] > 0 && places[k] >= from && places[k] < least {
            least = places[k];
        }
    }
    least
}

// The entries of a table at the places, one by one.
#[inline(never)]
fn each_of(table: &[u8; 160], places: &[u8; 16]) -> [u8; 16]
    requires { (k : ℕ) → k < 16 → slice_index places.now k < 160 }
    ensures { (k : ℕ) → k < 16
        → slice_index result k ≡ slice_index table.now (slice_index places.now k) }
{
    let mut each = [0; 16];
    for k in 0..16 {
        each[k] = table[usize::from(places[k])];
    }
    each
}

// The error of a candidate without its block: texels are "drawn", that is, decoded in groups of
// four directly from endpoints and targets, and only until the error reaches a limit.
ghost use Rattle.std.specs.Prelude.{◌≡◌, ℕ, ◌+◌, ◌-◌, ◌*◌, ◌/◌, ◌%◌, ◌<◌, ◌≤◌, ◌==◌, if◌then◌else◌, IsTrue, List, Option, length, slice_index};
ghost use Rattle.astc_model.specs.Footprints.{is_footprint};
ghost use Rattle.astc_model.specs.Places.{Texel};
ghost use Rattle.astc_model.specs.Weights.{Weighting};
ghost use Rattle.astc_model.specs.declared.block.Block.TheVariants.{Coded as CodedBlock};
ghost use Rattle.astc_model.specs.declared.block.Coded.{Coded as CodedFields};
ghost use Rattle.texel_lanes.specs.Lanes.{HasLanes, squared_apart};
ghost use Rattle.texel_error.specs.Counting.{TakesAtMost};
ghost use Rattle.texel_error.specs.Limited.{under};
ghost use Rattle.texel_error.specs.Numerators.{rounded, share_sum};
ghost use Rattle.texel_error.specs.Orders.{AreSourceLanes, four_sum, lane_error};
ghost use Rattle.texel_error.specs.Drawing.{CanDraw, HaveColours, HaveValues, IsDrawnFrom, drawn_error, drawn_lane, values_of, weight_in};
ghost use Rattle.texel_error.specs.Groups.{IsOriginGroup, group_pairs};
ghost use Rattle.texel_error.specs.Goals.{error_to};
ghost use Rattle.texel_error.specs.Shown.{top_of};

use crate::colours::PlaceColours;
use crate::goal::Goal;
use crate::groups::GroupOrigins;
use crate::order::SourceLanes;
use crate::steps::Steps;
use astc_model::Flavour;
use std::simd::prelude::*;
use texel_lanes::{
    at_channel, lanes_of, mixed, numerators, of_centred, of_repeated, rounded, spread, squares,
    sum_of_squares, texels_at, values_at,
};

/// The grid points of one plane, as drawing needs them: the weight of a grid point is the table
/// entry `values` at the target of the point's place.
#[derive(Clone, Copy)]
pub struct DrawnPoints<'a> {
    /// The quantized weight (0 to 64) for each target, 0 to 64.
    pub values: &'a [u8],
    /// The target of each place, and sixteen more bytes so that vector loads stay in the array.
    pub targets: &'a [u8; 160],
}

/// The data from which the texels of a coded block are drawn.
#[derive(Clone, Copy)]
pub struct Outline<'a> {
    /// The two endpoints of each place.
    pub colours: &'a PlaceColours,
    /// The channel of the second plane, 1 to 4; 0 for one plane.
    pub plane: u8,
    /// For each group of four texels, the places whose targets its weights depend on, with their
    /// factors.
    pub groups: &'a [GroupOrigins; 36],
    /// The grid points of the first plane.
    pub first: DrawnPoints<'a>,
    /// The grid points of the second plane; not used with one plane.
    pub second: DrawnPoints<'a>,
}

// The weights of the four texels of a group in one plane.
#[inline(always)]
fn weights_of<const W: usize, const H: usize>(points: &DrawnPoints, own: &GroupOrigins) -> u32x4
    requires footprint { IsTrue (is_footprint W H) }
    requires points { HaveValues (W * H) points.now }
    requires own { IsOriginGroup (W * H) own.now }
    ensures lanes { HasLanes 4 result (λ t.
        rounded (share_sum (values_of points.now) (group_pairs own.now t))) }
    ensures small { (t : ℕ) → t < 4 → slice_index result t ≤ 64 }
{
    let targets = own.lanes_at::<W, H>(points.targets);
    let values = values_at(points.values, targets);
    rounded(numerators(values, lanes_of(&own.factors)))
}

// The weight of each channel of the texels of a group: of the first two texels, then of the others.
#[inline(always)]
fn channel_weights<const W: usize, const H: usize>(
    outline: &Outline,
    plane: u8,
    own: &GroupOrigins,
) -> (u16x8, u16x8)
    requires footprint { IsTrue (is_footprint W H) }
    requires plane { plane ≡ outline.now.plane }
    requires first { HaveValues (W * H) outline.now.first }
    requires second { HaveValues (W * H) outline.now.second }
    requires own { IsOriginGroup (W * H) own.now }
    ensures first { HasLanes 8 result.0 (λ k. weight_in outline.now own.now (0 + k / 4) (k % 4)) }
    ensures second { HasLanes 8 result.1 (λ k. weight_in outline.now own.now (2 + k / 4) (k % 4)) }
    ensures small_first { (k : ℕ) → k < 8 → slice_index result.0 k ≤ 64 }
    ensures small_second { (k : ℕ) → k < 8 → slice_index result.1 k ≤ 64 }
{
    let (one, other) = spread(weights_of::<W, H>(&outline.first, own));
    if plane == 0 {
        (one, other)
    } else {
        let (second, another) = spread(weights_of::<W, H>(&outline.second, own));
        (
            at_channel(plane - 1, second, one),
            at_channel(plane - 1, another, other),
        )
    }
}

// The decoded bytes of two texels from their interpolated channels.
#[inline(always)]
fn tops_of(flavour: Flavour, mix: u16x8) -> u16x8
    requires { (k : ℕ) → k < 8 → slice_index mix k ≤ 16320 }
    ensures lanes { HasLanes 8 result (λ k. top_of flavour (k % 4) (slice_index mix k)) }
    ensures small { (k : ℕ) → k < 8 → slice_index result k ≤ 255 }
{
    match flavour {
        Flavour::Linear => of_repeated(mix),
        Flavour::Srgb => at_channel(3, of_repeated(mix), of_centred(mix)),
    }
}

// The decoded channels of two texels, whose endpoints are in the lanes from `at` on.
#[inline(always)]
fn shown_at(flavour: Flavour, colours: &PlaceColours, at: usize, weights: u16x8) -> u16x8
    requires colours { HaveColours colours.now }
    requires place { at + 8 ≤ 576 }
    requires long { length weights ≡ 8 }
    requires weights { (k : ℕ) → k < 8 → slice_index weights k ≤ 64 }
    ensures lanes { HasLanes 8 result (λ k. top_of flavour (k % 4)
        (slice_index colours.now.first (at + k) * (64 - slice_index weights k)
        + slice_index colours.now.second (at + k) * slice_index weights k)) }
    ensures small { (k : ℕ) → k < 8 → slice_index result k ≤ 255 }
{
    let first = texels_at(&colours.first, at);
    let second = texels_at(&colours.second, at);
    tops_of(flavour, mixed(first, second, weights))
}

// The weighted squared differences of the channels of two texels from the source, whose channels
// are in the lanes from `at` on.
#[inline(always)]
fn squares_at(shown: u16x8, lanes: &SourceLanes, at: usize) -> u32x8
    requires texels { length lanes.now.texels ≡ 576 }
    requires gains { length lanes.now.gains ≡ 576 }
    requires small_gains { (k : ℕ) → slice_index lanes.now.gains k ≤ 15 }
    requires place { at + 8 ≤ 576 }
    requires long { length shown ≡ 8 }
    requires shown { (k : ℕ) → k < 8 → slice_index shown k ≤ 255 }
    ensures lanes { HasLanes 8 result (λ k. slice_index lanes.now.gains (at + k)
        * squared_apart (slice_index shown k) (slice_index lanes.now.texels (at + k))) }
    ensures small { (k : ℕ) → k < 8 → slice_index result k ≤ 975375 }
{
    let texels = texels_at(&lanes.texels, at);
    let gains = texels_at(&lanes.gains, at);
    squares(shown, texels, gains)
}

// The error of the four texels of group `g`.
#[inline(always)]
fn group_error<const W: usize, const H: usize>(
    flavour: Flavour,
    outline: &Outline,
    plane: u8,
    lanes: &SourceLanes,
    g: usize,
) -> u32
    requires outline { CanDraw W H outline.now }
    requires plane { plane ≡ outline.now.plane }
    requires texels { length lanes.now.texels ≡ 576 }
    requires gains { length lanes.now.gains ≡ 576 }
    requires small_gains { (k : ℕ) → slice_index lanes.now.gains k ≤ 15 }
    requires group { 4 * g < W * H }
    ensures exact { (weights : Weighting) (places : List (Option Texel))
        → AreSourceLanes places weights (W * H) lanes.now
        → result ≡ four_sum (drawn_error flavour outline.now weights places) g }
    ensures small { result ≤ 15606000 }
{
    let (one, other) = channel_weights::<W, H>(outline, plane, &outline.groups[g]);
    let first = shown_at(flavour, outline.colours, 16 * g, one);
    let second = shown_at(flavour, outline.colours, 16 * g + 8, other);
    sum_of_squares(
        squares_at(first, lanes, 16 * g),
        squares_at(second, lanes, 16 * g + 8),
    )
}

// The error if it is under the limit, for a flavour and a plane that the compiler may know.
#[inline(always)]
fn sum_under<const W: usize, const H: usize, L>(
    flavour: Flavour,
    outline: &Outline,
    plane: u8,
    lanes: &SourceLanes,
    goal: &Goal<W, H>,
    limit: u32,
    steps: &mut Steps<L>,
) -> Option<u32>
    requires flavour { flavour ≡ goal.now.flavour }
    requires outline { CanDraw W H outline.now }
    requires plane { plane ≡ outline.now.plane }
    requires lanes { AreSourceLanes goal.now.places goal.now.weights (W * H) lanes.now }
    ensures exact { (coded : CodedFields) → IsDrawnFrom W H goal.now.flavour outline.now coded
        → result ≡ under limit (error_to W H goal.now (CodedBlock coded)) }
    ensures steps { TakesAtMost steps.old steps.new (W * H) }
{
    let mut total = 0;
    for own in lanes.groups() {
        if total >= limit {
            return None;
        }
        steps.count(own.count);
        total += group_error::<W, H>(flavour, outline, plane, lanes, usize::from(own.group));
    }
    if total < limit { Some(total) } else { None }
}

/// Returns the error of the coded block that `outline` describes if it is under `limit`, else None,
/// as [`error_under`](crate::error_under) does. The function draws the groups of places in the
/// order of `lanes` and ends as soon as the sum of their errors reaches the limit. Each inside
/// place of a drawn group counts as one step.
#[inline(always)]
pub fn drawn_under<const W: usize, const H: usize, L>(
    outline: &Outline,
    lanes: &SourceLanes,
    goal: &Goal<W, H>,
    limit: u32,
    steps: &mut Steps<L>,
) -> Option<u32>
    requires outline { CanDraw W H outline.now }
    requires lanes { AreSourceLanes goal.now.places goal.now.weights (W * H) lanes.now }
    ensures exact { (coded : CodedFields) → IsDrawnFrom W H goal.now.flavour outline.now coded
        → result ≡ under limit (error_to W H goal.now (CodedBlock coded)) }
    ensures steps { TakesAtMost steps.old steps.new (W * H) }
{
    // The usual cases have separate loops with constant flavour and plane, which LLVM vectorizes
    // better.
    let (flavour, plane) = (goal.flavour(), outline.plane);
    if plane > 0 {
        return sum_under(flavour, outline, plane, lanes, goal, limit, steps);
    }
    match flavour {
        Flavour::Linear => sum_under(Flavour::Linear, outline, 0, lanes, goal, limit, steps),
        Flavour::Srgb => sum_under(Flavour::Srgb, outline, 0, lanes, goal, limit, steps),
    }
}

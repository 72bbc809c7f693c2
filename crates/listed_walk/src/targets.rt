// The targets of a plane's weights, four texels at a time.
ghost use Rattle.std.specs.Prelude.{◌≡◌, ℕ, ◌+◌, ◌*◌, ◌/◌, ◌<◌, ◌≤◌, None, Some, IsTrue, List, length, slice_index, slice_index_or};
ghost use Rattle.std.specs.List.{All};
ghost use Rattle.astc_model.specs.Candidates.{Ends};
ghost use Rattle.astc_model.specs.Places.{Texel};
ghost use Rattle.candidates.specs.Axes.{IsAxis};
ghost use Rattle.candidates.specs.Pieces.{place_target};
ghost use Rattle.texel_error.specs.Orders.{AreSourceLanes};
ghost use Rattle.listed_walk.specs.Shared.{IsSourceShape};
ghost use Rattle.listed_walk.specs.Targets.{AreAxisTables, ArePlaneAxes, AreReaches, AreReachesOf, AreSmallAxes, AreTargetsTo, IsReach, axis_at, origin_of, origins_of, rises_of};

use crate::levels::SourceShape;
use candidates::{Axis, axes_of, target_along};
use std::simd::prelude::*;
use texel_error::{Goal, SourceLanes, put_texel};
use texel_lanes::{along, four_texels_at, lanes_of, picked, quarters_of, rests_of};

/// The numbers of up to four axes by channel, four bytes for each axis.
#[derive(Drop)]
struct AxisTables {
    /// The first colours.
    firsts: [u8; 16],
    /// How far each channel rises or falls.
    rises: [u8; 16],
    /// 0 for a channel that rises, 255 for one that falls.
    origins: [u8; 16],
}

/// The axes of a plane: for each partition, and for each of its channels.
#[derive(Drop)]
pub struct PlaneAxes {
    axes: [Axis; 4],
    /// 0 for a channel that rises, 255 for one that falls.
    origins: [u8; 16],
    /// A quarter of each rise, rounded down, and the rest.
    quarters: [u8; 16],
    rests: [u8; 16],
    /// How far the first colour of each partition reaches.
    starts: [u32; 4],
}

// The lanes as they are. A clause says here that they are bytes.
#[inline(always)]
fn bytes(lanes: u8x16) -> u8x16
    ensures same { result ≡ lanes }
    ensures small { (k : ℕ) → k < 16 → slice_index result k ≤ 255 }
{
    lanes
}

// The end of the range of bytes from which a channel with this rise reaches.
#[inline(always)]
fn origin_of(rise: i32) -> u8
    ensures { result ≡ origin_of rise }
{
    if rise < 0 { 255 } else { 0 }
}

#[inline(always)]
fn origins_of(axis: &Axis) -> [u8; 4]
    ensures { result ≡ origins_of axis.now }
{
    [
        origin_of(axis.red),
        origin_of(axis.green),
        origin_of(axis.blue),
        origin_of(axis.alpha),
    ]
}

#[inline(always)]
fn rises_of(axis: &Axis) -> [u8; 4]
    requires { IsAxis axis.now }
    ensures { result ≡ rises_of axis.now }
{
    [
        axis.red.unsigned_abs() as u8,
        axis.green.unsigned_abs() as u8,
        axis.blue.unsigned_abs() as u8,
        axis.alpha.unsigned_abs() as u8,
    ]
}

impl AxisTables {
    // The tables of the first axes.
    #[inline(always)]
    fn of(axes: &[Axis; 4], count: usize) -> AxisTables
        requires axes { All IsAxis axes.now }
        requires few { count ≤ 4 }
        ensures { AreAxisTables axes.now count result }
    {
        let (mut firsts, mut rises, mut origins) = ([0; 16], [0; 16], [0; 16]);
        for part in 0..count {
            let axis = &axes[part];
            put_texel(&mut firsts, part, axis.first);
            put_texel(&mut rises, part, rises_of(axis));
            put_texel(&mut origins, part, origins_of(axis));
        }
        AxisTables {
            firsts,
            rises,
            origins,
        }
    }
}

impl PlaneAxes {
    /// The axes of the partitions between their colours; `component` is the channel of the second
    /// plane, counted from 1.
    #[inline(always)]
    pub fn of(component: u8, plane: u8, ends: &[([u8; 4], [u8; 4])]) -> PlaneAxes
        requires { length ends.now ≤ 4 }
        ensures axes { ArePlaneAxes component plane ends.now result }
        ensures small { AreSmallAxes result }
    {
        let axes = axes_of(component, plane, ends);
        let tables = AxisTables::of(&axes, ends.len());
        let (origins, rises) = (lanes_of(&tables.origins), lanes_of(&tables.rises));
        let (quarters, rests) = (quarters_of(rises), rests_of(rises));
        let starts = along(bytes(lanes_of(&tables.firsts)), origins, quarters, rests);
        PlaneAxes {
            axes,
            origins: tables.origins,
            quarters: quarters.to_array(),
            rests: rests.to_array(),
            starts: starts.to_array(),
        }
    }

    // How far each of four texels reaches, by the entries of its partition.
    #[inline(always)]
    fn reaches(&self, own: u8x16, texels: u8x16) -> [u32; 4]
        requires axes { AreSmallAxes self.now }
        requires own { (k : ℕ) → k < 16 → slice_index own k < 16 }
        requires texels { length texels ≡ 16 }
        ensures { AreReaches self.now own texels result }
    {
        let origins = picked(lanes_of(&self.origins), own);
        let quarters = picked(lanes_of(&self.quarters), own);
        let rests = picked(lanes_of(&self.rests), own);
        along(texels, origins, quarters, rests).to_array()
    }
}

// The target at a place, from the reach of its texel; 0 if it is outside.
#[inline(always)]
fn target_at(axes: &PlaneAxes, parts: &[u8], places: &[Option<[u8; 4]>], p: usize, reach: u32) -> u8
    requires axes { AreSmallAxes axes.now }
    requires map { length parts.now ≡ length places.now }
    requires parts { (p : ℕ) → p < length places.now → slice_index parts.now p < 4 }
    requires reach { reach ≤ 260100 }
    ensures exact { (component plane : ℕ) (ends : List Ends)
        → ArePlaneAxes component plane ends axes.now
        → (p < length places.now → slice_index parts.now p < length ends)
        → ((q : Texel) → p < length places.now → slice_index_or places.now p None ≡ Some q
        → IsReach (axis_at axes.now.axes (slice_index parts.now p)) q reach)
        → result ≡ place_target component plane parts.now ends places.now p }
    ensures small { result ≤ 64 }
{
    if p >= places.len() {
        return 0;
    }
    match places[p] {
        None => 0,
        Some(_) => {
            let part = usize::from(parts[p]);
            target_along(&axes.axes[part], reach, axes.starts[part])
        }
    }
}

// Puts the targets of a group of four places, from the reaches of its texels.
#[inline(always)]
fn put_group(
    targets: &mut [u8; 160],
    axes: &PlaneAxes,
    parts: &[u8],
    places: &[Option<[u8; 4]>],
    g: usize,
    reaches: &[u32; 4],
)
    requires axes { AreSmallAxes axes.now }
    requires map { length parts.now ≡ length places.now }
    requires parts { (p : ℕ) → p < length places.now → slice_index parts.now p < 4 }
    requires group { g < 36 }
    requires reaches { (t : ℕ) → t < 4 → slice_index reaches.now t ≤ 260100 }
    ensures { (component plane : ℕ) (ends : List Ends)
        → ArePlaneAxes component plane ends axes.now
        → ((p : ℕ) → p < length places.now → slice_index parts.now p < length ends)
        → AreReachesOf axes.now parts.now places.now g reaches.now
        → AreTargetsTo component plane parts.now ends places.now (4 * g) targets.old
        → AreTargetsTo component plane parts.now ends places.now (4 * g + 4) targets.new }
{
    targets[4 * g] = target_at(axes, parts, places, 4 * g, reaches[0]);
    targets[4 * g + 1] = target_at(axes, parts, places, 4 * g + 1, reaches[1]);
    targets[4 * g + 2] = target_at(axes, parts, places, 4 * g + 2, reaches[2]);
    targets[4 * g + 3] = target_at(axes, parts, places, 4 * g + 3, reaches[3]);
}

/// Puts the target of a plane at each place of a source.
pub fn put_targets<const W: usize, const H: usize>(
    targets: &mut [u8; 160],
    plane: u8,
    layout: &SourceShape,
    ends: &[([u8; 4], [u8; 4])],
    source: &SourceLanes,
    goal: &Goal<W, H>,
)
    requires layout { IsSourceShape W H goal.now layout.now }
    requires few { length ends.now ≤ 4 }
    requires parts { (p : ℕ) → p < W * H → slice_index layout.now.parts.now p < length ends.now }
    requires source { AreSourceLanes goal.now.places goal.now.weights (W * H) source.now }
    ensures { AreTargetsTo layout.now.shape.now.plane plane layout.now.parts.now ends.now
        goal.now.places (W * H) targets.new }
{
    let axes = PlaneAxes::of(layout.shape.plane, plane, ends);
    let places = goal.source().places();
    for g in 0..(W * H + 3) / 4 {
        let own = four_texels_at(&layout.partitions.lanes, 16 * g);
        let reaches = axes.reaches(own, four_texels_at(&source.texels, 16 * g));
        put_group(targets, &axes, layout.parts, places, g, &reaches);
    }
}

// The weights of a block. The places of a grid's points are shared by all candidates with the grid,
// the targets by all candidates with the same endpoints.
ghost use Rattle.std.specs.Prelude.{◌≡◌, ℕ, ◌<◌, ◌≤◌, ◌*◌, ◌/◌, ◌%◌, IsTrue, IfSome, IsSome, None, List, length, take, slice_index, slice_index_or};
ghost use Rattle.std.specs.List.{All};
ghost use Rattle.astc_model.specs.Footprints.{is_footprint};
ghost use Rattle.astc_model.specs.Levels.{count_of};
ghost use Rattle.astc_model.specs.Candidates.{Ends};
ghost use Rattle.candidates.specs.NearestPlaces.{TakesNearest};
ghost use Rattle.candidates.specs.Sides.{IsGridSize};
ghost use Rattle.candidates.specs.Axes.{axis_of, IsAxis, AreAxes};
ghost use Rattle.candidates.specs.Pieces.{grid_places, texel_target, place_target, target_map, AreTargets, point_target, weight_from, weights_from};

use crate::sides::grid_of_sides;
use crate::targets::{Axis, axis_of, place_of_point, target};
use arrayvec::ArrayVec;
use astc_model::Level;
use quant_tables::nearest_weight;

// Whether all places are inside the image.
fn are_inside(places: &[Option<[u8; 4]>]) -> bool
    ensures inside { IsTrue result → All IsSome places.now }
{
    places.iter().all(|place| place.is_some())
}

// The place as a byte, which saves memory in tables of many grids.
fn in_a_byte(place: Option<usize>) -> Option<u8>
    requires { IfSome place (λ p. p < 144) }
    ensures { result ≡ place }
{
    match place {
        None => None,
        Some(p) => Some(p as u8),
    }
}

// The closest inside place of each grid point, found by comparing all places.
#[tactic(auto, unfolding(crate::specs::Pieces::grid_places), using(crate::proofs::LoopLaws::map_range_more))]
fn grid_of_inside<const W: usize, const H: usize>(
    n: u8,
    m: u8,
    places: &[Option<[u8; 4]>],
) -> ArrayVec<Option<u8>, 64>
    requires footprint { IsTrue (is_footprint W H) }
    requires grid { IsGridSize n m }
    requires places { length places.now ≡ W * H }
    ensures { result.items ≡ grid_places W H n m places.now }
{
    let mut grid = ArrayVec::new();
    for k in 0..n * m {
        let place = place_of_point::<W, H>(n, m, places, k);
        grid.push(in_a_byte(place));
    }
    grid
}

// The closest inside place of each grid point; found by columns and rows if all places are inside.
fn grid_of<const W: usize, const H: usize>(
    n: u8,
    m: u8,
    places: &[Option<[u8; 4]>],
) -> ArrayVec<Option<u8>, 64>
    requires footprint { IsTrue (is_footprint W H) }
    requires grid { IsGridSize n m }
    requires places { length places.now ≡ W * H }
    ensures { result.items ≡ grid_places W H n m places.now }
{
    if are_inside(places) {
        grid_of_sides::<W, H>(n, m)
    } else {
        grid_of_inside::<W, H>(n, m, places)
    }
}

/// Returns the place from which each point of a grid of `n` by `m` takes its weight: the closest
/// place inside the image; at a tie the first in row order; None if no place is inside. All
/// candidates with this grid share the list.
pub fn grid_places<const W: usize, const H: usize>(
    n: u8,
    m: u8,
    places: &[Option<[u8; 4]>],
) -> ArrayVec<Option<u8>, 64>
    requires footprint { IsTrue (is_footprint W H) }
    requires some_columns { 1 ≤ n }
    requires columns { n ≤ 12 }
    requires some_rows { 1 ≤ m }
    requires rows { m ≤ 12 }
    requires points { n * m ≤ 64 }
    requires places { length places.now ≡ W * H }
    ensures places { result.items ≡ grid_places W H n m places.now }
    ensures nearest { (k : ℕ) → k < n * m → TakesNearest W H n m places.now k
        (slice_index_or result.items k None) }
    ensures within { All (λ place. IfSome place (λ p. p < W * H)) result.items }
{
    grid_of::<W, H>(n, m, places)
}

/// Returns the axis of each partition for the channels of plane 0 or 1; `ends` has the endpoints of
/// the partitions. `component` is the channel of the second plane, 1 to 4.
pub fn axes_of(component: u8, plane: u8, ends: &[([u8; 4], [u8; 4])]) -> [Axis; 4]
    requires few { length ends.now ≤ 4 }
    ensures { AreAxes component plane ends.now result }
{
    let mut axes = [axis_of(0, 0, &([0; 4], [0; 4])); 4];
    for part in 0..ends.len() {
        axes[part] = axis_of(component, plane, &ends[part]);
    }
    axes
}

#[inline(always)]
fn texel_target(axis: &Axis, texel: Option<[u8; 4]>) -> u8
    requires axis { IsAxis axis.now }
    ensures target { (component plane : ℕ) (ends : Ends) → axis.now ≡ axis_of component plane ends
        → result ≡ texel_target component plane texel ends }
    ensures small { result ≤ 64 }
{
    match texel {
        None => 0,
        Some(q) => target(axis, &q),
    }
}

#[inline(always)]
#[tactic(auto, unfolding(crate::specs::Pieces::place_target))]
fn place_target(parts: &[u8], axes: &[Axis; 4], places: &[Option<[u8; 4]>], p: usize) -> u8
    requires map { p < length parts.now }
    requires places { p < length places.now }
    requires part { slice_index parts.now p < 4 }
    requires axes { All IsAxis axes.now }
    ensures target { (component plane : ℕ) (ends : List Ends)
        → slice_index parts.now p < length ends → AreAxes component plane ends axes.now
        → result ≡ place_target component plane parts.now ends places.now p }
    ensures small { result ≤ 64 }
{
    texel_target(&axes[usize::from(parts[p])], places[p])
}

/// Returns the target of each place in plane 0 or 1; 0 for places outside the image. All candidates
/// with these endpoints share the list.
#[tactic(auto, unfolding(crate::specs::Pieces::target_map))]
pub fn target_map(
    component: u8,
    plane: u8,
    parts: &[u8],
    ends: &[([u8; 4], [u8; 4])],
    places: &[Option<[u8; 4]>],
) -> [u8; 144]
    requires map { length parts.now ≡ length places.now }
    requires few { length places.now ≤ 144 }
    requires few_parts { length ends.now ≤ 4 }
    requires parts { (p : ℕ) → p < length places.now → slice_index parts.now p < length ends.now }
    ensures targets { take (length places.now) result
        ≡ target_map component plane parts.now ends.now places.now (length places.now) }
    ensures small { All (λ target. target ≤ 64) (take (length places.now) result) }
{
    let axes = axes_of(component, plane, ends);
    let mut targets = [0; 144];
    for p in 0..places.len() {
        targets[p] = place_target(parts, &axes, places, p);
    }
    targets
}

/// The targets of each place in both planes.
#[derive(Drop)]
pub struct Targets {
    /// The targets of the second plane; not used in blocks with one plane.
    pub first: [u8; 144],
    /// The targets of the second plane; those of the first plane in blocks with one plane.
    pub second: [u8; 144],
}

/// Returns the targets of each place for blocks with one or two planes; `component` is the channel
/// of the second plane, 1 to 4. All candidates with these endpoints share the targets.
pub fn targets_of(
    component: u8,
    planes: u8,
    parts: &[u8],
    ends: &[([u8; 4], [u8; 4])],
    places: &[Option<[u8; 4]>],
) -> Targets
    requires map { length parts.now ≡ length places.now }
    requires few { length places.now ≤ 144 }
    requires few_parts { length ends.now ≤ 4 }
    requires parts { (p : ℕ) → p < length places.now → slice_index parts.now p < length ends.now }
    ensures { AreTargets component planes parts.now ends.now places.now (length places.now) result }
{
    let first = target_map(component, 0, parts, ends, places);
    let second = if planes == 2 {
        target_map(component, 1, parts, ends, places)
    } else {
        first
    };
    Targets { first, second }
}

// The target at the place of a grid point; 0 if no place is inside the image.
#[inline(always)]
fn point_target(targets: &[u8], place: Option<u8>) -> u8
    requires within { IfSome place (λ p. p < length targets.now) }
    requires small { All (λ target. target ≤ 64) targets.now }
    ensures target { result ≡ point_target targets.now place }
    ensures small { result ≤ 64 }
{
    match place {
        None => 0,
        Some(p) => targets[usize::from(p)],
    }
}

#[tactic(auto, unfolding(crate::specs::Pieces::weight_from))]
fn weight_from(
    level: Level,
    planes: u8,
    grid: &[Option<u8>],
    first: &[u8],
    second: &[u8],
    at: u8,
) -> u8
    requires level { count_of level ≤ 32 }
    requires some_plane { 1 ≤ planes }
    requires point { at / planes < length grid.now }
    requires first { All (λ target. target ≤ 64) first.now }
    requires second { All (λ target. target ≤ 64) second.now }
    requires within { All (λ place. IfSome place (λ p. p < length first.now)) grid.now }
    requires same { length first.now ≡ length second.now }
    ensures { result ≡ weight_from level planes grid.now first.now second.now at }
{
    if planes == 1 {
        return nearest_weight(level, point_target(first, grid[usize::from(at)]));
    }
    let place = grid[usize::from(at / planes)];
    if at % planes == 0 {
        nearest_weight(level, point_target(first, place))
    } else {
        nearest_weight(level, point_target(second, place))
    }
}

/// Returns the weight integers of a block: for each grid point and plane, the integer whose value
/// is closest to the target at the point's place. With two planes the two integers of a point
/// follow each other.
#[tactic(auto, unfolding(crate::specs::Pieces::weights_from), using(crate::proofs::LoopLaws::map_range_more, crate::proofs::LoopLaws::point_below))]
pub fn weights_from(
    level: Level,
    planes: u8,
    grid: &[Option<u8>],
    first: &[u8],
    second: &[u8],
) -> ArrayVec<u8, 64>
    requires level { count_of level ≤ 32 }
    requires some_plane { 1 ≤ planes }
    requires planes { planes ≤ 2 }
    requires points { length grid.now * planes ≤ 64 }
    requires first { All (λ target. target ≤ 64) first.now }
    requires second { All (λ target. target ≤ 64) second.now }
    requires within { All (λ place. IfSome place (λ p. p < length first.now)) grid.now }
    requires same { length first.now ≡ length second.now }
    ensures { result.items ≡ weights_from level planes (length grid.now * planes) grid.now first.now
        second.now }
{
    let mut weights = ArrayVec::new();
    for at in 0..grid.len() * usize::from(planes) {
        weights.push(weight_from(level, planes, grid, first, second, at as u8));
    }
    weights
}

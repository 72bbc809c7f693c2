// The value of one colour integer with the least error.
ghost use Rattle.std.specs.Prelude.{◌≡◌, ◌≢◌, ℕ, ◌+◌, ◌-◌, ◌*◌, ◌<◌, ◌≤◌, IfSome, Some, IsTrue, length, slice_index, slice_set};
ghost use Rattle.astc_model.specs.Limits.{most_block_error};
ghost use Rattle.astc_model.specs.Endpoints.{endpoint_integers};
ghost use Rattle.astc_model.specs.Levels.{count_of};
ghost use Rattle.texel_error.specs.Counting.{TakesAtMost};
ghost use Rattle.texel_error.specs.Limited.{under};
ghost use Rattle.error_tables.specs.Floors.{IsSmallFloor};
ghost use Rattle.error_tables.specs.Trials.{AreTablesSmall};
ghost use Rattle.error_state.specs.ColourScans.{IsLimit};
ghost use Rattle.colour_bounds.specs.Orders.{integer_on};
ghost use Rattle.colour_bounds.specs.OwnWalks.{EndsAt, IsInTrend, IsOwnWalk};
ghost use Rattle.colour_bounds.specs.PartScans.{integer_of};
ghost use Rattle.colour_bounds.specs.Bounds.{AreValueBounds, IsSingleChannel};
ghost use Rattle.colour_bounds.specs.OneChannel.{moves_one, moved_ends};
ghost use Rattle.colour_bounds.specs.declared.one_channel.Trend.TheVariants.{Rising};
ghost use Rattle.astc_model.specs.ColourValues.{colour_value};
ghost use Rattle.colour_bounds.specs.PartScans.{IsPartScan, state_of};
ghost use Rattle.error_state.specs.Scans.{error_now, error_with_value, reach_count, IsBetter, least_of, better_of};
ghost use Rattle.error_state.specs.declared.kinds.CodedKind.TheVariants.{Colour as OfColour};

use crate::scans::{Better, better_of};
use colour_bounds::{
    OwnWalk, PartitionScan, Trend, ValueBounds, ends_tried, ends_with, integer_on,
    is_far_by_channel, is_far_by_three_channels, is_single_channel, single_channel_error_under,
    value_bounds_of, value_of, values_to_try, walk_ends, walk_error_under, walk_of,
};
use error_tables::weight_of;
use moments::most;
use texel_error::Steps;

/// The best value of a colour integer so far, and what the next one has to get under.
#[derive(Clone, Copy)]
pub struct Limit {
    pub best: Option<Better>,
    /// The bar that the errors of the partition's places have to be below.
    pub bar: u32,
    /// The least form that says that they are not.
    pub most: u64,
}

/// The limit before a value was tried: the block's error.
pub fn first_limit<const W: usize, const H: usize>(scan: &PartitionScan) -> Limit
    requires { IsPartScan W H scan.now }
    ensures none { result.best ≡ None }
    ensures limit { IsLimit scan.now result }
{
    Limit {
        best: None,
        bar: scan.floor.taken,
        most: scan.most,
    }
}

// The limit of a value.
fn limit_of(scan: &PartitionScan, better: Better) -> Limit
    requires small { AreTablesSmall scan.now.tables.now }
    requires small_floor { IsSmallFloor scan.now.floor }
    requires less { better.error ≤ scan.now.tables.now.total }
    ensures best { result.best ≡ Some better }
    ensures limit { IsLimit scan.now result }
{
    let floor = &scan.floor;
    let bar = (better.error + floor.taken).saturating_sub(scan.tables.total);
    Limit {
        best: Some(better),
        bar,
        most: most(u64::from(bar), weight_of(scan.tables, floor)),
    }
}

// Lowers the limit after another value was tried, whose error is given if it is below the limit.
#[inline(always)]
fn lower(scan: &PartitionScan, limit: &mut Limit, value: u8, tried: Option<u32>)
    requires small { AreTablesSmall scan.now.tables.now }
    requires small_floor { IsSmallFloor scan.now.floor }
    requires limit { IsLimit scan.now limit.old }
    requires less { IfSome tried (λ error. error ≤ scan.now.tables.now.total) }
    ensures best { limit.new.best ≡ better_of limit.old.best value tried }
    ensures limit { IsLimit scan.now limit.new }
{
    if let Some(error) = tried {
        *limit = limit_of(scan, Better { value, error });
    }
}

// The error of the block with a colour integer of a part at another value, if it is under the
// limit.
#[inline(never)]
fn colour_tried<const W: usize, const H: usize, L>(
    scan: &PartitionScan,
    place: u8,
    value: u8,
    limit: &Limit,
    steps: &mut Steps<L>,
) -> Option<u32>
    requires scan { IsPartScan W H scan.now }
    requires place { place < endpoint_integers scan.now.cem }
    requires range { value < count_of scan.now.tables.now.level }
    requires limit { IsLimit scan.now limit.now }
    ensures exact { result ≡ under (least_of scan.now.tables.now.total limit.now.best)
        (error_with_value W H (state_of scan.now) OfColour (integer_of scan.now place) value) }
    ensures steps { TakesAtMost steps.old steps.new
        (reach_count W H (state_of scan.now) OfColour (integer_of scan.now place)) }
{
    let ends = ends_with(scan, place, value_of(scan.tables.level, value));
    ends_tried::<W, H, L>(scan, &ends, limit.bar, limit.most, steps)
}

// The error of the block if this is the sum of the errors of the partition's places, and the sum is
// below the bar.
fn told_under(scan: &PartitionScan, error: u32, bar: u32) -> Option<u32>
    requires total { scan.now.tables.now.total ≤ most_block_error }
    requires error { error ≤ 702270000 }
    ensures { (limit whole : ℕ) → bar ≡ limit + scan.now.floor.taken - scan.now.tables.now.total
        → whole + scan.now.floor.taken ≡ scan.now.tables.now.total + error → result
        ≡ under limit whole }
{
    if error < bar {
        Some((scan.tables.total + error).saturating_sub(scan.floor.taken))
    } else {
        None
    }
}

// A step for each of these places.
#[inline(always)]
fn tick_each<L>(reach: &[u8], steps: &mut Steps<L>)
    ensures { TakesAtMost steps.old steps.new (length reach.now) }
{
    for _place in reach {
        steps.tick();
    }
}

// The error of the block with a colour integer of a part at another value, which moves one channel,
// if it is under the limit.
fn single_channel_tried<const W: usize, const H: usize, L>(
    scan: &PartitionScan,
    place: u8,
    value: u8,
    kept: u32,
    limit: &Limit,
    steps: &mut Steps<L>,
) -> Option<u32>
    requires scan { IsPartScan W H scan.now }
    requires place { place < endpoint_integers scan.now.cem }
    requires single { IsSingleChannel scan.now Rising place kept }
    requires range { value < count_of scan.now.tables.now.level }
    requires rises { IsTrue
        (moves_one Rising scan.now.cem
        (slice_set scan.now.values place (colour_value scan.now.tables.now.level value))
        place) }
    requires limit { IsLimit scan.now limit.now }
    ensures exact { result ≡ under (least_of scan.now.tables.now.total limit.now.best)
        (error_with_value W H (state_of scan.now) OfColour (integer_of scan.now place) value) }
    ensures steps { TakesAtMost steps.old steps.new
        (reach_count W H (state_of scan.now) OfColour (integer_of scan.now place)) }
{
    tick_each(scan.reach, steps);
    let byte = value_of(scan.tables.level, value);
    let bar = (limit.bar + kept).saturating_sub(scan.floor.taken);
    match single_channel_error_under::<W, H>(scan, place, byte, bar) {
        None => None,
        Some(moved) => told_under(scan, scan.floor.taken - kept + moved, limit.bar),
    }
}

// The error with any value, unless the form of the ends with it is known to be far.
#[inline(always)]
fn tried_in_bounds<const W: usize, const H: usize, const MODE: u8, L>(
    scan: &PartitionScan,
    bounds: &ValueBounds,
    place: u8,
    value: u8,
    limit: &Limit,
    steps: &mut Steps<L>,
) -> Option<u32>
    requires scan { IsPartScan W H scan.now }
    requires mode { MODE < 16 → scan.now.cem ≡ MODE }
    requires place { place < endpoint_integers scan.now.cem }
    requires bounds { AreValueBounds scan.now place bounds.now }
    requires range { value < count_of scan.now.tables.now.level }
    requires limit { IsLimit scan.now limit.now }
    ensures exact { result ≡ under (least_of scan.now.tables.now.total limit.now.best)
        (error_with_value W H (state_of scan.now) OfColour (integer_of scan.now place) value) }
    ensures steps { TakesAtMost steps.old steps.new
        (reach_count W H (state_of scan.now) OfColour (integer_of scan.now place)) }
{
    let byte = value_of(scan.tables.level, value);
    if bounds.reaches::<MODE>(byte, limit.most) {
        return None;
    }
    let most = limit.most;
    if is_far_by_channel::<W, H, MODE>(scan, Trend::Rising, &bounds.rising, place, byte, most) {
        return None;
    }
    if is_far_by_channel::<W, H, MODE>(scan, Trend::Falling, &bounds.falling, place, byte, most) {
        return None;
    }
    if is_far_by_three_channels::<W, H, MODE>(scan, &bounds.three, place, byte, most) {
        return None;
    }
    match bounds.single {
        Some(kept) => {
            if is_single_channel(scan, place, byte) {
                single_channel_tried::<W, H, L>(scan, place, value, kept, limit, steps)
            } else {
                colour_tried::<W, H, L>(scan, place, value, limit, steps)
            }
        }
        None => colour_tried::<W, H, L>(scan, place, value, limit, steps),
    }
}

// The best of the values of a part's colour integer from `from` on and before `to`, none of which
// it has, and of the one found before.
fn best_colour_between<const W: usize, const H: usize, const MODE: u8, L>(
    scan: &PartitionScan,
    bounds: &ValueBounds,
    place: u8,
    from: u16,
    to: u16,
    found: Limit,
    steps: &mut Steps<L>,
) -> Limit
    requires scan { IsPartScan W H scan.now }
    requires mode { MODE < 16 → scan.now.cem ≡ MODE }
    requires place { place < endpoint_integers scan.now.cem }
    requires bounds { AreValueBounds scan.now place bounds.now }
    requires order { from ≤ to }
    requires range { to ≤ count_of scan.now.tables.now.level }
    requires few { to ≤ 256 }
    requires others { (value : ℕ) → from ≤ value → value < to
        → value ≢ slice_index scan.now.tables.now.block.colours.items
        (integer_of scan.now place) }
    requires limit { IsLimit scan.now found }
    requires found { IfSome found.best
        (IsBetter W H (state_of scan.now) OfColour (integer_of scan.now place)) }
    ensures limit { IsLimit scan.now result }
    ensures better { IfSome result.best
        (IsBetter W H (state_of scan.now) OfColour (integer_of scan.now place)) }
    ensures least { (value : ℕ) → from ≤ value → value < to
        → least_of (error_now W H (state_of scan.now)) result.best ≤ error_with_value W H
        (state_of scan.now) OfColour (integer_of scan.now place) value }
    ensures falls { least_of (error_now W H (state_of scan.now)) result.best ≤ least_of
        (error_now W H (state_of scan.now)) found.best }
    ensures steps { TakesAtMost steps.old steps.new
        ((to - from) * reach_count W H (state_of scan.now) OfColour
        (integer_of scan.now place)) }
{
    let mut limit = found;
    for value in from..to {
        let value = value as u8;
        let tried = tried_in_bounds::<W, H, MODE, L>(scan, bounds, place, value, &limit, steps);
        lower(scan, &mut limit, value, tried);
    }
    limit
}

// The error that a value has to get under: the least so far, or that and 1 if the value is less
// than the best one, so that of equal values the least is kept in any order.
#[inline(always)]
fn least_for(total: u32, best: Option<Better>, value: u8) -> u32
    requires best { IfSome best (λ better. better.error < total) }
    requires small { total ≤ most_block_error }
    ensures least { least_of total best ≤ result }
    ensures most { result ≤ total }
    ensures tie { result ≤ least_of total best + 1 }
{
    match best {
        None => total,
        Some(better) => {
            if value < better.value {
                better.error + 1
            } else {
                better.error
            }
        }
    }
}

// The error of the block with a value in a walk's trend, if it is under the limit.
fn own_tried<const W: usize, const H: usize, L>(
    scan: &PartitionScan,
    walk: &OwnWalk,
    place: u8,
    ends: (u8, u8),
    least: u32,
    steps: &mut Steps<L>,
) -> Option<u32>
    requires scan { IsPartScan W H scan.now }
    requires place { place < endpoint_integers scan.now.cem }
    requires walk { IsOwnWalk W H scan.now place walk.now }
    requires least { least ≤ scan.now.tables.now.total }
    ensures exact { (value : ℕ) → value < count_of scan.now.tables.now.level
        → IsInTrend scan.now walk.now.trend place (colour_value scan.now.tables.now.level value)
        → ends ≡ moved_ends walk.now.trend scan.now.cem
        (slice_set scan.now.values place (colour_value scan.now.tables.now.level value)) place
        → result ≡ under least (error_with_value W H (state_of scan.now) OfColour
        (integer_of scan.now place) value) }
    ensures steps { TakesAtMost steps.old steps.new
        (reach_count W H (state_of scan.now) OfColour (integer_of scan.now place)) }
{
    tick_each(scan.reach, steps);
    let bar = (least + walk.kept).saturating_sub(scan.tables.total);
    match walk_error_under::<W, H>(scan, place, ends, bar) {
        None => None,
        Some(moved) => Some((scan.tables.total + moved).saturating_sub(walk.kept)),
    }
}

// The error of the block with any value, if it is under the limit.
#[inline(always)]
fn walk_tried<const W: usize, const H: usize, const MODE: u8, L>(
    scan: &PartitionScan,
    walk: &OwnWalk,
    place: u8,
    value: u8,
    least: u32,
    steps: &mut Steps<L>,
) -> Option<u32>
    requires scan { IsPartScan W H scan.now }
    requires mode { MODE < 16 → scan.now.cem ≡ MODE }
    requires place { place < endpoint_integers scan.now.cem }
    requires walk { IsOwnWalk W H scan.now place walk.now }
    requires range { value < count_of scan.now.tables.now.level }
    requires least { least ≤ scan.now.tables.now.total }
    ensures exact { result ≡ under least (error_with_value W H (state_of scan.now) OfColour
        (integer_of scan.now place) value) }
    ensures steps { TakesAtMost steps.old steps.new
        (reach_count W H (state_of scan.now) OfColour (integer_of scan.now place)) }
{
    match walk_ends::<MODE>(scan, walk.trend, place, value_of(scan.tables.level, value)) {
        None => None,
        Some(ends) => own_tried::<W, H, L>(scan, walk, place, ends, least, steps),
    }
}

// Whether a walk ends at a position, which has this value.
#[inline(always)]
fn ends_at<const W: usize, const H: usize, const MODE: u8>(
    scan: &PartitionScan,
    walk: &OwnWalk,
    place: u8,
    value: u8,
) -> bool
    requires scan { IsPartScan W H scan.now }
    requires mode { MODE < 16 → scan.now.cem ≡ MODE }
    requires place { place < endpoint_integers scan.now.cem }
    requires walk { IsOwnWalk W H scan.now place walk.now }
    requires range { value < count_of scan.now.tables.now.level }
    ensures { IsTrue result → (at : ℕ)
        → value ≡ integer_on (count_of scan.now.tables.now.level) walk.now.order at
        → EndsAt scan.now place walk.now at }
{
    match walk_ends::<MODE>(scan, walk.trend, place, value_of(scan.tables.level, value)) {
        None => false,
        Some(ends) => walk.is_far(ends),
    }
}

// The better one of a value and of the best one so far.
#[inline(always)]
fn better_at<const W: usize, const H: usize, const MODE: u8, L>(
    scan: &PartitionScan,
    walk: &OwnWalk,
    place: u8,
    value: u8,
    best: Option<Better>,
    steps: &mut Steps<L>,
) -> Option<Better>
    requires scan { IsPartScan W H scan.now }
    requires mode { MODE < 16 → scan.now.cem ≡ MODE }
    requires place { place < endpoint_integers scan.now.cem }
    requires walk { IsOwnWalk W H scan.now place walk.now }
    requires range { value < count_of scan.now.tables.now.level }
    requires other { value ≢ slice_index scan.now.tables.now.block.colours.items
        (integer_of scan.now place) }
    requires best { IfSome best
        (IsBetter W H (state_of scan.now) OfColour (integer_of scan.now place)) }
    ensures better { IfSome result
        (IsBetter W H (state_of scan.now) OfColour (integer_of scan.now place)) }
    ensures falls { least_of (error_now W H (state_of scan.now)) result ≤ least_of
        (error_now W H (state_of scan.now)) best }
    ensures here { least_of (error_now W H (state_of scan.now)) result ≤ error_with_value W H
        (state_of scan.now) OfColour (integer_of scan.now place) value }
    ensures steps { TakesAtMost steps.old steps.new
        (reach_count W H (state_of scan.now) OfColour (integer_of scan.now place)) }
{
    let least = least_for(scan.tables.total, best, value);
    let tried = walk_tried::<W, H, MODE, L>(scan, walk, place, value, least, steps);
    better_of(best, value, tried)
}

// The best of the values at the positions after the present one.
fn best_above<const W: usize, const H: usize, const MODE: u8, L>(
    scan: &PartitionScan,
    walk: &OwnWalk,
    place: u8,
    steps: &mut Steps<L>,
) -> Option<Better>
    requires scan { IsPartScan W H scan.now }
    requires mode { MODE < 16 → scan.now.cem ≡ MODE }
    requires place { place < endpoint_integers scan.now.cem }
    requires walk { IsOwnWalk W H scan.now place walk.now }
    ensures better { IfSome result
        (IsBetter W H (state_of scan.now) OfColour (integer_of scan.now place)) }
    ensures least { (at : ℕ) → walk.now.start < at → at < walk.now.order.count
        → least_of (error_now W H (state_of scan.now)) result ≤ error_with_value W H
        (state_of scan.now) OfColour (integer_of scan.now place)
        (integer_on (count_of scan.now.tables.now.level) walk.now.order at) }
    ensures steps { TakesAtMost steps.old steps.new
        ((walk.now.order.count - (walk.now.start + 1)) * reach_count W H
        (state_of scan.now) OfColour (integer_of scan.now place)) }
{
    let level = scan.tables.level;
    let order = walk.order;
    let mut best = None;
    for above in walk.start + 1..order.count {
        let value = integer_on(level, order, above);
        if ends_at::<W, H, MODE>(scan, walk, place, value) {
            return best;
        }
        let better = better_at::<W, H, MODE, L>(scan, walk, place, value, best, steps);
        best = better;
    }
    best
}

// The best of the values at the positions before the present one, and of the one found before.
fn best_below<const W: usize, const H: usize, const MODE: u8, L>(
    scan: &PartitionScan,
    walk: &OwnWalk,
    place: u8,
    found: Option<Better>,
    steps: &mut Steps<L>,
) -> Option<Better>
    requires scan { IsPartScan W H scan.now }
    requires mode { MODE < 16 → scan.now.cem ≡ MODE }
    requires place { place < endpoint_integers scan.now.cem }
    requires walk { IsOwnWalk W H scan.now place walk.now }
    requires found { IfSome found
        (IsBetter W H (state_of scan.now) OfColour (integer_of scan.now place)) }
    ensures better { IfSome result
        (IsBetter W H (state_of scan.now) OfColour (integer_of scan.now place)) }
    ensures least { (at : ℕ) → at < walk.now.start
        → least_of (error_now W H (state_of scan.now)) result ≤ error_with_value W H
        (state_of scan.now) OfColour (integer_of scan.now place)
        (integer_on (count_of scan.now.tables.now.level) walk.now.order at) }
    ensures falls { least_of (error_now W H (state_of scan.now)) result ≤ least_of
        (error_now W H (state_of scan.now)) found }
    ensures steps { TakesAtMost steps.old steps.new
        (walk.now.start * reach_count W H (state_of scan.now) OfColour
        (integer_of scan.now place)) }
{
    let level = scan.tables.level;
    let order = walk.order;
    let start = walk.start;
    let mut best = found;
    for step in 0..start {
        let value = integer_on(level, order, start - 1 - step);
        if ends_at::<W, H, MODE>(scan, walk, place, value) {
            return best;
        }
        let better = better_at::<W, H, MODE, L>(scan, walk, place, value, best, steps);
        best = better;
    }
    best
}

// `best_colour_of` by a walk.
fn best_by_walk<const W: usize, const H: usize, const MODE: u8, L>(
    scan: &PartitionScan,
    walk: &OwnWalk,
    place: u8,
    steps: &mut Steps<L>,
) -> Option<Better>
    requires scan { IsPartScan W H scan.now }
    requires mode { MODE < 16 → scan.now.cem ≡ MODE }
    requires place { place < endpoint_integers scan.now.cem }
    requires walk { IsOwnWalk W H scan.now place walk.now }
    ensures better { IfSome result
        (IsBetter W H (state_of scan.now) OfColour (integer_of scan.now place)) }
    ensures least { (value : ℕ) → value < count_of scan.now.tables.now.level
        → value ≢ slice_index scan.now.tables.now.block.colours.items (integer_of scan.now place)
        → least_of (error_now W H (state_of scan.now)) result ≤ error_with_value W H
        (state_of scan.now) OfColour (integer_of scan.now place) value }
    ensures steps { TakesAtMost steps.old steps.new
        ((count_of scan.now.tables.now.level - 1) * reach_count W H (state_of scan.now) OfColour
        (integer_of scan.now place)) }
{
    let above = best_above::<W, H, MODE, L>(scan, walk, place, steps);
    best_below::<W, H, MODE, L>(scan, walk, place, above, steps)
}

// `best_colour_of` by a look at each value between two.
fn best_by_bounds<const W: usize, const H: usize, const MODE: u8, L>(
    scan: &PartitionScan,
    place: u8,
    present: u8,
    steps: &mut Steps<L>,
) -> Option<Better>
    requires scan { IsPartScan W H scan.now }
    requires mode { MODE < 16 → scan.now.cem ≡ MODE }
    requires place { place < endpoint_integers scan.now.cem }
    requires present { present ≡ slice_index scan.now.tables.now.block.colours.items
        (integer_of scan.now place) }
    requires within { present < count_of scan.now.tables.now.level }
    ensures better { IfSome result
        (IsBetter W H (state_of scan.now) OfColour (integer_of scan.now place)) }
    ensures least { (value : ℕ) → value < count_of scan.now.tables.now.level → value ≢ present
        → least_of (error_now W H (state_of scan.now)) result ≤ error_with_value W H
        (state_of scan.now) OfColour (integer_of scan.now place) value }
    ensures steps { TakesAtMost steps.old steps.new
        ((count_of scan.now.tables.now.level - 1) * reach_count W H (state_of scan.now) OfColour
        (integer_of scan.now place)) }
{
    let bounds = value_bounds_of::<W, H>(scan, place);
    let (from, to) = values_to_try::<W, H>(scan, &bounds, place, present);
    let present = u16::from(present);
    let none = first_limit::<W, H>(scan);
    let below = best_colour_between::<W, H, MODE, L>(
        scan, &bounds, place, from, present, none, steps,
    );
    best_colour_between::<W, H, MODE, L>(scan, &bounds, place, present + 1, to, below, steps).best
}

// `best_colour_of` of a part with this endpoint mode, or any for 16.
fn best_colour_as<const W: usize, const H: usize, const MODE: u8, L>(
    scan: &PartitionScan,
    place: u8,
    present: u8,
    steps: &mut Steps<L>,
) -> Option<Better>
    requires scan { IsPartScan W H scan.now }
    requires mode { MODE < 16 → scan.now.cem ≡ MODE }
    requires place { place < endpoint_integers scan.now.cem }
    requires present { present ≡ slice_index scan.now.tables.now.block.colours.items
        (integer_of scan.now place) }
    requires within { present < count_of scan.now.tables.now.level }
    ensures better { IfSome result
        (IsBetter W H (state_of scan.now) OfColour (integer_of scan.now place)) }
    ensures least { (value : ℕ) → value < count_of scan.now.tables.now.level → value ≢ present
        → least_of (error_now W H (state_of scan.now)) result ≤ error_with_value W H
        (state_of scan.now) OfColour (integer_of scan.now place) value }
    ensures steps { TakesAtMost steps.old steps.new
        ((count_of scan.now.tables.now.level - 1) * reach_count W H (state_of scan.now) OfColour
        (integer_of scan.now place)) }
{
    match walk_of::<W, H>(scan, place, present) {
        Some(walk) => best_by_walk::<W, H, MODE, L>(scan, &walk, place, steps),
        None => best_by_bounds::<W, H, MODE, L>(scan, place, present, steps),
    }
}

/// The value with the least error of a colour integer of a partition, if that is less than with the
/// present value.
pub fn best_colour_of<const W: usize, const H: usize, L>(
    scan: &PartitionScan,
    place: u8,
    present: u8,
    steps: &mut Steps<L>,
) -> Option<Better>
    requires scan { IsPartScan W H scan.now }
    requires place { place < endpoint_integers scan.now.cem }
    requires present { present ≡ slice_index scan.now.tables.now.block.colours.items
        (integer_of scan.now place) }
    requires within { present < count_of scan.now.tables.now.level }
    ensures better { IfSome result
        (IsBetter W H (state_of scan.now) OfColour (integer_of scan.now place)) }
    ensures least { (value : ℕ) → value < count_of scan.now.tables.now.level → value ≢ present
        → least_of (error_now W H (state_of scan.now)) result ≤ error_with_value W H
        (state_of scan.now) OfColour (integer_of scan.now place) value }
    ensures steps { TakesAtMost steps.old steps.new
        ((count_of scan.now.tables.now.level - 1) * reach_count W H (state_of scan.now) OfColour
        (integer_of scan.now place)) }
{
    match scan.cem {
        6 => best_colour_as::<W, H, 6, L>(scan, place, present, steps),
        8 => best_colour_as::<W, H, 8, L>(scan, place, present, steps),
        9 => best_colour_as::<W, H, 9, L>(scan, place, present, steps),
        10 => best_colour_as::<W, H, 10, L>(scan, place, present, steps),
        12 => best_colour_as::<W, H, 12, L>(scan, place, present, steps),
        _ => best_colour_as::<W, H, 16, L>(scan, place, present, steps),
    }
}

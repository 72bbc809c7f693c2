// Walks over the values of a colour integer that moves one channel only. The endpoints of the
// channel change monotonically along a walk, so that a walk may stop at the first value that is
// far.
ghost use Rattle.std.specs.Prelude.{◌≡◌, ◌≢◌, ℕ, ◌+◌, ◌*◌, ◌%◌, ◌^◌, ◌<◌, ◌≤◌, ◌↔◌, length, slice_set, slice_index, sum_by, IfSome, IsTrue, false};
ghost use Rattle.astc_model.specs.Endpoints.{endpoint_integers};
ghost use Rattle.astc_model.specs.Levels.{count_of};
ghost use Rattle.astc_model.specs.ColourValues.{colour_value};
ghost use Rattle.moments.specs.Floors.{AreSmall, IsMost, factor_of};
ghost use Rattle.texel_error.specs.Limited.{under};
ghost use Rattle.error_tables.specs.Floors.{channel_part, widening_of, moments_at, form_more, form_less};
ghost use Rattle.error_tables.specs.RowFloors.{IsEndFar};
ghost use Rattle.colour_bounds.specs.Bounds.{ends_of, IsSingleChannel, single_channel_of};
ghost use Rattle.colour_bounds.specs.OneChannel.{is_exchanging, is_offsetting, is_scaling, moves_one, moved_channel, moved_ends};
ghost use Rattle.colour_bounds.specs.OwnWalks.{end_of, other_end_of, other_half, is_falling, turned, turned_moments, value_against, IsInTrend, RisesAlong, RisesOn, AreOutsideNoBetter, IsPresentRank, IsPresentAt, IsWalkOn, IsOwnWalk, IsWalkFar, IsOtherEndFar, IsWalkEnds, IsConvex};
ghost use Rattle.colour_bounds.specs.Orders.{IsOrder, rank_on, integer_on};
ghost use Rattle.colour_bounds.specs.PartScans.{IsPartScan, integer_of, error_now, error_with};
ghost use Rattle.colour_bounds.specs.declared.one_channel.Trend.TheVariants.{Rising, Falling};

use crate::bounds::{is_exchanging, least_exchanged, order_of};
use crate::one_channel::{Trend, mode_as, moved_channel, moved_ends, moves_one, others_form};
use crate::orders::{WalkOrder, half_order, position_of, rank_on, whole_order};
use crate::part_scan::PartitionScan;
use crate::ranks::{integer_at, rank_of};
use astc_model::Level;
use error_tables::{
    channel_error_under, channel_sum, is_end_far, moments_at, share_at, shared, swapped,
    widening_of,
};
use moments::{Moments, Widening, most};

/// A walk over the values at one place, outward from the present value, for an integer that moves
/// one channel only while the trend stays.
#[derive(Clone, Copy)]
pub struct OwnWalk {
    pub trend: Trend,
    /// The present share of the channel in the error.
    pub kept: u32,
    /// Selects the endpoint of the channel that rises along the order, from which the bounds of the
    /// walk are computed: the first if true, else the second.
    pub is_first: bool,
    /// The moments of the channel, exchanged if necessary so that this endpoint is the first.
    pub moments: Moments,
    pub widening: Widening,
    /// If the form of the channel is at least this number with every other endpoint, its share of
    /// the error does not fall.
    pub most: u64,
    /// The order of the integers, and the position of the present one in it.
    pub order: WalkOrder,
    pub start: u16,
}

// The endpoint that the flag selects.
#[inline(always)]
fn end_of(is_first: bool, ends: (u8, u8)) -> u8
    ensures { result ≡ end_of is_first ends }
{
    if is_first { ends.0 } else { ends.1 }
}

// Whether an endpoint mode is a base with a scale (6, 10).
fn is_scaling(cem: u8) -> bool
    ensures { result ≡ is_scaling cem }
{
    cem == 6 || cem == 10
}

// Whether an endpoint mode is a base with signed offsets (9, 13).
fn is_offsetting(cem: u8) -> bool
    ensures { result ≡ is_offsetting cem }
{
    cem == 9 || cem == 13
}

// Selects the endpoint that the value at `place` moves in modes 8 and 12, and so rises with it: the
// first if true, else the second.
fn exchanged_end(cem: u8, trend: Trend, place: u8) -> bool
    requires mode { IsTrue (is_exchanging cem) }
    requires place { place < endpoint_integers cem }
    ensures { RisesAlong cem trend place result }
{
    match trend {
        Trend::Rising => place % 2 == 0,
        Trend::Falling => place % 2 == 1,
    }
}

// Selects an endpoint that rises with the value at `place` in modes 6 and 10: the first if true,
// else the second. All values but the first alpha move the second endpoint.
fn scaled_end(cem: u8, trend: Trend, place: u8) -> bool
    requires mode { IsTrue (is_scaling cem) }
    requires place { place < endpoint_integers cem }
    ensures { RisesAlong cem trend place result }
{
    place == 4
}

// Selects the endpoint that is the base, which rises with the value at `place`, in modes 9 and 13:
// the first if true, else the second.
fn base_end(cem: u8, trend: Trend, place: u8) -> bool
    requires mode { IsTrue (is_offsetting cem) }
    requires place { place < endpoint_integers cem }
    requires even { place % 2 ≡ 0 }
    ensures { RisesAlong cem trend place result }
{
    match trend {
        Trend::Rising => true,
        Trend::Falling => false,
    }
}

// The other trend.
fn turned(trend: Trend) -> Trend
    ensures { result ≡ turned trend }
{
    match trend {
        Trend::Rising => Trend::Falling,
        Trend::Falling => Trend::Rising,
    }
}

// The moments of a channel with the selected endpoint as the first.
fn turned_moments(is_first: bool, moments: &Moments) -> Moments
    requires { AreSmall moments.now }
    ensures exact { result ≡ turned_moments is_first moments.now }
    ensures small { AreSmall result }
{
    if is_first { *moments } else { swapped(moments) }
}

// The values that encode the greatest offset, 31, and the least, -32.
const GREATEST_OFFSET: u8 = 62;

const LEAST_OFFSET: u8 = 64;

// A value at `place` that has the trend, if any value has, in modes 8 and 12 or for an offset.
fn value_in(cem: u8, trend: Trend, place: u8) -> u8 {
    match trend {
        Trend::Rising => {
            if is_offsetting(cem) {
                GREATEST_OFFSET
            } else if place % 2 == 0 {
                0
            } else {
                255
            }
        }
        Trend::Falling => {
            if is_offsetting(cem) {
                LEAST_OFFSET
            } else if place % 2 == 0 {
                255
            } else {
                0
            }
        }
    }
}

// The value of an offset that is most likely to have the other trend.
fn value_against(trend: Trend) -> u8
    ensures { result ≡ value_against trend }
{
    match trend {
        Trend::Rising => LEAST_OFFSET,
        Trend::Falling => GREATEST_OFFSET,
    }
}

// Whether all values of an offset have the trend that the present value has.
fn offsets_stay(scan: &PartitionScan, trend: Trend, place: u8) -> bool
    requires mode { IsTrue (is_offsetting scan.now.cem) }
    requires place { place < endpoint_integers scan.now.cem }
    requires odd { place % 2 ≢ 0 }
    requires eight { length scan.now.values ≡ 8 }
    requires small { scan.now.cem < 16 }
    requires present { IsInTrend scan.now trend place (slice_index scan.now.values place) }
    ensures { IsTrue result → (value : ℕ) → value ≤ 255 → IsInTrend scan.now trend place value }
{
    let extreme = value_against(trend);
    let mut values = scan.values;
    values[usize::from(place)] = extreme;
    moves_one(trend, scan.cem, &values, place)
}

// Whether all values at `place` in modes 8 and 12 have the trend that the present value has.
fn all_stay(scan: &PartitionScan, trend: Trend, place: u8) -> bool
    requires mode { IsTrue (is_exchanging scan.now.cem) }
    requires place { place < 8 }
    requires eight { length scan.now.values ≡ 8 }
    requires present { IsInTrend scan.now trend place (slice_index scan.now.values place) }
    ensures { IsTrue result → (value : ℕ) → value ≤ 255 → IsInTrend scan.now trend place value }
{
    let (from, before) = order_of(scan, place);
    match trend {
        Trend::Rising => { if from == 0 { before >= 256 } else { false } }
        Trend::Falling => { if before == 0 { true } else { from >= 256 } }
    }
}

// Whether the channels that the integer does not move in this trend show that all values with the
// trend are far.
fn is_trend_far<const W: usize, const H: usize>(
    scan: &PartitionScan,
    trend: Trend,
    place: u8,
) -> bool
    requires scan { IsPartScan W H scan.now }
    requires place { place < endpoint_integers scan.now.cem }
    ensures { IsTrue result → (value : ℕ) → IsInTrend scan.now trend place value
        → form_less scan.now.tables.now scan.now.floor
        (ends_of scan.now.cem scan.now.values place value) + scan.now.most
        ≤ form_more scan.now.tables.now scan.now.floor
        (ends_of scan.now.cem scan.now.values place value) }
{
    match others_form::<W, H>(scan, trend, place, value_in(scan.cem, trend, place)) {
        None => false,
        Some(others) => others.reaches(scan.most),
    }
}

// Whether no value with the other trend can reduce the error, in modes 8 and 12.
fn is_alone<const W: usize, const H: usize>(scan: &PartitionScan, trend: Trend, place: u8) -> bool
    requires scan { IsPartScan W H scan.now }
    requires place { place < endpoint_integers scan.now.cem }
    requires mode { IsTrue (is_exchanging scan.now.cem) }
    requires present { IsInTrend scan.now trend place (slice_index scan.now.values place) }
    ensures { IsTrue result → AreOutsideNoBetter W H scan.now trend place }
{
    if all_stay(scan, trend, place) {
        return true;
    }
    if place / 2 == 2 {
        return least_exchanged(scan, place) >= scan.most;
    }
    is_trend_far::<W, H>(scan, turned(trend), place)
}

// Whether no value of an offset with the other trend can reduce the error.
fn is_offset_alone<const W: usize, const H: usize>(
    scan: &PartitionScan,
    trend: Trend,
    place: u8,
) -> bool
    requires scan { IsPartScan W H scan.now }
    requires place { place < endpoint_integers scan.now.cem }
    requires mode { IsTrue (is_offsetting scan.now.cem) }
    requires odd { place % 2 ≢ 0 }
    requires present { IsInTrend scan.now trend place (slice_index scan.now.values place) }
    ensures { IsTrue result → AreOutsideNoBetter W H scan.now trend place }
{
    if offsets_stay(scan, trend, place) {
        return true;
    }
    if place / 2 == 2 {
        return false;
    }
    is_trend_far::<W, H>(scan, turned(trend), place)
}

// The walk over an order along which the selected endpoint of the channel rises. None if the bound
// by this endpoint is not convex, or already rules out the present value.
fn walk_along<const W: usize, const H: usize>(
    scan: &PartitionScan,
    trend: Trend,
    place: u8,
    is_first: bool,
    order: WalkOrder,
    start: u16,
) -> Option<OwnWalk>
    requires scan { IsPartScan W H scan.now }
    requires place { place < endpoint_integers scan.now.cem }
    requires present { IsInTrend scan.now trend place (slice_index scan.now.values place) }
    requires orders { IsOrder (count_of scan.now.tables.now.level) order }
    requires starts { IsPresentAt scan.now place order start }
    requires rises { RisesOn scan.now trend place is_first order }
    requires alone { AreOutsideNoBetter W H scan.now trend place }
    ensures walk { IfSome result (IsWalkOn W H scan.now place) }
    ensures order { IfSome result (λ walk. walk.order ≡ order) }
    ensures trend { IfSome result (λ walk. walk.trend ≡ trend) }
    ensures end { IfSome result (λ walk. walk.is_first ≡ is_first) }
{
    let channel = moved_channel(scan.cem, place);
    let ends = moved_ends(trend, scan.cem, &scan.values, place);
    let sum = channel_sum(scan.tables, scan.reach, channel, ends.0, ends.1);
    let kept = shared(share_at(scan.tables, channel), sum);
    let moments = turned_moments(is_first, &moments_at(&scan.floor, channel));
    let widening = widening_of(scan.tables.decoded.flavour, channel);
    let most = most(u64::from(sum), u64::from(scan.floor.count));
    let walk = OwnWalk {
        trend,
        kept,
        is_first,
        moments,
        widening,
        most,
        order,
        start,
    };
    if !is_convex(&walk.moments) {
        return None;
    }
    if walk.is_far(ends) {
        return None;
    }
    Some(walk)
}

// The endpoint that the flag does not select.
#[inline(always)]
fn other_end_of(is_first: bool, ends: (u8, u8)) -> u8
    ensures { result ≡ other_end_of is_first ends }
{
    if is_first { ends.1 } else { ends.0 }
}

// A value with the other top bit.
fn other_half(value: u8) -> u8
    ensures { result ≡ other_half value }
{
    if value < 128 { 255 } else { 0 }
}

// Whether all values of an offset with the other top bit are far. The top bit belongs to the base,
// so one endpoint is the same for all of them, and its bound decides.
fn is_other_half_far(scan: &PartitionScan, walk: &OwnWalk, place: u8) -> bool
    requires eight { length scan.now.values ≡ 8 }
    requires place { place < 8 }
    requires small { AreSmall walk.now.moments }
    requires most { walk.now.most ≤ 2 ^ 61 }
    ensures { IsTrue result → IsOtherEndFar walk.now.is_first walk.now.moments walk.now.widening
        walk.now.most (moved_ends walk.now.trend scan.now.cem
        (slice_set scan.now.values place (other_half (slice_index scan.now.values place)))
        place) }
{
    let mut values = scan.values;
    values[usize::from(place)] = other_half(scan.values[usize::from(place)]);
    let ends = moved_ends(walk.trend, scan.cem, &values, place);
    let moments = swapped(&walk.moments);
    moments.second_squares > 0
        && is_end_far(
            &moments,
            walk.widening,
            other_end_of(walk.is_first, ends),
            walk.most,
        )
}

// Selects the endpoint that rises with an offset in this trend: the first if true, else the second.
// The other endpoint is the base.
fn offset_end(trend: Trend) -> bool
    ensures { result ≡ is_falling trend }
{
    match trend {
        Trend::Rising => false,
        Trend::Falling => true,
    }
}

// The walk over the values of an offset with the same top bit. None if a value outside the walk may
// reduce the error.
fn offset_walk<const W: usize, const H: usize>(
    scan: &PartitionScan,
    trend: Trend,
    place: u8,
    rank: u16,
) -> Option<OwnWalk>
    requires scan { IsPartScan W H scan.now }
    requires place { place < endpoint_integers scan.now.cem }
    requires mode { IsTrue (is_offsetting scan.now.cem) }
    requires odd { place % 2 ≢ 0 }
    requires present { IsInTrend scan.now trend place (slice_index scan.now.values place) }
    requires rank { IsPresentRank scan.now place rank }
    requires range { rank < count_of scan.now.tables.now.level }
    ensures { IfSome result (IsOwnWalk W H scan.now place) }
{
    if !is_offset_alone::<W, H>(scan, trend, place) {
        return None;
    }
    let order = half_order(scan.tables.level, rank);
    let start = position_of(order, rank);
    match walk_along::<W, H>(scan, trend, place, offset_end(trend), order, start) {
        None => None,
        Some(walk) => {
            if is_other_half_far(scan, &walk, place) {
                Some(walk)
            } else {
                None
            }
        }
    }
}

// The walk over all values at `place`, along which the selected endpoint rises.
fn value_walk<const W: usize, const H: usize>(
    scan: &PartitionScan,
    trend: Trend,
    place: u8,
    is_first: bool,
    rank: u16,
) -> Option<OwnWalk>
    requires scan { IsPartScan W H scan.now }
    requires place { place < endpoint_integers scan.now.cem }
    requires present { IsInTrend scan.now trend place (slice_index scan.now.values place) }
    requires rank { IsPresentRank scan.now place rank }
    requires range { rank < count_of scan.now.tables.now.level }
    requires rises { RisesAlong scan.now.cem trend place is_first }
    requires alone { AreOutsideNoBetter W H scan.now trend place }
    ensures { IfSome result (IsOwnWalk W H scan.now place) }
{
    let order = whole_order(scan.tables.level);
    walk_along::<W, H>(scan, trend, place, is_first, order, rank)
}

// The walk in one trend; None if the present values have another trend, or a value outside the walk
// may reduce the error.
fn walk_in<const W: usize, const H: usize>(
    scan: &PartitionScan,
    trend: Trend,
    place: u8,
    rank: u16,
) -> Option<OwnWalk>
    requires scan { IsPartScan W H scan.now }
    requires place { place < endpoint_integers scan.now.cem }
    requires rank { IsPresentRank scan.now place rank }
    requires range { rank < count_of scan.now.tables.now.level }
    ensures { IfSome result (IsOwnWalk W H scan.now place) }
{
    if !moves_one(trend, scan.cem, &scan.values, place) {
        return None;
    }
    if is_scaling(scan.cem) {
        let is_first = scaled_end(scan.cem, trend, place);
        return value_walk::<W, H>(scan, trend, place, is_first, rank);
    }
    if is_offsetting(scan.cem) {
        if place % 2 != 0 {
            return offset_walk::<W, H>(scan, trend, place, rank);
        }
        let is_first = base_end(scan.cem, trend, place);
        return value_walk::<W, H>(scan, trend, place, is_first, rank);
    }
    if !is_exchanging(scan.cem) {
        return None;
    }
    if !is_alone::<W, H>(scan, trend, place) {
        return None;
    }
    let is_first = exchanged_end(scan.cem, trend, place);
    value_walk::<W, H>(scan, trend, place, is_first, rank)
}

/// Returns the walk over the values at `place` from the present integer; None if the integer moves
/// several channels, or the bounds do not allow a walk.
pub fn walk_of<const W: usize, const H: usize>(
    scan: &PartitionScan,
    place: u8,
    present: u8,
) -> Option<OwnWalk>
    requires scan { IsPartScan W H scan.now }
    requires place { place < endpoint_integers scan.now.cem }
    requires present { present ≡ slice_index scan.now.tables.now.block.colours.items
        (integer_of scan.now place) }
    requires within { present < count_of scan.now.tables.now.level }
    ensures { IfSome result (IsOwnWalk W H scan.now place) }
{
    let rank = rank_of(scan.tables.level, present);
    match walk_in::<W, H>(scan, Trend::Rising, place, rank) {
        Some(walk) => Some(walk),
        None => walk_in::<W, H>(scan, Trend::Falling, place, rank),
    }
}

/// Returns the integer at position `at` of an order.
#[inline(always)]
pub fn integer_on(level: Level, order: WalkOrder, at: u16) -> u8
    requires level { 6 ≤ count_of level }
    requires orders { IsOrder (count_of level) order }
    requires at { at < order.count }
    ensures exact { result ≡ integer_on (count_of level) order at }
    ensures range { result < count_of level }
{
    integer_at(level, rank_on(order, at))
}

/// Returns the two endpoints of the walk's channel with `value` at `place`; None if the value has
/// another trend. `MODE` is the endpoint mode as a constant, or 16 for any.
#[inline(always)]
pub fn walk_ends<const MODE: u8>(
    scan: &PartitionScan,
    trend: Trend,
    place: u8,
    value: u8,
) -> Option<(u8, u8)>
    requires mode { MODE < 16 → scan.now.cem ≡ MODE }
    requires place { place < 8 }
    requires eight { length scan.now.values ≡ 8 }
    ensures { IsWalkEnds scan.now trend place value result }
{
    let cem = mode_as::<MODE>(scan.cem);
    let mut values = scan.values;
    values[usize::from(place)] = value;
    if moves_one(trend, cem, &values, place) {
        Some(moved_ends(trend, cem, &values, place))
    } else {
        None
    }
}

/// Returns the share of the walk's channel in the error with these endpoints if it is under `bar`,
/// else None.
pub fn walk_error_under<const W: usize, const H: usize>(
    scan: &PartitionScan,
    place: u8,
    ends: (u8, u8),
    bar: u32,
) -> Option<u32>
    requires scan { IsPartScan W H scan.now }
    requires place { place < endpoint_integers scan.now.cem }
    requires channel { moved_channel scan.now.cem place < 4 }
    ensures exact { result ≡ under bar (slice_index scan.now.tables.now.weights
        (moved_channel scan.now.cem place) * sum_by (channel_part scan.now.tables.now
        (moved_channel scan.now.cem place) ends.0 ends.1) scan.now.reach.now) }
    ensures small { IfSome result (λ error. error ≤ 140454000) }
{
    let channel = moved_channel(scan.cem, place);
    channel_error_under(scan.tables, scan.reach, channel, ends.0, ends.1, bar)
}

// Whether the bound, as a function of the first endpoint with the best second one, is convex.
fn is_convex(moments: &Moments) -> bool
    requires { AreSmall moments.now }
    ensures { IsTrue result → IsConvex moments.now }
{
    moments.second_squares > 0
        && moments.products * moments.products <= moments.first_squares * moments.second_squares
}

impl OwnWalk {
    /// Returns whether the walk stops at a value with these endpoints: all later values are far
    /// too.
    #[inline(always)]
    pub fn is_far(&self, ends: (u8, u8)) -> bool
        requires small { AreSmall self.now.moments }
        requires most { self.now.most ≤ 2 ^ 61 }
        ensures { IsTrue result ↔ IsWalkFar self.now ends }
    {
        is_end_far(
            &self.moments,
            self.widening,
            end_of(self.is_first, ends),
            self.most,
        )
    }
}

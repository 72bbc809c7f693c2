// Bounds on the error of a block by the value of one colour integer, which rule out most values
// without decoding a texel.
//
// A form is a lower bound on the error of a partition, as a difference of two sums (`moments`): if
// it reaches the number `most`, the error is at least the present one. The values of an integer
// with such a form are called far, the others near. The place of an integer is its index, 0 to 7,
// among those of its partition.
ghost use Rattle.std.specs.Prelude.{◌≡◌, ◌⊎◌, ◌*◌, ◌/◌, IfSome, ℕ, ◌+◌, ◌<◌, ◌≤◌, ◌^◌, length, slice_set, IsTrue};
ghost use Rattle.std.specs.List.{All};
ghost use Rattle.astc_model.specs.Endpoints.{is_ldr_mode, endpoint_integers};
ghost use Rattle.texel_error.specs.Limited.{under};
ghost use Rattle.error_tables.specs.Floors.{IsSmallFloor, form_more, form_less};
ghost use Rattle.error_tables.specs.RowFloors.{AreForms};
ghost use Rattle.colour_bounds.specs.Curves.{curve_more, curve_less, IsSmallCurve, IsOnCurve};
ghost use Rattle.astc_model.specs.Levels.{count_of};
ghost use Rattle.colour_bounds.specs.PartScans.{IsPartScan, error_now, error_with};
ghost use Rattle.colour_bounds.specs.OneChannel.{is_exchanging, moves_one};
ghost use Rattle.colour_bounds.specs.declared.one_channel.Trend.TheVariants.{Rising};
ghost use Rattle.colour_bounds.specs.Bounds.{ends_of, in_order, first_sum, second_sum, order_by_sums, order_of, single_channel_of, IsSingleChannel, AreOthers, AreValueBounds};

use crate::curves::{Curve, curve_of};
use crate::one_channel::{Trend, falling_value, moved_channel, moved_ends, moves_one, others_of};
use crate::part_scan::{PartitionScan, ends_with, sums_of};
use crate::three_channels::{ThreeChannels, three_channels_of};
use error_tables::{
    OneChannel, channel_error, channel_error_under, least_with_first, swapped_floor,
};

/// The bounds on the form of a partition as functions of the value at one place, computed before
/// any endpoints are decoded.
#[derive(Clone, Copy)]
pub struct ValueBounds {
    /// The form for the values with which the endpoints are the two encoded colours in order,
    /// without exchange.
    pub curve: Curve,
    /// The range of these values: from `from` up to `before`, exclusive.
    pub from: u16,
    pub before: u16,
    /// A lower bound on the form for the values outside this range.
    pub least: u64,
    /// The present share in the error of the one channel that the integer moves. None if the
    /// present values are exchanged, or move several channels.
    pub single: Option<u32>,
    /// The form as a function of the endpoints of the one channel that the integer moves, while the
    /// two colours are in order (rising) or exchanged (falling). None if the integer moves several
    /// channels then, or if this is covered by `curve`.
    pub rising: Option<OneChannel>,
    pub falling: Option<OneChannel>,
    /// The form as a function of red, green and blue of one endpoint, if the integer moves these
    /// three and nothing else.
    pub three: Option<ThreeChannels>,
}

// The two colours of an endpoint mode that encodes them directly (0, 4, 8, 12), without exchange.
fn in_order(cem: u8, values: &[u8; 8]) -> ([u8; 4], [u8; 4])
    requires { length values.now ≡ 8 }
    ensures { result ≡ in_order cem values.now }
{
    let [v0, v1, v2, v3, v4, v5, v6, v7] = *values;
    match cem {
        0 => ([v0, v0, v0, 255], [v1, v1, v1, 255]),
        4 => ([v0, v0, v0, v2], [v1, v1, v1, v3]),
        12 => ([v0, v2, v4, v6], [v1, v3, v5, v7]),
        _ => ([v0, v2, v4, 255], [v1, v3, v5, 255]),
    }
}

// The two colours in order, with the value at `place` replaced.
fn in_order_with(scan: &PartitionScan, place: u8, value: u8) -> ([u8; 4], [u8; 4])
    requires place { place < 8 }
    requires eight { length scan.now.values ≡ 8 }
    ensures { result ≡ in_order scan.now.cem (slice_set scan.now.values place value) }
{
    let mut values = scan.values;
    values[usize::from(place)] = value;
    in_order(scan.cem, &values)
}

// The form as a function of the value at `place`, for values with which the endpoints are the two
// colours in order.
fn curve_along(scan: &PartitionScan, place: u8) -> Curve
    requires place { place < 8 }
    requires eight { length scan.now.values ≡ 8 }
    requires weights { All (λ weight. weight ≤ 15) scan.now.tables.now.weights }
    requires floor { IsSmallFloor scan.now.floor }
    ensures on { (value : ℕ) → IsOnCurve scan.now.tables.now scan.now.floor result value
        (in_order scan.now.cem (slice_set scan.now.values place value)) }
    ensures small { IsSmallCurve result }
{
    let first = in_order_with(scan, place, 0);
    let middle = in_order_with(scan, place, 127);
    let last = in_order_with(scan, place, 254);
    curve_of(scan.tables, &scan.floor, &first, &middle, &last)
}

// The form as a function of the value at `place`, if `from < before`; else 0.
fn curve_between(scan: &PartitionScan, place: u8, from: u16, before: u16) -> Curve
    requires place { place < 8 }
    requires eight { length scan.now.values ≡ 8 }
    requires weights { All (λ weight. weight ≤ 15) scan.now.tables.now.weights }
    requires floor { IsSmallFloor scan.now.floor }
    ensures on { (value : ℕ) → from ≤ value → value < before
        → IsOnCurve scan.now.tables.now scan.now.floor result value
        (in_order scan.now.cem (slice_set scan.now.values place value)) }
    ensures small { IsSmallCurve result }
{
    if from < before {
        curve_along(scan, place)
    } else {
        Curve {
            square: 0,
            slope: 0,
            start: 0,
            less_slope: 0,
            less_start: 0,
        }
    }
}

// The range of values at `place`, from the first up to the second number (exclusive), with which
// the sum of the second colour is at least that of the first. `first` and `second` are the sums of
// red, green and blue with 0 at `place`.
fn order_by_sums(place: u8, first: u16, second: u16) -> (u16, u16)
    requires second { second ≤ 765 }
    ensures { result ≡ order_by_sums place first second }
{
    if place >= 6 {
        if first <= second { (0, 256) } else { (0, 0) }
    } else if place % 2 == 0 {
        (0, (second + 1).saturating_sub(first))
    } else {
        (first.saturating_sub(second), 256)
    }
}

// Whether an endpoint mode exchanges the colours if the second has the smaller sum: 8 and 12.
pub(crate) fn is_exchanging(cem: u8) -> bool
    ensures { result ≡ is_exchanging cem }
{
    cem == 8 || cem == 12
}

// The range of values at `place`, from the first up to the second number (exclusive), with which
// the endpoints are the two colours in order. The range is empty for modes that do not encode two
// colours.
pub(crate) fn order_of(scan: &PartitionScan, place: u8) -> (u16, u16)
    requires place { place < 8 }
    requires eight { length scan.now.values ≡ 8 }
    ensures { result ≡ order_of scan.now.cem scan.now.values place }
{
    if scan.cem == 0 || scan.cem == 4 {
        return (0, 256);
    }
    if !is_exchanging(scan.cem) {
        return (0, 0);
    }
    let mut values = scan.values;
    values[usize::from(place)] = 0;
    let (first, second) = sums_of(&values);
    order_by_sums(place, first, second)
}

// A lower bound on the form for all values at `place` with which the decoder exchanges the colours.
// One of the endpoints does not depend on the value then, and the bound holds for any other
// endpoint.
pub(crate) fn least_exchanged(scan: &PartitionScan, place: u8) -> u64
    requires ldr { IsTrue (is_ldr_mode scan.now.cem) }
    requires small { scan.now.cem < 16 }
    requires exchanging { IsTrue (is_exchanging scan.now.cem) }
    requires place { place < endpoint_integers scan.now.cem }
    requires eight { length scan.now.values ≡ 8 }
    requires weights { All (λ weight. weight ≤ 15) scan.now.tables.now.weights }
    requires floor { IsSmallFloor scan.now.floor }
    ensures { (value : ℕ) → value ≤ 255
        → second_sum (slice_set scan.now.values place value) < first_sum
        (slice_set scan.now.values place value)
        → AreForms scan.now.tables.now scan.now.floor
        (ends_of scan.now.cem scan.now.values place value)
        → form_less scan.now.tables.now scan.now.floor
        (ends_of scan.now.cem scan.now.values place value) + result
        ≤ form_more scan.now.tables.now scan.now.floor
        (ends_of scan.now.cem scan.now.values place value) }
{
    if place % 2 == 0 {
        let (kept, _) = ends_with(scan, place, 255);
        least_with_first(scan.tables, &scan.floor, &kept)
    } else {
        let (_, kept) = ends_with(scan, place, 0);
        let swapped = swapped_floor(&scan.floor);
        least_with_first(scan.tables, &swapped, &kept)
    }
}

// A lower bound on the form for all values at `place` with which the endpoints are not the two
// colours in order; 0 if nothing is known.
fn least_out_of_order<const W: usize, const H: usize>(scan: &PartitionScan, place: u8) -> u64
    requires scan { IsPartScan W H scan.now }
    requires place { place < endpoint_integers scan.now.cem }
    ensures { (value : ℕ) → value ≤ 255
        → (value < (order_of scan.now.cem scan.now.values place).0)
        ⊎ ((order_of scan.now.cem scan.now.values place).1 ≤ value)
        → AreForms scan.now.tables.now scan.now.floor
        (ends_of scan.now.cem scan.now.values place value)
        → form_less scan.now.tables.now scan.now.floor
        (ends_of scan.now.cem scan.now.values place value) + result
        ≤ form_more scan.now.tables.now scan.now.floor
        (ends_of scan.now.cem scan.now.values place value) }
{
    if is_exchanging(scan.cem) {
        least_exchanged(scan, place)
    } else {
        0
    }
}

/// Returns whether a value at `place` leaves the two colours in order (rising) and the integer
/// moves one channel only.
#[inline(always)]
pub fn is_single_channel(scan: &PartitionScan, place: u8, value: u8) -> bool
    requires place { place < 8 }
    requires eight { length scan.now.values ≡ 8 }
    ensures { result ≡ moves_one Rising scan.now.cem (slice_set scan.now.values place value) place }
{
    let mut values = scan.values;
    values[usize::from(place)] = value;
    moves_one(Trend::Rising, scan.cem, &values, place)
}

// The share of this channel in the error.
fn single_channel_error<const W: usize, const H: usize>(
    scan: &PartitionScan,
    place: u8,
    value: u8,
) -> u32
    requires scan { IsPartScan W H scan.now }
    requires place { place < endpoint_integers scan.now.cem }
    requires eight_places { place < 8 }
    requires rises { IsTrue
        (moves_one Rising scan.now.cem (slice_set scan.now.values place value) place) }
    ensures exact { result ≡ single_channel_of scan.now Rising place value }
    ensures small { result ≤ 140454000 }
{
    let mut values = scan.values;
    values[usize::from(place)] = value;
    let channel = moved_channel(scan.cem, place);
    let (first, second) = moved_ends(Trend::Rising, scan.cem, &values, place);
    channel_error(scan.tables, scan.reach, channel, first, second)
}

/// Returns the share of the one channel in the error if it is under `bar`, else None.
pub fn single_channel_error_under<const W: usize, const H: usize>(
    scan: &PartitionScan,
    place: u8,
    value: u8,
    bar: u32,
) -> Option<u32>
    requires scan { IsPartScan W H scan.now }
    requires place { place < endpoint_integers scan.now.cem }
    requires eight_places { place < 8 }
    requires rises { IsTrue
        (moves_one Rising scan.now.cem (slice_set scan.now.values place value) place) }
    ensures exact { result ≡ under bar (single_channel_of scan.now Rising place value) }
    ensures small { IfSome result (λ error. error ≤ 140454000) }
{
    let mut values = scan.values;
    values[usize::from(place)] = value;
    let channel = moved_channel(scan.cem, place);
    let (first, second) = moved_ends(Trend::Rising, scan.cem, &values, place);
    channel_error_under(scan.tables, scan.reach, channel, first, second, bar)
}

// The present share in the error of the one channel that the integer moves; None if the present
// values are exchanged or move several channels.
fn single_channel_now<const W: usize, const H: usize>(
    scan: &PartitionScan,
    place: u8,
) -> Option<u32>
    requires scan { IsPartScan W H scan.now }
    requires place { place < endpoint_integers scan.now.cem }
    requires eight_places { place < 8 }
    ensures { IfSome result (IsSingleChannel scan.now Rising place) }
{
    let present = scan.values[usize::from(place)];
    if is_single_channel(scan, place, present) {
        Some(single_channel_error::<W, H>(scan, place, present))
    } else {
        None
    }
}

// The value that encodes the greatest offset, 31. If the sum of the offsets is 0 or more for any
// value, it is so for this one.
const GREATEST_OFFSET: u8 = 62;

// The form as a function of the endpoints of the one channel that the integer moves in order. None
// for modes 8 and 12, whose form is the curve.
fn rising_of<const W: usize, const H: usize>(scan: &PartitionScan, place: u8) -> Option<OneChannel>
    requires scan { IsPartScan W H scan.now }
    requires place { place < endpoint_integers scan.now.cem }
    ensures { IfSome result (AreOthers scan.now Rising place) }
{
    if is_exchanging(scan.cem) {
        None
    } else {
        others_of::<W, H>(scan, Trend::Rising, place, GREATEST_OFFSET)
    }
}

/// Returns the bounds on the form of a partition by the value at `place`.
pub fn value_bounds_of<const W: usize, const H: usize>(
    scan: &PartitionScan,
    place: u8,
) -> ValueBounds
    requires scan { IsPartScan W H scan.now }
    requires place { place < endpoint_integers scan.now.cem }
    ensures { AreValueBounds scan.now place result }
{
    let (from, before) = order_of(scan, place);
    let falling = falling_value(scan.cem, place);
    ValueBounds {
        curve: curve_between(scan, place, from, before),
        from,
        before,
        least: least_out_of_order::<W, H>(scan, place),
        single: single_channel_now::<W, H>(scan, place),
        rising: rising_of::<W, H>(scan, place),
        falling: others_of::<W, H>(scan, Trend::Falling, place, falling),
        three: three_channels_of::<W, H>(scan, place),
    }
}

// The least value from which all values up to `present` are near. The values from `from` up to it
// are far, since the curve falls and then rises.
fn first_near(curve: Curve, from: u16, present: u8, most: u64) -> u16
    requires small { IsSmallCurve curve }
    requires most { most ≤ 2 ^ 61 }
    requires from { from ≤ present }
    requires near { curve_more curve present < curve_less curve present + most }
    ensures order { result ≤ present }
    ensures far { (value : ℕ) → from ≤ value → value < result
        → curve_less curve value + most ≤ curve_more curve value }
{
    let present = u16::from(present);
    for step in 0..present - from {
        if curve.reaches((present - 1 - step) as u8, most) {
            return present - step;
        }
    }
    from
}

// The first far value after `present`, or 256. All later values below `before` are far too, since
// the curve rises there.
fn first_far(curve: Curve, present: u8, before: u16, most: u64) -> u16
    requires small { IsSmallCurve curve }
    requires most { most ≤ 2 ^ 61 }
    requires near { curve_more curve present < curve_less curve present + most }
    ensures order { present < result }
    ensures byte { result ≤ 256 }
    ensures far { (value : ℕ) → value ≤ 255 → result ≤ value → value < before
        → curve_less curve value + most ≤ curve_more curve value }
{
    for value in u16::from(present) + 1..before.min(256) {
        if curve.reaches(value as u8, most) {
            return value;
        }
    }
    256
}

// Whether the curve can exclude values: the level has 256 values, the present value is in order and
// near, and all values out of order are far.
fn is_bounded(scan: &PartitionScan, bounds: &ValueBounds, present: u8) -> bool
    requires small { IsSmallCurve bounds.now.curve }
    requires most { scan.now.most ≤ 2 ^ 61 }
    ensures level { IsTrue result → count_of scan.now.tables.now.level ≡ 256 }
    ensures least { IsTrue result → scan.now.most ≤ bounds.now.least }
    ensures from { IsTrue result → bounds.now.from ≤ present }
    ensures near { IsTrue result → curve_more bounds.now.curve present < curve_less bounds.now.curve
        present + scan.now.most }
{
    scan.tables.level.count() == 256
        && bounds.least >= scan.most
        && bounds.from <= u16::from(present)
        && !bounds.curve.reaches(present, scan.most)
}

/// Returns the range of values of an integer, from the first up to the second number (exclusive),
/// that may give a smaller error than the present one; all others are ruled out. The range contains
/// the present value, and is the whole level if the curve excludes nothing.
pub fn values_to_try<const W: usize, const H: usize>(
    scan: &PartitionScan,
    bounds: &ValueBounds,
    place: u8,
    present: u8,
) -> (u16, u16)
    requires scan { IsPartScan W H scan.now }
    requires place { place < endpoint_integers scan.now.cem }
    requires bounds { AreValueBounds scan.now place bounds.now }
    requires present { present < count_of scan.now.tables.now.level }
    ensures before { result.0 ≤ present }
    ensures behind { present < result.1 }
    ensures range { result.1 ≤ count_of scan.now.tables.now.level }
    ensures others { (value : ℕ) → value < count_of scan.now.tables.now.level → (value < result.0)
        ⊎ (result.1 ≤ value)
        → error_now W H scan.now ≤ error_with W H scan.now place value }
{
    if !is_bounded(scan, bounds, present) {
        return (0, scan.tables.level.count());
    }
    (
        first_near(bounds.curve, bounds.from, present, scan.most),
        first_far(bounds.curve, present, bounds.before, scan.most),
    )
}

impl ValueBounds {
    /// Returns whether the bounds show that the form with `value` is at least `most`. `MODE` is the
    /// endpoint mode as a constant, or 16 for any; in modes 6, 9 and 10, which have no curve, the
    /// result is false.
    #[inline(always)]
    pub fn reaches<const MODE: u8>(&self, value: u8, most: u64) -> bool
        requires small { IsSmallCurve self.now.curve }
        requires most { most ≤ 2 ^ 61 }
        ensures on { IsTrue result → self.now.from ≤ value → value < self.now.before
            → curve_less self.now.curve value + most ≤ curve_more self.now.curve value }
        ensures off { IsTrue result → (value < self.now.from) ⊎ (self.now.before ≤ value)
            → most ≤ self.now.least }
    {
        if MODE == 6 || MODE == 9 || MODE == 10 {
            return false;
        }
        if self.from <= u16::from(value) && u16::from(value) < self.before {
            self.curve.reaches(value, most)
        } else {
            self.least >= most
        }
    }
}

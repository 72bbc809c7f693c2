// Bounds for a colour integer that moves one channel of the endpoints only.
ghost use Rattle.std.specs.Prelude.{◌≡◌, ◌+◌, ◌*◌, ◌/◌, ◌<◌, ◌≤◌, ◌^◌, ◌+ℤ◌, ◌≤ℤ◌, pos, negsuc, length, slice_index, IfSome, IsTrue};
ghost use Rattle.astc_model.specs.Endpoints.{endpoint_integers, clamp_byte};
ghost use Rattle.std.specs.Int.{int_shr};
ghost use Rattle.error_tables.specs.Floors.{form_more, form_less};
ghost use Rattle.colour_bounds.specs.Bounds.{ends_of, IsOthersForm, AreOthers};
ghost use Rattle.colour_bounds.specs.OneChannel.{do_fall, do_rise, moves_one, moved_channel, two_at, moved_ends};
ghost use Rattle.colour_bounds.specs.PartScans.{IsPartScan};
ghost use Rattle.colour_bounds.specs.declared.one_channel.Trend.TheVariants.{Rising, Falling};

use crate::part_scan::{PartitionScan, ends_with, sums_of};
use endpoint_modes::{base_at, base_with_offset_at, clamp_byte_of, half_way, offsets_rise, scaled};
use error_tables::{OneChannel, form_without, one_channel};
use moments::Form;

/// Returns the endpoint mode `cem`, as the constant `MODE` if this is below 16, so that the
/// compiler can specialize code for it.
#[inline(always)]
pub fn mode_as<const MODE: u8>(cem: u8) -> u8
    requires { MODE < 16 → cem ≡ MODE }
    ensures { result ≡ cem }
{
    if MODE < 16 { MODE } else { cem }
}

/// Returns whether the decoder exchanges the endpoints and applies blue contraction: the second
/// colour of modes 8 and 12 has the smaller sum, or the offsets of modes 9 and 13 have a negative
/// sum.
#[inline(always)]
pub fn do_fall(cem: u8, values: &[u8; 8]) -> bool
    requires { length values.now ≡ 8 }
    ensures { result ≡ do_fall cem values.now }
{
    match cem {
        8 | 12 => {
            let (first, second) = sums_of(values);
            first > second
        }
        9 | 13 => !offsets_rise(values),
        _ => false,
    }
}

// Whether the endpoint mode is 8, 9, 12 or 13, and the decoder does not exchange the endpoints.
#[inline(always)]
fn do_rise(cem: u8, values: &[u8; 8]) -> bool
    requires { length values.now ≡ 8 }
    ensures { result ≡ do_rise cem values.now }
{
    match cem {
        8 | 12 => {
            let (first, second) = sums_of(values);
            first <= second
        }
        9 | 13 => offsets_rise(values),
        _ => false,
    }
}

/// The trend of a partition: whether the sum of its colours rises from the first to the second (or
/// the sum of its offsets is 0 or more), or falls. If it falls, the decoder exchanges the endpoints
/// and moves red and green halfway to blue.
#[derive(Clone, Copy)]
pub enum Trend {
    Rising,
    Falling,
}

/// Returns whether the integer at `place` moves only one channel of the endpoints, with values that
/// have this trend; false if the values have the other trend. In the falling trend blue moves
/// several channels.
#[inline(always)]
pub fn moves_one(trend: Trend, cem: u8, values: &[u8; 8], place: u8) -> bool
    requires { length values.now ≡ 8 }
    ensures { result ≡ moves_one trend cem values.now place }
{
    match trend {
        Trend::Rising => match cem {
            6 | 10 => place != 3,
            _ => do_rise(cem, values),
        },
        Trend::Falling => {
            if place / 2 == 2 {
                false
            } else {
                do_fall(cem, values)
            }
        }
    }
}

/// Returns the channel, 0 to 3, that the integer at `place` moves.
#[inline(always)]
pub fn moved_channel(cem: u8, place: u8) -> u8
    ensures { result ≡ moved_channel cem place }
{
    match cem {
        6 | 10 => place.min(3),
        _ => place / 2,
    }
}

// The two endpoints in the channel of the integer at `at`, in the rising trend.
#[inline(always)]
fn risen_ends(cem: u8, values: &[u8; 8], at: usize) -> (u8, u8)
    requires eight { length values.now ≡ 8 }
    requires place { at < 8 }
    ensures { result ≡ moved_ends Rising cem values.now at }
{
    match cem {
        6 | 10 => {
            if at < 4 {
                (scaled(values[at], values[3]), values[at])
            } else {
                (values[4], values[5])
            }
        }
        8 | 12 => (values[2 * (at / 2)], values[2 * (at / 2) + 1]),
        _ => (
            clamp_byte_of(base_at(values, 2 * (at / 2))),
            clamp_byte_of(base_with_offset_at(values, 2 * (at / 2))),
        ),
    }
}

// Both colours in one channel, before exchange and blue contraction; the values of the channel
// begin at `at`.
#[inline(always)]
fn two_at(cem: u8, values: &[u8; 8], at: usize) -> (i32, i32)
    requires eight { length values.now ≡ 8 }
    requires place { at + 1 < 8 }
    ensures value { result ≡ two_at cem values.now at }
    ensures first_low { negsuc 31 ≤ℤ result.0 }
    ensures first_high { result.0 ≤ℤ pos 286 }
    ensures second_low { negsuc 31 ≤ℤ result.1 }
    ensures second_high { result.1 ≤ℤ pos 286 }
{
    match cem {
        8 | 12 => (i32::from(values[at]), i32::from(values[at + 1])),
        _ => (base_at(values, at), base_with_offset_at(values, at)),
    }
}

/// Returns a channel moved halfway to blue and clamped to a byte.
#[inline(always)]
pub fn contracted(channel: i32, blue: i32) -> u8
    requires channel_low { negsuc 511 ≤ℤ channel }
    requires channel_high { channel ≤ℤ pos 511 }
    requires blue_low { negsuc 511 ≤ℤ blue }
    requires blue_high { blue ≤ℤ pos 511 }
    ensures { result ≡ clamp_byte (int_shr (channel +ℤ blue) 1) }
{
    clamp_byte_of(half_way(channel, blue))
}

// The two endpoints in the channel of the integer at `at`, in the falling trend: exchanged, and red
// and green with blue contraction.
#[inline(always)]
fn fallen_ends(cem: u8, values: &[u8; 8], at: usize) -> (u8, u8)
    requires eight { length values.now ≡ 8 }
    requires place { at < 8 }
    ensures { result ≡ moved_ends Falling cem values.now at }
{
    let (first, second) = two_at(cem, values, 2 * (at / 2));
    if at / 2 == 3 {
        return (clamp_byte_of(second), clamp_byte_of(first));
    }
    let (blue, other_blue) = two_at(cem, values, 4);
    (contracted(second, other_blue), contracted(first, blue))
}

/// Returns the two endpoints in the channel of the integer at `place`.
#[inline(always)]
pub fn moved_ends(trend: Trend, cem: u8, values: &[u8; 8], place: u8) -> (u8, u8)
    requires eight { length values.now ≡ 8 }
    requires place { place < 8 }
    ensures { result ≡ moved_ends trend cem values.now place }
{
    match trend {
        Trend::Rising => risen_ends(cem, values, usize::from(place)),
        Trend::Falling => fallen_ends(cem, values, usize::from(place)),
    }
}

/// Returns a value at `place` with which the trend falls, if it falls with any value.
pub fn falling_value(cem: u8, place: u8) -> u8 {
    if place % 2 == 0 {
        255
    } else if cem == 9 || cem == 13 {
        64
    } else {
        0
    }
}

/// Returns the form of a partition without the one channel that the integer at `place` moves. None
/// if with `value` the trend is another or the integer moves several channels.
pub fn others_form<const W: usize, const H: usize>(
    scan: &PartitionScan,
    trend: Trend,
    place: u8,
    value: u8,
) -> Option<Form>
    requires scan { IsPartScan W H scan.now }
    requires place { place < endpoint_integers scan.now.cem }
    ensures { IfSome result (IsOthersForm scan.now trend place) }
{
    let mut values = scan.values;
    values[usize::from(place)] = value;
    if !moves_one(trend, scan.cem, &values, place) {
        return None;
    }
    let ends = ends_with(scan, place, value);
    let channel = moved_channel(scan.cem, place);
    let others = form_without(scan.tables, &scan.floor, channel, &ends);
    Some(others)
}

/// Returns the form of a partition as a function of the endpoints of the one channel that the
/// integer at `place` moves. None if with `value` the trend is another or the integer moves several
/// channels.
pub fn others_of<const W: usize, const H: usize>(
    scan: &PartitionScan,
    trend: Trend,
    place: u8,
    value: u8,
) -> Option<OneChannel>
    requires scan { IsPartScan W H scan.now }
    requires place { place < endpoint_integers scan.now.cem }
    ensures { IfSome result (AreOthers scan.now trend place) }
{
    match others_form::<W, H>(scan, trend, place, value) {
        None => None,
        Some(others) => {
            let channel = moved_channel(scan.cem, place);
            Some(one_channel(scan.tables, &scan.floor, channel, &others))
        }
    }
}

// Whether the form with a value at `place` is at least `most`; false if the value has another
// trend.
#[inline(always)]
fn is_far_with<const W: usize, const H: usize, const MODE: u8>(
    scan: &PartitionScan,
    trend: Trend,
    others: &OneChannel,
    place: u8,
    value: u8,
    most: u64,
) -> bool
    requires scan { IsPartScan W H scan.now }
    requires mode { MODE < 16 → scan.now.cem ≡ MODE }
    requires place { place < endpoint_integers scan.now.cem }
    requires others { AreOthers scan.now trend place others.now }
    requires most { most ≤ 2 ^ 61 }
    ensures { IsTrue result → form_less scan.now.tables.now scan.now.floor
        (ends_of scan.now.cem scan.now.values place value) + most
        ≤ form_more scan.now.tables.now scan.now.floor
        (ends_of scan.now.cem scan.now.values place value) }
{
    let cem = mode_as::<MODE>(scan.cem);
    let mut values = scan.values;
    values[usize::from(place)] = value;
    if !moves_one(trend, cem, &values, place) {
        return false;
    }
    let (first, second) = moved_ends(trend, cem, &values, place);
    others.reaches(first, second, most)
}

/// Returns whether `others`, the form by the one channel that the integer at `place` moves in this
/// trend, shows that the form with `value` is at least `most`. False if the integer moves several
/// channels or the value has another trend.
#[inline(always)]
pub fn is_far_by_channel<const W: usize, const H: usize, const MODE: u8>(
    scan: &PartitionScan,
    trend: Trend,
    others: &Option<OneChannel>,
    place: u8,
    value: u8,
    most: u64,
) -> bool
    requires scan { IsPartScan W H scan.now }
    requires mode { MODE < 16 → scan.now.cem ≡ MODE }
    requires place { place < endpoint_integers scan.now.cem }
    requires others { IfSome others.now (AreOthers scan.now trend place) }
    requires most { most ≤ 2 ^ 61 }
    ensures { IsTrue result → form_less scan.now.tables.now scan.now.floor
        (ends_of scan.now.cem scan.now.values place value) + most
        ≤ form_more scan.now.tables.now scan.now.floor
        (ends_of scan.now.cem scan.now.values place value) }
{
    match others {
        None => false,
        Some(others) => is_far_with::<W, H, MODE>(scan, trend, others, place, value, most),
    }
}

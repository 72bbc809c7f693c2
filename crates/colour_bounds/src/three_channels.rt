// Bounds for a colour integer that moves red, green and blue of one endpoint and nothing else.
ghost use Rattle.std.specs.Prelude.{◌≡◌, ℕ, ◌+◌, ◌*◌, ◌/◌, ◌%◌, ◌<◌, ◌≤◌, ◌^◌, ◌↔◌, length, slice_index, slice_set, IfSome, IsTrue};
ghost use Rattle.std.specs.List.{All};
ghost use Rattle.astc_model.specs.Endpoints.{endpoint_integers};
ghost use Rattle.error_tables.specs.ChannelForms.{one_more, one_less, IsSmallOne};
ghost use Rattle.error_tables.specs.Floors.{IsSmallFloor, form_more, form_less, channel_more, channel_less};
ghost use Rattle.colour_bounds.specs.Bounds.{ends_of, AreThree};
ghost use Rattle.colour_bounds.specs.OneChannel.{is_exchanging};
ghost use Rattle.colour_bounds.specs.PartScans.{IsPartScan};
ghost use Rattle.colour_bounds.specs.ThreeChannels.{moves_three, moved_red, moved_green, moved_blue, with_colour_at, end_more, end_less, three_more, three_less, IsSmallEnd, IsSmallThree};

use crate::one_channel::{contracted, do_fall, falling_value, mode_as};
use crate::part_scan::{PartitionScan, ends_with};
use endpoint_modes::{clamp_byte_of, scaled};
use error_tables::{OneChannel, PartitionFloor, Tables, form_of, one_channel};
use moments::{Form, Moments};

/// The term of a channel in the form of a partition as a function of one endpoint e, which is
/// `square` * e^2 + `slope` * e minus `less_slope` * e.
#[derive(Clone, Copy)]
pub struct OneEnd {
    pub square: u64,
    pub slope: u64,
    pub less_slope: u64,
}

/// The form of a partition as a function of red, green and blue of one endpoint.
#[derive(Clone, Copy)]
pub struct ThreeChannels {
    pub red: OneEnd,
    pub green: OneEnd,
    pub blue: OneEnd,
    pub start: u64,
    pub less_start: u64,
}

// Whether the integer at `place` moves red, green and blue of one endpoint and nothing else: it is
// the scale of modes 6 and 10, or a blue of modes 8 and 12 in the falling trend, to which blue
// contraction moves red and green.
#[inline(always)]
fn moves_three(cem: u8, values: &[u8; 8], place: u8) -> bool
    requires { length values.now ≡ 8 }
    ensures { result ≡ moves_three cem values.now place }
{
    match cem {
        6 | 10 => place == 3,
        8 | 12 => place / 2 == 2 && do_fall(cem, values),
        _ => false,
    }
}

// Red of the endpoint that the integer moves.
#[inline(always)]
fn moved_red(cem: u8, values: &[u8; 8], place: u8) -> u8
    requires eight { length values.now ≡ 8 }
    requires place { place < 8 }
    ensures { result ≡ moved_red cem values.now place }
{
    match cem {
        6 | 10 => scaled(values[0], values[3]),
        _ => contracted(
            i32::from(values[usize::from(place % 2)]),
            i32::from(values[usize::from(place)]),
        ),
    }
}

// Green of the endpoint that the integer moves.
#[inline(always)]
fn moved_green(cem: u8, values: &[u8; 8], place: u8) -> u8
    requires eight { length values.now ≡ 8 }
    requires place { place < 8 }
    ensures { result ≡ moved_green cem values.now place }
{
    match cem {
        6 | 10 => scaled(values[1], values[3]),
        _ => contracted(
            i32::from(values[2 + usize::from(place % 2)]),
            i32::from(values[usize::from(place)]),
        ),
    }
}

// Blue of the endpoint that the integer moves.
#[inline(always)]
fn moved_blue(cem: u8, values: &[u8; 8], place: u8) -> u8
    requires eight { length values.now ≡ 8 }
    requires place { place < 8 }
    ensures { result ≡ moved_blue cem values.now place }
{
    match cem {
        6 | 10 => scaled(values[2], values[3]),
        _ => clamp_byte_of(i32::from(values[usize::from(place)])),
    }
}

// A factor times the product of two endpoints.
#[inline(always)]
fn of_two(factor: u64, a: u8, b: u8) -> u64
    requires { factor ≤ 2 ^ 41 }
    ensures exact { result ≡ factor * (a * b) }
    ensures small { result ≤ 65025 * 2 ^ 41 }
{
    factor * (u64::from(a) * u64::from(b))
}

// A factor times an endpoint.
#[inline(always)]
fn of_one(factor: u64, a: u8) -> u64
    requires { factor ≤ 2 ^ 49 }
    ensures exact { result ≡ factor * a }
    ensures small { result ≤ 255 * 2 ^ 49 }
    ensures smaller { factor ≤ 2 ^ 41 → result ≤ 255 * 2 ^ 41 }
{
    factor * u64::from(a)
}

// The term of a channel as a function of its first endpoint, with this second endpoint.
fn by_first(one: &OneChannel, second: u8) -> OneEnd
    requires { IsSmallOne one.now }
    ensures small { IsSmallEnd result }
    ensures more { (first : ℕ) → end_more result first + one.now.second_square * (second * second)
        + one.now.start ≡ one_more one.now first second }
    ensures less { (first : ℕ) → end_less result first + one.now.less_second * second
        + one.now.less_start ≡ one_less one.now first second }
{
    OneEnd {
        square: one.first_square,
        slope: of_one(one.product, second),
        less_slope: one.less_first,
    }
}

// The part of the added term that depends on the second endpoint only.
fn start_of(one: &OneChannel, second: u8) -> u64
    requires { IsSmallOne one.now }
    ensures exact { result ≡ one.now.second_square * (second * second) + one.now.start }
    ensures small { result ≤ 65025 * 2 ^ 41 + 2 ^ 62 }
{
    of_two(one.second_square, second, second) + one.start
}

// The part of the subtracted term that depends on the second endpoint only.
fn less_start_of(one: &OneChannel, second: u8) -> u64
    requires { IsSmallOne one.now }
    ensures exact { result ≡ one.now.less_second * second + one.now.less_start }
    ensures small { result ≤ 255 * 2 ^ 49 + 2 ^ 61 }
{
    of_one(one.less_second, second) + one.less_start
}

// The form of three channels as a function of their first endpoints, with these second endpoints.
fn together(
    red: &OneChannel,
    green: &OneChannel,
    blue: &OneChannel,
    second: &[u8; 4],
) -> ThreeChannels
    requires red { IsSmallOne red.now }
    requires green { IsSmallOne green.now }
    requires blue { IsSmallOne blue.now }
    ensures small { IsSmallThree result }
    ensures more { (r g b : ℕ) → three_more result r g b ≡ one_more red.now r
        (slice_index second.now 0) + one_more green.now g (slice_index second.now 1)
        + one_more blue.now b (slice_index second.now 2) }
    ensures less { (r g b : ℕ) → three_less result r g b ≡ one_less red.now r
        (slice_index second.now 0) + one_less green.now g (slice_index second.now 1)
        + one_less blue.now b (slice_index second.now 2) }
{
    ThreeChannels {
        red: by_first(red, second[0]),
        green: by_first(green, second[1]),
        blue: by_first(blue, second[2]),
        start: start_of(red, second[0]) + start_of(green, second[1]) + start_of(blue, second[2]),
        less_start: less_start_of(red, second[0])
            + less_start_of(green, second[1])
            + less_start_of(blue, second[2]),
    }
}

// The form of a channel with its endpoints exchanged.
fn exchanged(one: &OneChannel) -> OneChannel
    requires { IsSmallOne one.now }
    ensures small { IsSmallOne result }
    ensures more { (first second : ℕ) → one_more result first second ≡ one_more one.now second
        first }
    ensures less { (first second : ℕ) → one_less result first second ≡ one_less one.now second
        first }
{
    OneChannel {
        first_square: one.second_square,
        product: one.product,
        second_square: one.first_square,
        start: one.start,
        less_first: one.less_second,
        less_second: one.less_first,
        less_start: one.less_start,
    }
}

// The form of a partition in alpha alone.
fn alpha_form(tables: &Tables, floor: &PartitionFloor, ends: &([u8; 4], [u8; 4])) -> Form
    requires weights { All (λ weight. weight ≤ 15) tables.now.weights }
    requires small { IsSmallFloor floor.now }
    ensures more { result.more ≡ channel_more tables.now floor.now 3 (slice_index ends.now.0 3)
        (slice_index ends.now.1 3) }
    ensures less { result.less ≡ channel_less tables.now floor.now 3 (slice_index ends.now.0 3)
        (slice_index ends.now.1 3) }
    ensures small_more { result.more ≤ 2 ^ 61 }
    ensures small_less { result.less ≤ 2 ^ 61 }
{
    let alone = PartitionFloor {
        red: Moments::new(),
        green: Moments::new(),
        blue: Moments::new(),
        alpha: floor.alpha,
        count: floor.count,
        taken: floor.taken,
    };
    form_of(tables, &alone, ends)
}

// The form of a partition as a function of red, green and blue of its first endpoint if `place` is
// odd, else of its second. The other endpoint and alpha are those of `ends`.
fn three_channels(
    tables: &Tables,
    floor: &PartitionFloor,
    place: u8,
    ends: &([u8; 4], [u8; 4]),
) -> ThreeChannels
    requires weights { All (λ weight. weight ≤ 15) tables.now.weights }
    requires small { IsSmallFloor floor.now }
    ensures small { IsSmallThree result }
    ensures more { (r g b : ℕ) → three_more result r g b ≡ form_more tables.now floor.now
        (with_colour_at place r g b ends.now) }
    ensures less { (r g b : ℕ) → three_less result r g b ≡ form_less tables.now floor.now
        (with_colour_at place r g b ends.now) }
{
    let red = one_channel(tables, floor, 0, &alpha_form(tables, floor, ends));
    let green = one_channel(tables, floor, 1, &Form::new());
    let blue = one_channel(tables, floor, 2, &Form::new());
    if place % 2 == 1 {
        together(&red, &green, &blue, &ends.1)
    } else {
        together(
            &exchanged(&red),
            &exchanged(&green),
            &exchanged(&blue),
            &ends.0,
        )
    }
}

/// Returns the form of a partition as a function of red, green and blue of the endpoint that the
/// integer at `place` moves. None if no value of the integer moves these three and nothing else.
pub fn three_channels_of<const W: usize, const H: usize>(
    scan: &PartitionScan,
    place: u8,
) -> Option<ThreeChannels>
    requires scan { IsPartScan W H scan.now }
    requires place { place < endpoint_integers scan.now.cem }
    ensures { IfSome result (AreThree scan.now place) }
{
    let value = falling_value(scan.cem, place);
    let mut values = scan.values;
    values[usize::from(place)] = value;
    if !moves_three(scan.cem, &values, place) {
        return None;
    }
    let ends = ends_with(scan, place, value);
    Some(three_channels(scan.tables, &scan.floor, place, &ends))
}

impl OneEnd {
    // The added term of the channel with this endpoint.
    #[inline(always)]
    fn more_at(&self, end: u8) -> u64
        requires { IsSmallEnd self.now }
        ensures exact { result ≡ end_more self.now end }
        ensures small { result ≤ 130050 * 2 ^ 41 }
    {
        of_two(self.square, end, end) + self.slope * u64::from(end)
    }

    // The subtracted term of the channel with this endpoint.
    #[inline(always)]
    fn less_at(&self, end: u8) -> u64
        requires { IsSmallEnd self.now }
        ensures exact { result ≡ end_less self.now end }
        ensures small { result ≤ 255 * 2 ^ 49 }
    {
        of_one(self.less_slope, end)
    }
}

impl ThreeChannels {
    /// Returns whether the form with this red, green and blue is at least `most`.
    #[inline(always)]
    pub fn reaches(&self, red: u8, green: u8, blue: u8, most: u64) -> bool
        requires small { IsSmallThree self.now }
        requires most { most ≤ 2 ^ 61 }
        ensures { IsTrue result ↔ (three_less self.now red green blue + most ≤ three_more self.now
            red green blue) }
    {
        let more = self.red.more_at(red)
            + self.green.more_at(green)
            + self.blue.more_at(blue)
            + self.start;
        let less = self.red.less_at(red)
            + self.green.less_at(green)
            + self.blue.less_at(blue)
            + self.less_start;
        more >= less + most
    }
}

// Whether the form with `value` at `place` is at least `most`; false if the value moves other
// channels.
#[inline(always)]
fn is_far_with_three<const W: usize, const H: usize, const MODE: u8>(
    scan: &PartitionScan,
    three: &ThreeChannels,
    place: u8,
    value: u8,
    most: u64,
) -> bool
    requires scan { IsPartScan W H scan.now }
    requires mode { MODE < 16 → scan.now.cem ≡ MODE }
    requires place { place < endpoint_integers scan.now.cem }
    requires three { AreThree scan.now place three.now }
    requires most { most ≤ 2 ^ 61 }
    ensures { IsTrue result → form_less scan.now.tables.now scan.now.floor
        (ends_of scan.now.cem scan.now.values place value) + most
        ≤ form_more scan.now.tables.now scan.now.floor
        (ends_of scan.now.cem scan.now.values place value) }
{
    let cem = mode_as::<MODE>(scan.cem);
    let mut values = scan.values;
    values[usize::from(place)] = value;
    if !moves_three(cem, &values, place) {
        return false;
    }
    let red = moved_red(cem, &values, place);
    let green = moved_green(cem, &values, place);
    let blue = moved_blue(cem, &values, place);
    three.reaches(red, green, blue, most)
}

/// Returns whether the red, green and blue that the integer at `place` moves show that the form
/// with `value` is at least `most`. False if the value moves other channels, or `three` is None.
#[inline(always)]
pub fn is_far_by_three_channels<const W: usize, const H: usize, const MODE: u8>(
    scan: &PartitionScan,
    three: &Option<ThreeChannels>,
    place: u8,
    value: u8,
    most: u64,
) -> bool
    requires scan { IsPartScan W H scan.now }
    requires mode { MODE < 16 → scan.now.cem ≡ MODE }
    requires place { place < endpoint_integers scan.now.cem }
    requires three { IfSome three.now (AreThree scan.now place) }
    requires most { most ≤ 2 ^ 61 }
    ensures { IsTrue result → form_less scan.now.tables.now scan.now.floor
        (ends_of scan.now.cem scan.now.values place value) + most
        ≤ form_more scan.now.tables.now scan.now.floor
        (ends_of scan.now.cem scan.now.values place value) }
{
    match three {
        None => false,
        Some(three) => is_far_with_three::<W, H, MODE>(scan, three, place, value, most),
    }
}

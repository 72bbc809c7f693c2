// The form of a part in one channel.
ghost use Rattle.std.specs.Prelude.{◌≡◌, ℕ, ◌+◌, ◌*◌, ◌^◌, ◌<◌, ◌≤◌, ◌↔◌, IsTrue, slice_index};
ghost use Rattle.std.specs.List.{All};
ghost use Rattle.moments.specs.Floors.{AreSmall, factor_of, more_of, less_of};
ghost use Rattle.error_tables.specs.Floors.{IsSmallFloor, form_more, form_less, moments_at, channel_more, channel_less};
ghost use Rattle.error_tables.specs.ChannelForms.{one_more, one_less, IsSmallOne};

use crate::channels::share_at;
use crate::floors::{PartitionFloor, form_of, widening_of};
use crate::tables::Tables;
use moments::{Form, Moments, Widening};

/// The moments of a channel.
#[inline(always)]
pub fn moments_at(floor: &PartitionFloor, channel: u8) -> Moments
    requires { IsSmallFloor floor.now }
    ensures exact { result ≡ moments_at floor.now channel }
    ensures small { AreSmall result }
{
    match channel {
        0 => floor.red,
        1 => floor.green,
        2 => floor.blue,
        _ => floor.alpha,
    }
}

// The term of a channel between two ends in the form of a partition.
fn channel_form(tables: &Tables, floor: &PartitionFloor, channel: u8, first: u8, second: u8) -> Form
    requires weights { All (λ weight. weight ≤ 15) tables.now.weights }
    requires small { IsSmallFloor floor.now }
    requires channel { channel < 4 }
    ensures more { result.more ≡ channel_more tables.now floor.now channel first second }
    ensures less { result.less ≡ channel_less tables.now floor.now channel first second }
    ensures small_more { result.more ≤ 2 ^ 59 }
    ensures small_less { result.less ≤ 2 ^ 59 }
{
    let share = u64::from(share_at(tables, channel));
    let widening = widening_of(tables.decoded.flavour, channel);
    let moments = moments_at(floor, channel);
    let mut form = Form::new();
    form.add(share, widening, &moments, first, second);
    form
}

/// The form of a part at these ends without one channel.
pub fn form_without(
    tables: &Tables,
    floor: &PartitionFloor,
    channel: u8,
    ends: &([u8; 4], [u8; 4]),
) -> Form
    requires weights { All (λ weight. weight ≤ 15) tables.now.weights }
    requires small { IsSmallFloor floor.now }
    requires channel { channel < 4 }
    ensures more { result.more + channel_more tables.now floor.now channel
        (slice_index ends.now.0 channel) (slice_index ends.now.1 channel)
        ≡ form_more tables.now floor.now ends.now }
    ensures less { result.less + channel_less tables.now floor.now channel
        (slice_index ends.now.0 channel) (slice_index ends.now.1 channel)
        ≡ form_less tables.now floor.now ends.now }
    ensures small_more { result.more ≤ 2 ^ 61 }
    ensures small_less { result.less ≤ 2 ^ 61 }
{
    let whole = form_of(tables, floor, ends);
    let at = usize::from(channel);
    let own = channel_form(tables, floor, channel, ends.0[at], ends.1[at]);
    Form {
        more: whole.more - own.more,
        less: whole.less - own.less,
    }
}

/// The form of a part by the two ends of one channel: multiples of their squares and of their
/// product and a start, without multiples of both and another start.
#[derive(Clone, Copy)]
pub struct OneChannel {
    pub first_square: u64,
    pub product: u64,
    pub second_square: u64,
    pub start: u64,
    pub less_first: u64,
    pub less_second: u64,
    pub less_start: u64,
}

// The factor of a value in the shown byte.
fn factor_of(widening: Widening) -> u64
    ensures exact { result ≡ factor_of widening }
    ensures small { result ≤ 257 }
{
    match widening {
        Widening::Repeated => 257,
        Widening::Centred => 256,
    }
}

// A product of a sum of squares.
fn of_squares(factor: u64, squares: u64) -> u64
    requires factor { factor ≤ 990735 }
    requires squares { squares < 2 ^ 20 }
    ensures exact { result ≡ factor * squares }
    ensures small { result < 2 ^ 40 }
{
    factor * squares
}

// A product of a sum of targets.
fn of_targets(factor: u64, targets: u64) -> u64
    requires factor { factor ≤ 3855 }
    requires targets { targets < 2 ^ 36 }
    ensures exact { result ≡ factor * targets }
    ensures small { result < 2 ^ 48 }
{
    factor * targets
}

// The multiples for a channel of these moments.
fn multiples(share: u64, factor: u64, moments: &Moments, others: &Form) -> OneChannel
    requires share { share ≤ 15 }
    requires factor { factor ≤ 257 }
    requires small { AreSmall moments.now }
    requires small_more { others.now.more ≤ 2 ^ 61 }
    requires small_less { others.now.less ≤ 2 ^ 61 }
    ensures small { IsSmallOne result }
    ensures more { (first second : ℕ) → one_more result first second
        ≡ others.now.more + share * more_of moments.now (factor * first) (factor * second) }
    ensures less { (first second : ℕ) → one_less result first second
        ≡ others.now.less + share * less_of moments.now (factor * first) (factor * second) }
{
    let first_squares = of_squares(share * factor * factor, moments.first_squares);
    let products = of_squares(share * factor * factor, moments.products);
    let second_squares = of_squares(share * factor * factor, moments.second_squares);
    let first_targets = of_targets(share * factor, moments.first_targets);
    let second_targets = of_targets(share * factor, moments.second_targets);
    OneChannel {
        first_square: first_squares,
        product: 2 * products,
        second_square: second_squares,
        start: others.more + share * moments.target_squares,
        less_first: 2 * first_targets,
        less_second: 2 * second_targets,
        less_start: others.less,
    }
}

/// The form of a part by the ends of one channel, from that of the others.
pub fn one_channel(
    tables: &Tables,
    floor: &PartitionFloor,
    channel: u8,
    others: &Form,
) -> OneChannel
    requires weights { All (λ weight. weight ≤ 15) tables.now.weights }
    requires small { IsSmallFloor floor.now }
    requires channel { channel < 4 }
    requires small_more { others.now.more ≤ 2 ^ 61 }
    requires small_less { others.now.less ≤ 2 ^ 61 }
    ensures small { IsSmallOne result }
    ensures more { (first second : ℕ) → one_more result first second
        ≡ others.now.more + channel_more tables.now floor.now channel first second }
    ensures less { (first second : ℕ) → one_less result first second
        ≡ others.now.less + channel_less tables.now floor.now channel first second }
{
    let share = u64::from(share_at(tables, channel));
    let factor = factor_of(widening_of(tables.decoded.flavour, channel));
    let moments = moments_at(floor, channel);
    multiples(share, factor, &moments, others)
}

// A multiple of a product of two ends.
#[inline(always)]
fn of_two(factor: u64, a: u8, b: u8) -> u64
    requires { factor ≤ 2 ^ 41 }
    ensures exact { result ≡ factor * (a * b) }
    ensures small { result ≤ 65025 * 2 ^ 41 }
{
    factor * (u64::from(a) * u64::from(b))
}

// A multiple of an end.
#[inline(always)]
fn of_one(factor: u64, a: u8) -> u64
    requires { factor ≤ 2 ^ 49 }
    ensures exact { result ≡ factor * a }
    ensures small { result ≤ 255 * 2 ^ 49 }
{
    factor * u64::from(a)
}

impl OneChannel {
    /// Whether the form between two ends reaches this.
    #[inline(always)]
    pub fn reaches(&self, first: u8, second: u8, most: u64) -> bool
        requires small { IsSmallOne self.now }
        requires most { most ≤ 2 ^ 61 }
        ensures { IsTrue result ↔
            (one_less self.now first second + most ≤ one_more self.now first second) }
    {
        let more = of_two(self.first_square, first, first)
            + of_two(self.product, first, second)
            + of_two(self.second_square, second, second)
            + self.start;
        let less = of_one(self.less_first, first)
            + of_one(self.less_second, second)
            + self.less_start;
        more >= less + most
    }
}

// The error of one channel of some places.
ghost use Rattle.std.specs.Prelude.{◌≡◌, ◌+◌, ◌*◌, ◌-◌, ◌/◌, ◌<◌, ◌≤◌, length, slice_index, sum_by, IfSome};
ghost use Rattle.std.specs.List.{All};
ghost use Rattle.astc_model.specs.CodedTexels.{mixed};
ghost use Rattle.astc_model.specs.Errors.{squared_difference};
ghost use Rattle.moments.specs.Floors.{widened_by};
ghost use Rattle.texel_error.specs.Limited.{under};
ghost use Rattle.error_tables.specs.Floors.{channel_part};
ghost use Rattle.error_tables.specs.Trials.{AreTablesSmall};

use crate::floors::{weight_at, widening_of};
use crate::tables::Tables;
use moments::Widening;

// A channel of an end, widened to 16 bits.
#[inline(always)]
fn widened_by(widening: Widening, value: u8) -> u32
    ensures exact { result ≡ widened_by widening value }
    ensures small { result ≤ 65535 }
{
    match widening {
        Widening::Repeated => 257 * u32::from(value),
        Widening::Centred => 256 * u32::from(value) + 128,
    }
}

// A part of an end.
#[inline(always)]
fn scaled(end: u32, weight: u32) -> u32
    requires end { end ≤ 65535 }
    requires weight { weight ≤ 64 }
    ensures exact { result ≡ end * weight }
    ensures small { result ≤ 65535 * weight }
{
    end * weight
}

// Two ends of 16 bits, mixed, and their top byte.
#[inline(always)]
fn mixed(first: u32, second: u32, weight: u32) -> u8
    requires first { first ≤ 65535 }
    requires second { second ≤ 65535 }
    requires weight { weight ≤ 64 }
    ensures { result ≡ mixed first second weight / 256 }
{
    ((scaled(first, 64 - weight) + scaled(second, weight) + 32) / 64 / 256) as u8
}

#[inline(always)]
fn squared_difference(a: u8, b: u8) -> u32
    ensures exact { result ≡ squared_difference a b }
    ensures small { result ≤ 65025 }
{
    let apart = u32::from(a.abs_diff(b));
    apart * apart
}

// The squared difference of a channel between two ends from a place's texel, 0 outside.
#[inline(always)]
#[tactic(auto, unfolding(crate::specs::Floors::channel_part))]
fn channel_part(tables: &Tables, channel: u8, first: u8, second: u8, p: usize) -> u32
    requires small { AreTablesSmall tables.now }
    requires place { p < length tables.now.places.now }
    requires channel { channel < 4 }
    ensures exact { result ≡ channel_part tables.now channel first second p }
    ensures small { result ≤ 65025 }
{
    match &tables.places[p] {
        Some(wanted) => {
            let widening = widening_of(tables.decoded.flavour, channel);
            let first = widened_by(widening, first);
            let second = widened_by(widening, second);
            let weight = u32::from(weight_at(tables, p, channel));
            squared_difference(mixed(first, second, weight), wanted[usize::from(channel)])
        }
        None => 0,
    }
}

/// The sum of the squared differences of a channel between two ends over these places.
pub fn channel_sum(tables: &Tables, reach: &[u8], channel: u8, first: u8, second: u8) -> u32
    requires small { AreTablesSmall tables.now }
    requires few_reached { length reach.now ≤ 144 }
    requires within { All (λ p. p < length tables.now.places.now) reach.now }
    requires channel { channel < 4 }
    ensures exact { result ≡ sum_by (channel_part tables.now channel first second) reach.now }
    ensures small { result ≤ 9363600 }
{
    let mut error = 0;
    for p in reach {
        error += channel_part(tables, channel, first, second, usize::from(*p));
    }
    error
}

/// How often a channel counts.
pub fn share_at(tables: &Tables, channel: u8) -> u32
    requires weights { All (λ weight. weight ≤ 15) tables.now.weights }
    requires channel { channel < 4 }
    ensures exact { result ≡ slice_index tables.now.weights channel }
    ensures small { result ≤ 15 }
{
    let [red, green, blue, alpha] = tables.weights;
    u32::from(match channel {
        0 => red,
        1 => green,
        2 => blue,
        _ => alpha,
    })
}

/// The term of a channel with the weight `share`.
pub fn shared(share: u32, error: u32) -> u32
    requires share { share ≤ 15 }
    requires error { error ≤ 9363600 }
    ensures exact { result ≡ share * error }
    ensures small { result ≤ 140454000 }
{
    share * error
}

/// The term of a channel between two ends in the errors of these places.
pub fn channel_error(tables: &Tables, reach: &[u8], channel: u8, first: u8, second: u8) -> u32
    requires small { AreTablesSmall tables.now }
    requires few_reached { length reach.now ≤ 144 }
    requires within { All (λ p. p < length tables.now.places.now) reach.now }
    requires channel { channel < 4 }
    ensures exact { result ≡ slice_index tables.now.weights channel * sum_by
        (channel_part tables.now channel first second) reach.now }
    ensures small { result ≤ 140454000 }
{
    let error = channel_sum(tables, reach, channel, first, second);
    shared(share_at(tables, channel), error)
}

/// The same, if it is under the bar; None exactly if it is not. How many places are evaluated is
/// not promised.
pub fn channel_error_under(
    tables: &Tables,
    reach: &[u8],
    channel: u8,
    first: u8,
    second: u8,
    bar: u32,
) -> Option<u32>
    requires small { AreTablesSmall tables.now }
    requires few_reached { length reach.now ≤ 144 }
    requires within { All (λ p. p < length tables.now.places.now) reach.now }
    requires channel { channel < 4 }
    ensures exact { result ≡ under bar (slice_index tables.now.weights channel * sum_by
        (channel_part tables.now channel first second) reach.now) }
    ensures small { IfSome result (λ error. error ≤ 140454000) }
{
    let share = share_at(tables, channel);
    let mut error = 0;
    for p in reach {
        if shared(share, error) >= bar {
            return None;
        }
        error += channel_part(tables, channel, first, second, usize::from(*p));
    }
    let all = shared(share, error);
    if all < bar { Some(all) } else { None }
}

// Floors of the error of a part over all ends of which one is given.
ghost use Rattle.std.specs.Prelude.{◌≡◌, ℕ, ◌+◌, ◌*◌, ◌^◌, ◌<◌, ◌≤◌, ◌↔◌, List, IsTrue};
ghost use Rattle.std.specs.List.{All};
ghost use Rattle.astc_model.specs.Places.{channel};
ghost use Rattle.moments.specs.Floors.{AreSmall, factor_of, more_of, less_of};
ghost use Rattle.error_tables.specs.Floors.{IsSmallFloor, widening_of, form_more, form_less};
ghost use Rattle.error_tables.specs.RowFloors.{has_rows, swapped, swapped_floor, plus_at, minus_at, IsEndFar, AreForms};

use crate::floors::{PartitionFloor, widening_of};
use crate::tables::Tables;
use astc_model::Flavour;
use moments::{Moments, Widening, scaled};

/// The moments with the ends exchanged.
pub fn swapped(moments: &Moments) -> Moments
    ensures { result ≡ swapped moments.now }
{
    Moments {
        first_squares: moments.second_squares,
        products: moments.products,
        second_squares: moments.first_squares,
        first_targets: moments.second_targets,
        second_targets: moments.first_targets,
        target_squares: moments.target_squares,
    }
}

/// The data of the texels of a partition with exchanged ends.
pub fn swapped_floor(floor: &PartitionFloor) -> PartitionFloor
    requires small { IsSmallFloor floor.now }
    ensures exact { result ≡ swapped_floor floor.now }
    ensures small { IsSmallFloor result }
{
    PartitionFloor {
        red: swapped(&floor.red),
        green: swapped(&floor.green),
        blue: swapped(&floor.blue),
        alpha: swapped(&floor.alpha),
        count: floor.count,
        taken: floor.taken,
    }
}

#[inline(always)]
fn wide_product(a: u64, b: u64) -> u128
    requires a_small { a < 2 ^ 36 }
    requires b_small { b < 2 ^ 62 }
    ensures exact { result ≡ a * b }
    ensures small { result < 2 ^ 98 }
{
    u128::from(a) * u128::from(b)
}

#[inline(always)]
#[tactic(auto, using(moments::proofs::KeptLaws::product_fits))]
fn plus_at(moments: &Moments, first: u64) -> u128
    requires small { AreSmall moments.now }
    requires first { first < 2 ^ 16 }
    ensures exact { result ≡ plus_at moments.now first }
    ensures small { result < 2 ^ 100 }
{
    let own = first * first * moments.first_squares + moments.target_squares;
    wide_product(moments.second_squares, own)
        + 2 * wide_product(moments.products, first * moments.second_targets)
}

#[inline(always)]
fn minus_at(moments: &Moments, first: u64) -> u128
    requires small { AreSmall moments.now }
    requires first { first < 2 ^ 16 }
    ensures exact { result ≡ minus_at moments.now first }
    ensures small { result < 2 ^ 100 }
{
    let moved = moments.products * first;
    wide_product(moments.second_squares, 2 * (first * moments.first_targets))
        + wide_product(moved, moved)
        + wide_product(moments.second_targets, moments.second_targets)
}

/// Whether the least form of a channel with this first end, whatever its second end is, reaches
/// this.
#[inline(always)]
pub fn is_end_far(moments: &Moments, widening: Widening, first: u8, most: u64) -> bool
    requires small { AreSmall moments.now }
    requires most { most ≤ 2 ^ 61 }
    ensures { IsTrue result ↔ IsEndFar moments.now (factor_of widening * first) most }
{
    let first = scaled(widening, first);
    let most = wide_product(moments.second_squares, most);
    plus_at(moments, first) >= minus_at(moments, first) + most
}

// The least form of a channel, whatever its second end is.
fn least_at(moments: &Moments, first: u64) -> u64
    requires small { AreSmall moments.now }
    requires first { first < 2 ^ 16 }
    ensures floor { (second : ℕ)
        → less_of moments.now first second ≤ more_of moments.now first second
        → less_of moments.now first second + result ≤ more_of moments.now first second }
    ensures few { result ≤ 2 ^ 56 }
{
    let squares = u128::from(moments.second_squares);
    if squares == 0 {
        return 0;
    }
    let least = plus_at(moments, first).saturating_sub(minus_at(moments, first)) / squares;
    least.min(0x100_0000_0000_0000) as u64
}

// The least form of a channel with the weight `share`, from the end's value.
fn least_of_channel(share: u8, flavour: Flavour, channel: u8, moments: &Moments, first: u8) -> u64
    requires share { share ≤ 15 }
    requires small { AreSmall moments.now }
    ensures floor { (second : ℕ)
        → less_of moments.now (factor_of (widening_of flavour channel) * first) second ≤ more_of
        moments.now (factor_of (widening_of flavour channel) * first) second
        → share * less_of moments.now (factor_of (widening_of flavour channel) * first)
        second + result ≤ share * more_of moments.now
        (factor_of (widening_of flavour channel) * first) second }
    ensures few { result ≤ 2 ^ 60 }
{
    u64::from(share) * least_at(moments, scaled(widening_of(flavour, channel), first))
}

/// The least form of a partition with this first end, whatever its second end is.
pub fn least_with_first(tables: &Tables, floor: &PartitionFloor, first: &[u8; 4]) -> u64
    requires weights { All (λ weight. weight ≤ 15) tables.now.weights }
    requires small { IsSmallFloor floor.now }
    ensures { (second : List ℕ) → AreForms tables.now floor.now (first.now, second)
        → form_less tables.now floor.now (first.now, second) + result ≤ form_more tables.now
        floor.now (first.now, second) }
{
    let flavour = tables.decoded.flavour;
    let [red, green, blue, alpha] = tables.weights;
    least_of_channel(red, flavour, 0, &floor.red, first[0])
        + least_of_channel(green, flavour, 1, &floor.green, first[1])
        + least_of_channel(blue, flavour, 2, &floor.blue, first[2])
        + least_of_channel(alpha, flavour, 3, &floor.alpha, first[3])
}

/// Whether an endpoint mode keeps an end for all second values of this pair.
pub fn has_rows(cem: u8, pair: u8) -> bool
    ensures { result ≡ has_rows cem pair }
{
    match cem {
        0 | 4 | 8 | 12 => true,
        10 => pair == 2,
        _ => false,
    }
}

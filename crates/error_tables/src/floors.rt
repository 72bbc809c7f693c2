// A floor of the error of a part with other ends, without a look at its texels.
ghost use Rattle.std.specs.Prelude.{◌≡◌, ℕ, ◌+◌, ◌*◌, ◌^◌, ◌<◌, ◌≤◌, List, IsTrue, length, sum_by};
ghost use Rattle.std.specs.List.{All};
ghost use Rattle.moments.specs.Floors.{IsWithin, IsMost};
ghost use Rattle.error_tables.specs.Trials.{AreTablesSmall, coloured};
ghost use Rattle.error_tables.specs.Floors.{widening_of, weight_at, one_inside, inside_at, AreMomentsOf, IsOnePlaceMore, IsPartFloor, IsSmallFloor, form_more, form_less, weight_sum};

use crate::limits::errors_of_places;
use crate::tables::Tables;
use astc_model::Flavour;
use moments::{Form, Moments, Widening};

/// The data of the texels of a partition while one of its colour integers is tried.
#[derive(Clone, Copy)]
pub struct PartitionFloor {
    pub red: Moments,
    pub green: Moments,
    pub blue: Moments,
    pub alpha: Moments,
    /// How many of its places are inside.
    pub count: u32,
    /// The errors that its places have.
    pub taken: u32,
}

/// How a channel is widened.
#[inline(always)]
pub fn widening_of(flavour: Flavour, channel: u8) -> Widening
    ensures { result ≡ widening_of flavour channel }
{
    match flavour {
        Flavour::Linear => Widening::Repeated,
        Flavour::Srgb => {
            if channel == 3 {
                Widening::Repeated
            } else {
                Widening::Centred
            }
        }
    }
}

/// The weight of a channel at a place.
#[inline(always)]
pub fn weight_at(tables: &Tables, p: usize, channel: u8) -> u8
    requires small { AreTablesSmall tables.now }
    requires place { p < 144 }
    requires channel { channel < 4 }
    ensures exact { result ≡ weight_at tables.now p channel }
    ensures small { result ≤ 64 }
{
    let numerators = tables.decoded.numerators[p];
    let numerator = if tables.decoded.plane == channel + 1 {
        numerators[1]
    } else {
        numerators[0]
    };
    ((numerator + 8) / 16) as u8
}

// Adds a place's channel, if it is inside.
fn add_place(moments: &mut Moments, tables: &Tables, channel: u8, p: usize)
    requires small { AreTablesSmall tables.now }
    requires place { p < length tables.now.places.now }
    requires channel { channel < 4 }
    requires room { IsWithin 143 moments.old }
    ensures floored { IsOnePlaceMore tables.now channel p moments.old moments.new }
    ensures within { (n : ℕ) → IsWithin n moments.old → IsWithin (n + 1) moments.new }
{
    if let Some(wanted) = &tables.places[p] {
        let widening = widening_of(tables.decoded.flavour, channel);
        let weight = weight_at(tables, p, channel);
        moments.add(widening, weight, wanted[usize::from(channel)]);
    }
}

// The moments of a channel over these places.
fn moments_of(tables: &Tables, reach: &[u8], channel: u8) -> Moments
    requires small { AreTablesSmall tables.now }
    requires few_reached { length reach.now ≤ 144 }
    requires within { All (λ p. p < length tables.now.places.now) reach.now }
    requires channel { channel < 4 }
    ensures are { AreMomentsOf tables.now channel reach.now result }
    ensures within { IsWithin (length reach.now) result }
{
    let mut moments = Moments::new();
    for p in reach {
        add_place(&mut moments, tables, channel, usize::from(*p));
    }
    moments
}

// 1 for a place inside.
fn one_inside(place: &Option<[u8; 4]>) -> u32
    ensures exact { result ≡ one_inside place.now }
    ensures small { result ≤ 1 }
{
    match place {
        Some(_) => 1,
        None => 0,
    }
}

// How many of these places are inside.
fn inside_count(places: &[Option<[u8; 4]>], reach: &[u8]) -> u32
    requires within { All (λ p. p < length places.now) reach.now }
    requires few_reached { length reach.now ≤ 144 }
    ensures exact { result ≡ sum_by (inside_at places.now) reach.now }
    ensures few { result ≤ 144 }
{
    let mut count = 0;
    for p in reach {
        count += one_inside(&places[usize::from(*p)]);
    }
    count
}

/// The data of these places.
pub fn part_floor(tables: &Tables, reach: &[u8]) -> PartitionFloor
    requires small { AreTablesSmall tables.now }
    requires few_reached { length reach.now ≤ 144 }
    requires within { All (λ p. p < length tables.now.places.now) reach.now }
    ensures is { IsPartFloor tables.now reach.now result }
    ensures small { IsSmallFloor result }
{
    PartitionFloor {
        red: moments_of(tables, reach, 0),
        green: moments_of(tables, reach, 1),
        blue: moments_of(tables, reach, 2),
        alpha: moments_of(tables, reach, 3),
        count: inside_count(tables.places, reach),
        taken: errors_of_places(tables, reach),
    }
}

/// The form of all channels at these ends.
pub fn form_of(tables: &Tables, floor: &PartitionFloor, ends: &([u8; 4], [u8; 4])) -> Form
    requires weights { All (λ weight. weight ≤ 15) tables.now.weights }
    requires small { IsSmallFloor floor.now }
    ensures more { result.more ≡ form_more tables.now floor.now ends.now }
    ensures less { result.less ≡ form_less tables.now floor.now ends.now }
    ensures small_more { result.more ≤ 2 ^ 61 }
    ensures small_less { result.less ≤ 2 ^ 61 }
{
    let flavour = tables.decoded.flavour;
    let [red, green, blue, alpha] = tables.weights;
    let mut form = Form::new();
    form.add(
        u64::from(red),
        widening_of(flavour, 0),
        &floor.red,
        ends.0[0],
        ends.1[0],
    );
    form.add(
        u64::from(green),
        widening_of(flavour, 1),
        &floor.green,
        ends.0[1],
        ends.1[1],
    );
    form.add(
        u64::from(blue),
        widening_of(flavour, 2),
        &floor.blue,
        ends.0[2],
        ends.1[2],
    );
    form.add(
        u64::from(alpha),
        widening_of(flavour, 3),
        &floor.alpha,
        ends.0[3],
        ends.1[3],
    );
    form
}

/// How much the texels and channels count in all.
pub fn weight_of(tables: &Tables, floor: &PartitionFloor) -> u64
    requires weights { All (λ weight. weight ≤ 15) tables.now.weights }
    requires few { floor.now.count ≤ 144 }
    ensures exact { result ≡ weight_sum tables.now * floor.now.count }
    ensures small { result ≤ 8640 }
{
    let [red, green, blue, alpha] = tables.weights;
    let shares = u64::from(red) + u64::from(green) + u64::from(blue) + u64::from(alpha);
    shares * u64::from(floor.count)
}

/// Whether the form of the part with these ends reaches this, so that its error is at least the bar
/// that this is for.
pub fn is_over(
    tables: &Tables,
    floor: &PartitionFloor,
    ends: &([u8; 4], [u8; 4]),
    most: u64,
) -> bool
    requires weights { All (λ weight. weight ≤ 15) tables.now.weights }
    requires small { IsSmallFloor floor.now }
    requires most { most ≤ 2 ^ 61 }
    ensures { (reach : List ℕ) (bar : ℕ) → IsPartFloor tables.now reach floor.now
        → IsMost most bar (weight_sum tables.now * floor.now.count) → IsTrue result
        → bar ≤ sum_by (coloured tables.now ends.now) reach }
{
    form_of(tables, floor, ends).reaches(most)
}

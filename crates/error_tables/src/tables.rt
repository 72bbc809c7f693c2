// The tables of a block and its source.
ghost use Rattle.std.specs.Prelude.{◌≡◌, ℕ, ◌*◌, ◌<◌, ◌≤◌, length, slice_index, false};
ghost use Rattle.std.specs.List.{All};
ghost use Rattle.astc_model.specs.Limits.{most_texel_error};
ghost use Rattle.astc_model.specs.Sums.{sum_to};
ghost use Rattle.texel_error.specs.Shaped.{IsShaped};
ghost use Rattle.texel_error.specs.Decoding.{IsDecoded, IsSound, error_of_place};
ghost use Rattle.error_tables.specs.Reached.{is_among, renewed};
ghost use Rattle.error_tables.specs.Kept.{IsKept, error_at};

use crate::around::{Around, around_of};
use crate::reach::reaches_of_parts;
use arrayvec::ArrayVec;
use astc_model::{Coded, Flavour, Level, Mode};
use texel_error::{Decoded, decode_coded, error_at};

/// A block with its tables.
#[derive(Drop)]
pub struct Tables<'a> {
    pub block: Coded,
    pub mode: Mode,
    /// The level of the colour integers.
    pub level: Level,
    /// The weight of each channel.
    pub weights: [u8; 4],
    /// The places of the source.
    pub places: &'a [Option<[u8; 4]>],
    pub decoded: Decoded,
    /// The four points of the weight grid around each place, with their factors.
    pub around: Around,
    /// The places inside of each part.
    pub reaches: [ArrayVec<u8, 144>; 4],
    /// The error of each place, in rows from the top.
    pub errors: [u32; 144],
    /// The sum of the errors.
    pub total: u32,
}

// The errors of the places, and their sum.
#[derive(Drop)]
struct Errors {
    each: [u32; 144],
    total: u32,
}

// The error of each place, and their sum.
fn errors_of(decoded: &Decoded, weights: &[u8; 4], places: &[Option<[u8; 4]>]) -> Errors
    requires sound { IsSound decoded.now }
    requires weights { All (λ weight. weight ≤ 15) weights.now }
    requires few { length places.now ≤ 144 }
    ensures each { (p : ℕ) → p < length places.now → slice_index result.each p
        ≡ error_of_place decoded.now weights.now places.now p }
    ensures small { All (λ error. error ≤ most_texel_error) result.each }
    ensures all { length result.each ≡ 144 }
    ensures total { result.total ≡ sum_to (error_of_place decoded.now weights.now places.now)
        (length places.now) }
    ensures small_total { result.total ≤ most_texel_error * length places.now }
{
    let mut each = [0u32; 144];
    let mut total = 0;
    for p in 0..places.len() {
        let here = error_at(decoded, weights, places, p);
        each[p] = here;
        total += here;
    }
    Errors { each, total }
}

/// The tables of a block.
pub fn tables_of<'a, const W: usize, const H: usize>(
    block: Coded,
    mode: Mode,
    level: Level,
    flavour: Flavour,
    weights: [u8; 4],
    places: &'a [Option<[u8; 4]>],
) -> Tables<'a>
    requires shaped { IsShaped W H block mode level }
    requires all { length places.now ≡ W * H }
    requires few { length places.now ≤ 144 }
    requires weights { All (λ weight. weight ≤ 15) weights }
    ensures kept { IsKept W H result }
    ensures places { result.places.now ≡ places.now }
    ensures flavour { result.decoded.flavour ≡ flavour }
    ensures weights { result.weights ≡ weights }
    ensures block { result.block ≡ block }
    ensures mode { result.mode ≡ mode }
    ensures level { result.level ≡ level }
{
    let decoded = decode_coded::<W, H>(&block, mode, level, flavour);
    let around = around_of::<W, H>(&mode, places);
    let reaches = reaches_of_parts::<W, H>(&block, &decoded.parts, places);
    let Errors { each, total } = errors_of(&decoded, &weights, places);
    Tables {
        block,
        mode,
        level,
        weights,
        places,
        decoded,
        around,
        reaches,
        errors: each,
        total,
    }
}

// The errors after those of the places of a reach are computed again, and their sum.
fn renewed(
    decoded: &Decoded,
    weights: &[u8; 4],
    places: &[Option<[u8; 4]>],
    reach: &[u8],
    errors: Errors,
) -> Errors
    requires sound { IsSound decoded.now }
    requires weights { All (λ weight. weight ≤ 15) weights.now }
    requires few { length places.now ≤ 144 }
    requires within { All (λ p. p < length places.now) reach.now }
    requires small { All (λ error. error ≤ most_texel_error) errors.each }
    requires all { length errors.each ≡ 144 }
    requires total { errors.total ≡ sum_to (slice_index errors.each) (length places.now) }
    ensures each { (p : ℕ) → slice_index result.each p ≡ renewed (slice_index errors.each)
        (error_of_place decoded.now weights.now places.now) reach.now p }
    ensures small { All (λ error. error ≤ most_texel_error) result.each }
    ensures all { length result.each ≡ 144 }
    ensures total { result.total ≡ sum_to (slice_index result.each) (length places.now) }
{
    let mut each = errors.each;
    let mut total = errors.total;
    for p in reach {
        let p = usize::from(*p);
        let here = error_at(decoded, weights, places, p);
        total = total + here - each[p];
        each[p] = here;
    }
    Errors { each, total }
}

/// The block changes, and with it the ends of its parts or the weights of its places; its shape and
/// the parts of the places stay. The errors of the places that are not reached stay too.
pub fn follow<const W: usize, const H: usize>(
    tables: &mut Tables,
    block: Coded,
    ends: [([u8; 4], [u8; 4]); 4],
    numerators: [[u16; 2]; 144],
    reach: &[u8],
)
    requires kept { IsKept W H tables.old }
    requires shaped { IsShaped W H block tables.old.mode tables.old.level }
    requires decoded { IsDecoded W H tables.old.decoded.flavour block tables.old.mode
        tables.old.level (record tables.old.decoded { ends = ends; numerators = numerators }) }
    requires parts { block.parts ≡ tables.old.block.parts }
    requires seed { block.seed ≡ tables.old.block.seed }
    requires within { All (λ p. p < W * H) reach.now }
    requires stays { (p : ℕ) → p < W * H → is_among p reach.now ≡ false
        → error_at W H tables.old block p ≡ error_at W H tables.old tables.old.block p }
    ensures kept { IsKept W H tables.new }
    ensures places { tables.new.places.now ≡ tables.old.places.now }
    ensures flavour { tables.new.decoded.flavour ≡ tables.old.decoded.flavour }
    ensures weights { tables.new.weights ≡ tables.old.weights }
    ensures block { tables.new.block ≡ block }
{
    tables.block = block;
    tables.decoded.ends = ends;
    tables.decoded.numerators = numerators;
    let before = Errors {
        each: tables.errors,
        total: tables.total,
    };
    let Errors { each, total } = renewed(
        &tables.decoded,
        &tables.weights,
        tables.places,
        reach,
        before,
    );
    tables.errors = each;
    tables.total = total;
}

// A first change of both integers of a pair that gives a smaller error.
ghost use Rattle.std.specs.Prelude.{◌≡◌, ℕ, ◌+◌, ◌*◌, ◌/◌, ◌<◌, ◌≤◌, length, slice_index, IsTrue};
ghost use Rattle.std.specs.List.{All};
ghost use Rattle.astc_model.specs.Levels.{count_of};
ghost use Rattle.astc_model.specs.PairChanges.{has_pair, pair_place};
ghost use Rattle.astc_model.specs.Endpoints.{is_ldr_mode};
ghost use Rattle.texel_error.specs.Limited.{under};
ghost use Rattle.error_tables.specs.Floors.{IsSmallFloor, form_more, form_less};
ghost use Rattle.error_tables.specs.RowFloors.{pair_ends_of, has_rows, AreForms};
ghost use Rattle.error_tables.specs.Kept.{IsKept};
ghost use Rattle.error_tables.specs.State.{view_of};
ghost use Rattle.colour_bounds.specs.PartScans.{IsPartScan, state_of};
ghost use Rattle.error_state.specs.Pairs.{error_with_pair, FindsPair, OfPart, OfPair, OfFirst};

use block_mode::colour_count;
use colour_bounds::{PartitionScan, ends_tried, scan_of};
use endpoint_modes::endpoints;
use error_tables::{Tables, has_rows, least_with_first, swapped_floor};
use quant_tables::colour_value;
use texel_error::Steps;

/// Both integers of a pair of a part at other values, and the error of the block with them. The
/// integers of pair `k` are the part's `2 k` and `2 k + 1`, the two ends of one channel.
#[derive(Clone, Copy, Debug, PartialEq, Eq)]
pub struct BetterPair {
    pub part: u8,
    pub pair: u8,
    pub first: u8,
    pub second: u8,
    pub error: u32,
}

// Whether an endpoint mode has this pair.
fn has_pair(cem: u8, pair: u8) -> bool
    requires { cem < 16 }
    ensures same { result ≡ has_pair cem pair }
    ensures within { IsTrue result → pair < cem / 4 + 1 }
{
    match cem {
        6 => false,
        10 => pair == 2,
        _ => pair < cem / 4 + 1,
    }
}

/// The place of the first integer of a pair.
pub fn first_place<const W: usize, const H: usize>(tables: &Tables, part: u8, pair: u8) -> u8
    requires kept { IsKept W H tables.now }
    requires own { part < tables.now.block.parts }
    requires pair { pair < slice_index tables.now.block.cems part / 4 + 1 }
    ensures exact { result ≡ pair_place tables.now.block part pair }
    ensures inside { result + 2 ≤ length tables.now.block.colours.items }
    ensures few { result ≤ 16 }
{
    let from = colour_count(part, &tables.block.cems);
    (from + 2 * u32::from(pair)) as u8
}

// The ends of a part with both values of a pair replaced.
fn pair_ends(scan: &PartitionScan, pair: u8, first: u8, second: u8) -> ([u8; 4], [u8; 4])
    requires ldr { IsTrue (is_ldr_mode scan.now.cem) }
    requires small { scan.now.cem < 16 }
    requires pair { pair < scan.now.cem / 4 + 1 }
    requires eight { length scan.now.values ≡ 8 }
    ensures { result ≡ pair_ends_of scan.now.cem scan.now.values pair first second }
{
    let mut values = scan.values;
    let place = 2 * usize::from(pair);
    values[place] = first;
    values[place + 1] = second;
    let (own, _) = values.split_at(2 * (usize::from(scan.cem) / 4 + 1));
    endpoints(scan.cem, own)
}

// Whether with this first value of a pair the form reaches what it has to, whatever the second is:
// one of the ends is that of the greatest second value, or the other that of 0.
fn is_row_over(scan: &PartitionScan, pair: u8, first: u8) -> bool
    requires weights { All (λ weight. weight ≤ 15) scan.now.tables.now.weights }
    requires ldr { IsTrue (is_ldr_mode scan.now.cem) }
    requires small { scan.now.cem < 16 }
    requires pair { pair < scan.now.cem / 4 + 1 }
    requires eight { length scan.now.values ≡ 8 }
    requires floor { IsSmallFloor scan.now.floor }
    requires rows { IsTrue (has_rows scan.now.cem pair) }
    ensures { IsTrue result → (second : ℕ) → second ≤ 255
        → AreForms scan.now.tables.now scan.now.floor
        (pair_ends_of scan.now.cem scan.now.values pair first second)
        → form_less scan.now.tables.now scan.now.floor
        (pair_ends_of scan.now.cem scan.now.values pair first second) + scan.now.most
        ≤ form_more scan.now.tables.now scan.now.floor
        (pair_ends_of scan.now.cem scan.now.values pair first second) }
{
    let (kept, _) = pair_ends(scan, pair, first, 255);
    let (_, contracted) = pair_ends(scan, pair, first, 0);
    let swapped = swapped_floor(&scan.floor);
    least_with_first(scan.tables, &scan.floor, &kept) >= scan.most
        && least_with_first(scan.tables, &swapped, &contracted) >= scan.most
}

// The error of the block with both integers of a pair at these values, if it is below the block's.
// If a floor excludes that, no texel is looked at.
fn pair_tried<const W: usize, const H: usize, L>(
    scan: &PartitionScan,
    pair: u8,
    first: u8,
    second: u8,
    steps: &mut Steps<L>,
) -> Option<u32>
    requires scan { IsPartScan W H scan.now }
    requires pair { pair < slice_index scan.now.tables.now.block.cems scan.now.part / 4 + 1 }
    requires first { first < count_of scan.now.tables.now.level }
    requires second { second < count_of scan.now.tables.now.level }
    ensures exact { result ≡ under scan.now.tables.now.total
        (error_with_pair W H (state_of scan.now)
        (record { part = scan.now.part; pair = pair; first = first; second = second })) }
    ensures never_falls { steps.old ≤ steps.new }
{
    let first = colour_value(scan.tables.level, first);
    let second = colour_value(scan.tables.level, second);
    let ends = pair_ends(scan, pair, first, second);
    ends_tried::<W, H, L>(scan, &ends, scan.floor.taken, scan.most, steps)
}

// The first second value of a pair, with this first value, that gives a smaller error.
fn better_second<const W: usize, const H: usize, L>(
    scan: &PartitionScan,
    pair: u8,
    first: u8,
    steps: &mut Steps<L>,
) -> Option<BetterPair>
    requires scan { IsPartScan W H scan.now }
    requires pair { IsTrue (has_pair (slice_index scan.now.tables.now.block.cems scan.now.part)
        pair) }
    requires within { pair < slice_index scan.now.tables.now.block.cems scan.now.part / 4 + 1 }
    requires first { first < count_of scan.now.tables.now.level }
    ensures finds { FindsPair W H (state_of scan.now) (OfFirst scan.now.part pair first) result }
    ensures never_falls { steps.old ≤ steps.new }
{
    for second in 0..scan.tables.level.count() {
        let second = second as u8;
        let tried = pair_tried::<W, H, L>(scan, pair, first, second, steps);
        if let Some(error) = tried {
            let part = scan.part;
            return Some(BetterPair {
                part,
                pair,
                first,
                second,
                error,
            });
        }
    }
    None
}

// A better change in a row of a pair, unless a floor excludes it at once.
fn better_in_row<const W: usize, const H: usize, L>(
    scan: &PartitionScan,
    pair: u8,
    first: u8,
    steps: &mut Steps<L>,
) -> Option<BetterPair>
    requires scan { IsPartScan W H scan.now }
    requires pair { IsTrue (has_pair (slice_index scan.now.tables.now.block.cems scan.now.part)
        pair) }
    requires within { pair < slice_index scan.now.tables.now.block.cems scan.now.part / 4 + 1 }
    requires first { first < count_of scan.now.tables.now.level }
    ensures finds { FindsPair W H (state_of scan.now) (OfFirst scan.now.part pair first) result }
    ensures never_falls { steps.old ≤ steps.new }
{
    if has_rows(scan.cem, pair) {
        let value = colour_value(scan.tables.level, first);
        if is_row_over(scan, pair, value) {
            return None;
        }
    }
    better_second::<W, H, L>(scan, pair, first, steps)
}

// The first values of a pair that give a smaller error.
fn better_values<const W: usize, const H: usize, L>(
    scan: &PartitionScan,
    pair: u8,
    steps: &mut Steps<L>,
) -> Option<BetterPair>
    requires scan { IsPartScan W H scan.now }
    requires pair { IsTrue (has_pair (slice_index scan.now.tables.now.block.cems scan.now.part)
        pair) }
    requires within { pair < slice_index scan.now.tables.now.block.cems scan.now.part / 4 + 1 }
    ensures finds { FindsPair W H (state_of scan.now) (OfPair scan.now.part pair) result }
    ensures never_falls { steps.old ≤ steps.new }
{
    for first in 0..scan.tables.level.count() {
        let found = better_in_row::<W, H, L>(scan, pair, first as u8, steps);
        if found.is_some() {
            return found;
        }
    }
    None
}

// The same, if the part has the pair.
fn better_of_pair<const W: usize, const H: usize, L>(
    scan: &PartitionScan,
    pair: u8,
    steps: &mut Steps<L>,
) -> Option<BetterPair>
    requires scan { IsPartScan W H scan.now }
    ensures finds { FindsPair W H (state_of scan.now) (OfPair scan.now.part pair) result }
    ensures never_falls { steps.old ≤ steps.new }
{
    if has_pair(scan.cem, pair) {
        better_values::<W, H, L>(scan, pair, steps)
    } else {
        None
    }
}

// The first change of a pair of the part that gives a smaller error.
fn better_of_scan<const W: usize, const H: usize, L>(
    scan: &PartitionScan,
    steps: &mut Steps<L>,
) -> Option<BetterPair>
    requires { IsPartScan W H scan.now }
    ensures finds { FindsPair W H (state_of scan.now) (OfPart scan.now.part) result }
    ensures never_falls { steps.old ≤ steps.new }
{
    for pair in 0..4u8 {
        let found = better_of_pair::<W, H, L>(scan, pair, steps);
        if found.is_some() {
            return found;
        }
    }
    None
}

// A better change of a pair of a partition of a block.
fn better_of_part<const W: usize, const H: usize, L>(
    tables: &Tables,
    part: u8,
    steps: &mut Steps<L>,
) -> Option<BetterPair>
    requires kept { IsKept W H tables.now }
    requires own { part < tables.now.block.parts }
    ensures finds { FindsPair W H (view_of tables.now) (OfPart part) result }
    ensures never_falls { steps.old ≤ steps.new }
{
    let scan = scan_of::<W, H>(tables, part);
    better_of_scan::<W, H, L>(&scan, steps)
}

/// The first change of a pair of a block that gives a smaller error.
pub fn better_of_block<const W: usize, const H: usize, L>(
    tables: &Tables,
    steps: &mut Steps<L>,
) -> Option<BetterPair>
    requires { IsKept W H tables.now }
    ensures finds { FindsPair W H (view_of tables.now)
        (λ change. change.part < tables.now.block.parts) result }
    ensures never_falls { steps.old ≤ steps.new }
{
    for part in 0..tables.block.parts {
        let found = better_of_part::<W, H, L>(tables, part, steps);
        if found.is_some() {
            return found;
        }
    }
    None
}

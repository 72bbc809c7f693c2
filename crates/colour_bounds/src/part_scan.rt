// The data of a partition while the values of its colour integers are tried.
ghost use Rattle.std.specs.Prelude.{◌≡◌, ℕ, ◌+◌, ◌-◌, ◌*◌, ◌<◌, ◌≤◌, ◌^◌, length, map, take, slice_index, sum_by, IsTrue};
ghost use Rattle.std.specs.List.{All};
ghost use Rattle.astc_model.specs.Levels.{count_of};
ghost use Rattle.astc_model.specs.Shapes.{colour_count};
ghost use Rattle.astc_model.specs.CodedTexels.{part_values};
ghost use Rattle.astc_model.specs.ColourValues.{colour_value};
ghost use Rattle.astc_model.specs.Endpoints.{endpoint_integers, is_ldr_mode};
ghost use Rattle.moments.specs.Floors.{IsMost};
ghost use Rattle.texel_error.specs.Counting.{TakesAtMost};
ghost use Rattle.texel_error.specs.Limited.{under};
ghost use Rattle.error_tables.specs.Floors.{weight_sum};
ghost use Rattle.error_tables.specs.Kept.{IsKept};
ghost use Rattle.error_tables.specs.Trials.{coloured};
ghost use Rattle.colour_bounds.specs.Bounds.{ends_of, first_sum, second_sum};
ghost use Rattle.colour_bounds.specs.PartScans.{IsPartScan};

use astc_model::{Coded, Level};
use block_mode::colour_count;
use endpoint_modes::endpoints;
use error_tables::{
    PartitionFloor, Tables, colours_under, is_over, part_floor, reach_of_part, weight_of,
};
use moments::most;
use quant_tables::colour_value;
use texel_error::Steps;

/// The data of a partition while the values of its colour integers are tried.
#[derive(Clone, Copy)]
pub struct PartitionScan<'a> {
    /// The tables of the block, with its present state.
    pub tables: &'a Tables<'a>,
    pub part: u8,
    /// The places inside the image that belong to the partition: the reach of its colour integers.
    pub reach: &'a [u8],
    /// The colour endpoint mode of the partition.
    pub cem: u8,
    /// The unquantized colour values of the partition, followed by zeros.
    pub values: [u8; 8],
    pub floor: PartitionFloor,
    /// If the form is at least this number, the error is at least the present one.
    pub most: u64,
}

/// Returns the unquantized value of a colour integer; at level 256 the value is the integer.
#[inline(always)]
pub fn value_of(level: Level, integer: u8) -> u8
    requires level { 6 ≤ count_of level }
    requires range { integer < count_of level }
    ensures { result ≡ colour_value level integer }
{
    match level {
        Level::TwoFiftySix => integer,
        _ => colour_value(level, integer),
    }
}

// The unquantized values of these integers, followed by zeros.
fn values_of(level: Level, integers: &[u8]) -> [u8; 8]
    requires level { 6 ≤ count_of level }
    requires few { length integers.now ≤ 8 }
    requires ranges { All (λ integer. integer < count_of level) integers.now }
    ensures values { take (length integers.now) result ≡ map (colour_value level) integers.now }
    ensures eight { length result ≡ 8 }
{
    let mut values = [0u8; 8];
    for k in 0..integers.len() {
        values[k] = colour_value(level, integers[k]);
    }
    values
}

// The unquantized colour values of a partition of a block, followed by zeros.
fn part_values(coded: &Coded, level: Level, part: u8) -> [u8; 8]
    requires level { 6 ≤ count_of level }
    requires part { part < 4 }
    requires four { length coded.now.cems ≡ 4 }
    requires few { length coded.now.colours.items ≤ 18 }
    requires small { slice_index coded.now.cems part < 16 }
    requires fits { colour_count part coded.now.cems + endpoint_integers
        (slice_index coded.now.cems part) ≤ length coded.now.colours.items }
    requires ranges { All (λ integer. integer < count_of level) coded.now.colours.items }
    ensures values { take (endpoint_integers (slice_index coded.now.cems part)) result
        ≡ part_values coded.now level part }
    ensures eight { length result ≡ 8 }
{
    let cem = coded.cems[usize::from(part)];
    let from = colour_count(part, &coded.cems) as usize;
    let (_, rest) = coded.colours.as_slice().split_at(from);
    let (own, _) = rest.split_at(2 * (usize::from(cem) / 4 + 1));
    values_of(level, own)
}

/// Returns the endpoints of the partition with `value` at `place`.
pub fn ends_with(scan: &PartitionScan, place: u8, value: u8) -> ([u8; 4], [u8; 4])
    requires ldr { IsTrue (is_ldr_mode scan.now.cem) }
    requires small { scan.now.cem < 16 }
    requires place { place < endpoint_integers scan.now.cem }
    requires eight { length scan.now.values ≡ 8 }
    ensures { result ≡ ends_of scan.now.cem scan.now.values place value }
{
    let mut values = scan.values;
    values[usize::from(place)] = value;
    let (own, _) = values.split_at(2 * (usize::from(scan.cem) / 4 + 1));
    endpoints(scan.cem, own)
}

/// Returns the sums of red, green and blue of the two colours of mode 8 or 12.
pub fn sums_of(values: &[u8; 8]) -> (u16, u16)
    requires { length values.now ≡ 8 }
    ensures first { result.0 ≡ first_sum values.now }
    ensures second { result.1 ≡ second_sum values.now }
    ensures small { result.1 ≤ 765 }
{
    let [v0, v1, v2, v3, v4, v5, _, _] = *values;
    (
        u16::from(v0) + u16::from(v2) + u16::from(v4),
        u16::from(v1) + u16::from(v3) + u16::from(v5),
    )
}

/// Returns the place of colour integer `i` of a block among those of its partition.
pub fn place_within(cems: &[u8; 4], part: u8, i: u8) -> u8
    requires few { part ≤ 4 }
    requires four { length cems.now ≡ 4 }
    requires from { colour_count part cems.now ≤ i }
    ensures { colour_count part cems.now + result ≡ i }
{
    (u32::from(i) - colour_count(part, cems)) as u8
}

/// Returns the data of a partition of the block.
pub fn scan_of<'a, const W: usize, const H: usize>(
    tables: &'a Tables<'a>,
    part: u8,
) -> PartitionScan<'a>
    requires kept { IsKept W H tables.now }
    requires own { part < tables.now.block.parts }
    ensures tables { result.tables.now ≡ tables.now }
    ensures part { result.part ≡ part }
    ensures scan { IsPartScan W H result }
{
    let reach = reach_of_part::<W, H>(tables, part);
    let floor = part_floor(tables, reach);
    PartitionScan {
        tables,
        part,
        reach,
        cem: tables.block.cems[usize::from(part)],
        values: part_values(&tables.block, tables.level, part),
        floor,
        most: most(u64::from(floor.taken), weight_of(tables, &floor)),
    }
}

/// Returns the error of the block with other endpoints for the partition, if the errors of the
/// partition's places are under `bar` then, else None. A form of at least `most` excludes errors
/// under `bar`; only if the form is less are the texels decoded.
pub fn ends_tried<const W: usize, const H: usize, L>(
    scan: &PartitionScan,
    ends: &([u8; 4], [u8; 4]),
    bar: u32,
    most: u64,
    steps: &mut Steps<L>,
) -> Option<u32>
    requires scan { IsPartScan W H scan.now }
    requires enough { IsMost most bar (weight_sum scan.now.tables.now * scan.now.floor.count) }
    requires most_fits { most ≤ 2 ^ 61 }
    ensures exact { (limit error : ℕ) → bar
        ≡ limit + scan.now.floor.taken - scan.now.tables.now.total
        → error + scan.now.floor.taken ≡ scan.now.tables.now.total + sum_by
        (coloured scan.now.tables.now ends.now) scan.now.reach.now → result
        ≡ under limit error }
    ensures steps { TakesAtMost steps.old steps.new (length scan.now.reach.now) }
{
    if is_over(scan.tables, &scan.floor, ends, most) {
        return None;
    }
    match colours_under(scan.tables, scan.reach, ends, u64::from(bar), steps) {
        None => None,
        Some(more) => Some((scan.tables.total + more).saturating_sub(scan.floor.taken)),
    }
}

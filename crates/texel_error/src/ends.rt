// The two endpoints of a partition.
ghost use Rattle.std.specs.Prelude.{◌≡◌, ◌+◌, ◌<◌, ◌≤◌, length, slice_index, map, IsTrue};
ghost use Rattle.std.specs.List.{All};
ghost use Rattle.astc_model.specs.Levels.{count_of};
ghost use Rattle.astc_model.specs.ColourValues.{colour_value};
ghost use Rattle.astc_model.specs.Shapes.{colour_count};
ghost use Rattle.astc_model.specs.Endpoints.{is_ldr_mode, endpoint_integers, endpoint_colours};
ghost use Rattle.astc_model.specs.CodedTexels.{part_colours};

use arrayvec::ArrayVec;
use astc_model::{Coded, Level};
use block_mode::colour_count;
use endpoint_modes::endpoints;
use quant_tables::colour_value;

/// Returns the two endpoints that colour integers of a level encode under an endpoint mode of the
/// LDR profile (Khronos Data Format Specification, ASTC, "LDR Endpoint Decoding").
pub fn ends_of(level: Level, cem: u8, integers: &[u8]) -> ([u8; 4], [u8; 4])
    requires level { 6 ≤ count_of level }
    requires ldr { IsTrue (is_ldr_mode cem) }
    requires count { length integers.now ≡ endpoint_integers cem }
    requires few { length integers.now ≤ 18 }
    requires ranges { All (λ integer. integer < count_of level) integers.now }
    ensures { result ≡ endpoint_colours cem (map (colour_value level) integers.now) }
{
    let mut values: ArrayVec<u8, 18> = ArrayVec::new();
    for integer in integers {
        values.push(colour_value(level, *integer));
    }
    endpoints(cem, values.as_slice())
}

/// Returns the two endpoints of partition `part` of a block whose colour integers have this level.
pub fn ends_of_part(coded: &Coded, level: Level, part: u8) -> ([u8; 4], [u8; 4])
    requires level { 6 ≤ count_of level }
    requires part { part < 4 }
    requires four { length coded.now.cems ≡ 4 }
    requires few { length coded.now.colours.items ≤ 18 }
    requires ldr { IsTrue (is_ldr_mode (slice_index coded.now.cems part)) }
    requires fits { colour_count part coded.now.cems + endpoint_integers
        (slice_index coded.now.cems part) ≤ length coded.now.colours.items }
    requires ranges { All (λ integer. integer < count_of level) coded.now.colours.items }
    ensures { result ≡ part_colours coded.now level part }
{
    let cem = coded.cems[usize::from(part)];
    let from = colour_count(part, &coded.cems) as usize;
    let (_, rest) = coded.colours.as_slice().split_at(from);
    let (own, _) = rest.split_at(2 * (usize::from(cem) / 4 + 1));
    ends_of(level, cem, own)
}

// The endpoints of each partition at several levels. The ideal colour values, before quantization,
// are computed once for all levels.
ghost use Rattle.std.specs.Prelude.{◌≡◌, ◌<◌, ◌≤◌, List, IsTrue, length, map};
ghost use Rattle.std.specs.List.{All};
ghost use Rattle.astc_model.specs.Levels.{count_of};
ghost use Rattle.astc_model.specs.Endpoints.{is_ldr_mode, endpoint_integers};
ghost use Rattle.astc_model.specs.Nearest.{nearest_colour};
ghost use Rattle.astc_model.specs.Candidates.{ends_of};
ghost use Rattle.astc_model.specs.declared.bounds.Box8.{Box8 as BoxFields};
ghost use Rattle.quant_tables.specs.Tables.{nearest_colour_value, nearest_colour_values_of};
ghost use Rattle.candidates.specs.LevelColours.{AreIdealsTo};
ghost use Rattle.candidates.specs.Pieces.{ends_from};

use arrayvec::ArrayVec;
use astc_model::{Box8, Level, Recipe};
use endpoint_modes::{endpoints, ideal};
use quant_tables::nearest_colour_values;

/// Returns the ideal colour values of each partition, before quantization, from its bounds. All
/// levels share them.
pub fn ideals_of(recipe: &Recipe, bounds: &[Box8]) -> ArrayVec<ArrayVec<u8, 8>, 4>
    requires ldr { IsTrue (is_ldr_mode recipe.now.cem) }
    requires parts { recipe.now.parts ≤ length bounds.now }
    requires few_parts { recipe.now.parts ≤ 4 }
    ensures are { AreIdealsTo recipe.now bounds.now recipe.now.parts result.items }
    ensures counts { All (λ values. length values.items ≡ endpoint_integers recipe.now.cem)
        result.items }
{
    let mut ideals = ArrayVec::new();
    for part in 0..recipe.parts {
        ideals.push(ideal(recipe.cem, recipe.flip, &bounds[usize::from(part)]));
    }
    ideals
}

// The value closest to a byte at this level, from the level's table.
#[inline(always)]
fn value_at(level: Level, table: &[u8], value: u8) -> u8
    requires { table.now ≡ nearest_colour_values_of level }
    ensures { result ≡ nearest_colour_value level value }
{
    table[usize::from(value)]
}

// The two endpoints of a partition whose ideal colour values are `wanted`, after quantization.
#[inline(always)]
#[tactic(auto, unfolding(astc_model::specs::Candidates::ends_of))]
fn ends_near(cem: u8, level: Level, table: &[u8], wanted: &[u8]) -> ([u8; 4], [u8; 4])
    requires table { table.now ≡ nearest_colour_values_of level }
    requires ldr { IsTrue (is_ldr_mode cem) }
    requires count { length wanted.now ≡ endpoint_integers cem }
    requires few { length wanted.now ≤ 8 }
    ensures { result ≡ ends_of cem level (map (nearest_colour level) wanted.now) }
{
    let mut values: ArrayVec<u8, 8> = ArrayVec::new();
    for value in wanted {
        values.push(value_at(level, table, *value));
    }
    endpoints(cem, values.as_slice())
}

/// Returns the two endpoints of each partition at this level of colour integers, from the ideal
/// colour values. The values are quantized by a table, without making the integers.
pub fn ends_at_level(
    recipe: &Recipe,
    level: Level,
    ideals: &[ArrayVec<u8, 8>],
) -> ArrayVec<([u8; 4], [u8; 4]), 4>
    requires level { 6 ≤ count_of level }
    requires ldr { IsTrue (is_ldr_mode recipe.now.cem) }
    requires few { length ideals.now ≤ 4 }
    requires counts { All (λ values. length values.items ≡ endpoint_integers recipe.now.cem)
        ideals.now }
    ensures ends { (bounds : List BoxFields)
        → AreIdealsTo recipe.now bounds recipe.now.parts ideals.now → result.items
        ≡ ends_from recipe.now level bounds }
    ensures count { length result.items ≡ length ideals.now }
{
    let table = nearest_colour_values(level);
    let mut ends = ArrayVec::new();
    for values in ideals {
        ends.push(ends_near(recipe.cem, level, table, values.as_slice()));
    }
    ends
}

// The colour integers and endpoints of a recipe's block, from the bounds of each partition.
ghost use Rattle.std.specs.Prelude.{◌≡◌, ◌<◌, ◌≤◌, ◌+◌, ◌++◌, ◌*◌, IsTrue, length};
ghost use Rattle.std.specs.List.{All};
ghost use Rattle.astc_model.specs.Levels.{count_of};
ghost use Rattle.astc_model.specs.Endpoints.{is_ldr_mode, endpoint_integers};
ghost use Rattle.astc_model.specs.Candidates.{integers_of, ends_of};
ghost use Rattle.candidates.specs.Pieces.{colours_from, ends_from};

use arrayvec::ArrayVec;
use astc_model::{Box8, Level, Recipe};
use endpoint_modes::{endpoints, ideal};
use quant_tables::{colour_value, nearest_colour};

// The colour integers of a partition with these bounds: the best colour values, each quantized to
// the closest integer of the level.
#[tactic(auto, unfolding(astc_model::specs::Candidates::integers_of))]
fn integers_of(recipe: &Recipe, level: Level, bounds: &Box8) -> ArrayVec<u8, 8>
    requires level { 6 ≤ count_of level }
    requires ldr { IsTrue (is_ldr_mode recipe.now.cem) }
    ensures integers { result.items ≡ integers_of recipe.now level bounds.now }
    ensures count { length result.items ≡ endpoint_integers recipe.now.cem }
    ensures ranges { All (λ integer. integer < count_of level) result.items }
{
    let values = ideal(recipe.cem, recipe.flip, bounds);
    let mut integers = ArrayVec::new();
    for value in values.as_slice() {
        integers.push(nearest_colour(level, *value));
    }
    integers
}

// The two endpoints that colour integers of a level encode.
#[tactic(auto, unfolding(astc_model::specs::Candidates::ends_of))]
fn ends_of(cem: u8, level: Level, integers: &[u8]) -> ([u8; 4], [u8; 4])
    requires level { 6 ≤ count_of level }
    requires ldr { IsTrue (is_ldr_mode cem) }
    requires count { length integers.now ≡ endpoint_integers cem }
    requires ranges { All (λ integer. integer < count_of level) integers.now }
    requires few { length integers.now ≤ 8 }
    ensures { result ≡ ends_of cem level integers.now }
{
    let mut values: ArrayVec<u8, 8> = ArrayVec::new();
    for integer in integers {
        values.push(colour_value(level, *integer));
    }
    endpoints(cem, values.as_slice())
}

/// The colour integers of a block, and the endpoints that they encode.
#[derive(Drop)]
pub struct Palette {
    /// The level of the integers.
    pub level: Level,
    /// The integers of all partitions, those of partition 0 first.
    pub colours: ArrayVec<u8, 18>,
    /// The two endpoints of each partition.
    pub ends: ArrayVec<([u8; 4], [u8; 4]), 4>,
}

// Appends the integers of a partition to those of the partitions before it.
fn append(colours: &mut ArrayVec<u8, 18>, integers: &[u8])
    requires { length colours.old.items + length integers.now ≤ 18 }
    ensures { colours.new.items ≡ colours.old.items ++ integers.now }
{
    colours.try_extend_from_slice(integers).unwrap();
}

// A copy of the integers.
pub(crate) fn copy_of(colours: &ArrayVec<u8, 18>) -> ArrayVec<u8, 18>
    ensures { result.items ≡ colours.now.items }
{
    ArrayVec::try_from(colours.as_slice()).unwrap()
}

/// Returns the colours of a recipe's block at this level of colour integers. `bounds` has the
/// bounds of each partition. All recipes with this endpoint mode, flip and level share the colours.
#[tactic(auto, unfolding(crate::specs::Pieces::colours_from, crate::specs::Pieces::ends_from))]
pub fn palette_from(recipe: &Recipe, level: Level, bounds: &[Box8]) -> Palette
    requires level { 6 ≤ count_of level }
    requires ldr { IsTrue (is_ldr_mode recipe.now.cem) }
    requires parts { recipe.now.parts ≤ length bounds.now }
    requires few_parts { recipe.now.parts ≤ 4 }
    requires few { recipe.now.parts * endpoint_integers recipe.now.cem ≤ 18 }
    ensures level { result.level ≡ level }
    ensures colours { result.colours.items ≡ colours_from recipe.now level bounds.now }
    ensures ends { result.ends.items ≡ ends_from recipe.now level bounds.now }
    ensures count { length result.ends.items ≡ recipe.now.parts }
{
    let mut colours = ArrayVec::new();
    let mut ends = ArrayVec::new();
    for part in 0..recipe.parts {
        let integers = integers_of(recipe, level, &bounds[usize::from(part)]);
        append(&mut colours, integers.as_slice());
        ends.push(ends_of(recipe.cem, level, integers.as_slice()));
    }
    Palette {
        level,
        colours,
        ends,
    }
}

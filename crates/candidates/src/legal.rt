// Tests whether a recipe is legal, and finds the level of its colour integers.
ghost use Rattle.std.specs.Prelude.{◌≡◌, ◌≤◌, IfSome};
ghost use Rattle.astc_model.specs.Levels.{count_of};
ghost use Rattle.astc_model.specs.Modes.{IsInModeRange};
ghost use Rattle.astc_model.specs.Shapes.{weight_count, colour_count, grid_fault};
ghost use Rattle.astc_model.specs.Candidates.{cems_of, has_planes, level_on, recipe_level};

use astc_model::{Level, Mode, Recipe};
use block_mode::{colour_shape, grid_fault};

// The endpoint modes of a recipe's block: that of the recipe for each partition, 0 for the rest.
pub(crate) fn cems_of(recipe: &Recipe) -> [u8; 4]
    ensures { result ≡ cems_of recipe.now }
{
    let cem = recipe.cem;
    [
        cem,
        if recipe.parts > 1 { cem } else { 0 },
        if recipe.parts > 2 { cem } else { 0 },
        if recipe.parts > 3 { cem } else { 0 },
    ]
}

// Whether the mode has as many planes as the recipe: two if it names a component, else one.
fn has_planes(recipe: &Recipe, mode: &Mode) -> bool
    ensures { result ≡ has_planes recipe.now mode.now }
{
    if recipe.plane == 0 {
        mode.planes == 1
    } else {
        mode.planes == 2
    }
}

// The level of the colour integers of a recipe's block; None if the grid or the colours have a
// fault.
fn level_on<const W: usize, const H: usize>(recipe: &Recipe, mode: &Mode) -> Option<Level>
    requires mode { IsInModeRange mode.now }
    requires parts { recipe.now.parts ≤ 4 }
    ensures level { result ≡ level_on recipe.now mode.now (grid_fault W H mode.now) }
    ensures weights { IfSome result (λ level. weight_count mode.now ≤ 64) }
    ensures colours { IfSome result
        (λ level. colour_count recipe.now.parts (cems_of recipe.now) ≤ 18) }
    ensures six { IfSome result (λ level. 6 ≤ count_of level) }
{
    match grid_fault::<W, H>(mode) {
        Some(_) => None,
        None => match colour_shape(mode, recipe.parts, 0, &cems_of(recipe)) {
            Ok(level) => Some(level),
            Err(_) => None,
        },
    }
}

/// Returns the level of the colour integers of a recipe's block, where `mode` is the decoded block
/// mode of the recipe. None exactly if the recipe is not legal for blocks of `W` by `H` texels: the
/// mode has another number of planes than the recipe, or the shape of the block has a fault.
#[tactic(auto, unfolding(astc_model::specs::Candidates::recipe_level))]
pub fn recipe_level<const W: usize, const H: usize>(recipe: &Recipe, mode: &Mode) -> Option<Level>
    requires mode { IsInModeRange mode.now }
    requires parts { recipe.now.parts ≤ 4 }
    ensures level { result ≡ recipe_level W H recipe.now mode.now }
    ensures weights { IfSome result (λ level. weight_count mode.now ≤ 64) }
    ensures colours { IfSome result
        (λ level. colour_count recipe.now.parts (cems_of recipe.now) ≤ 18) }
    ensures six { IfSome result (λ level. 6 ≤ count_of level) }
{
    if has_planes(recipe, mode) {
        level_on::<W, H>(recipe, mode)
    } else {
        None
    }
}

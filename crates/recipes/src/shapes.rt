// The shapes of a preset: its recipes without their block modes.
ghost use Rattle.std.specs.Prelude.{◌≡◌};
ghost use Rattle.std.specs.List.{All};
ghost use Rattle.recipes.specs.Shapes.{shapes};
ghost use Rattle.recipes.specs.Shapes.{IsShape};

use crate::table::SHAPES;
use astc_model::{Preset, Recipe};

/// Returns the shapes of a preset, as recipes with block mode 0: 0 for Flat, 2 for Quick and Pairs,
/// 29 for Medium, 265 for Thorough. A walk over each block mode below 2048 and each of these shapes
/// meets exactly the recipes of the preset ([`walks_meet_recipes`](crate::walks_meet_recipes)).
pub fn shapes_of(preset: Preset) -> &'static [Recipe]
    ensures exact { result.now ≡ shapes preset }
    ensures each { All IsShape result.now }
{
    part_of_table(preset)
}

// The shapes of a preset: the table begins with the shapes that all presets share.
#[tactic(auto, unfolding(astc_model::specs::Recipes::groups))]
fn part_of_table(preset: Preset) -> &'static [Recipe]
    ensures { result.now ≡ shapes preset }
{
    match preset {
        Preset::Flat => &SHAPES[..0],
        Preset::Quick | Preset::Pairs => &SHAPES[..2],
        Preset::Medium => &SHAPES[..29],
        Preset::Thorough => &SHAPES,
    }
}

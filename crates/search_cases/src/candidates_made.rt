// Recipes, and the candidates that they make.
ghost use Rattle.std.specs.Prelude.{IsTrue, IfOk};
ghost use Rattle.astc_model.specs.Footprints.{is_footprint};
ghost use Rattle.recipes.specs.Shapes.{IsRecipe};

use astc_model::{Block, FootprintName, Preset, Recipe, for_footprint};
use candidates::candidate;
use case_blocks::{source_of, told_block};
use case_files::{bad_row, number, numbers};
use endpoint_modes::EndpointMode;
use recipes::{recipe, recipe_count, shapes_of};
use std::alloc::Global;
use std::io;

/// The number of recipes and shapes of a preset.
pub fn count_answer(alloc: Global, words: &str) -> io::Result<String> {
    let Some(preset) = Preset::from_word(words) else {
        return Err(bad_row());
    };
    let (count, shapes) = (recipe_count(preset), shapes_of(preset).len());
    Ok(format!(in alloc; "{count} recipes of {shapes} shapes")?)
}

/// The recipe at a place of a preset's list: `PRESET PLACE`.
pub fn recipe_answer(alloc: Global, words: &str) -> io::Result<String> {
    let (word, place) = words.split_once(' ').unwrap_or((words, ""));
    let Some(preset) = Preset::from_word(word) else {
        return Err(bad_row());
    };
    let place = number(place)?;
    if place >= recipe_count(preset) {
        return Err(bad_row());
    }
    let found = recipe(preset, place);
    let (mode, plane, parts) = (found.mode, found.plane, found.parts);
    let (seed, cem, flip) = (found.seed, found.cem, found.flip);
    Ok(format!(in alloc; "{mode} {plane} {parts} {seed} {cem} {flip}")?)
}

// A recipe by mode, plane, parts, seed, endpoint mode and flip.
fn recipe_of(text: &str) -> io::Result<Recipe>
    ensures { IfOk result IsRecipe }
{
    let [mode, plane, parts, seed, cem, flip] = numbers::<6>(text)?;
    if mode >= 2048 || plane > 4 || parts < 1 || parts > 4 {
        return Err(bad_row());
    }
    if seed >= 1024 || cem >= 16 || flip >= 8 {
        return Err(bad_row());
    }
    if EndpointMode::of(cem as u8).is_none() {
        return Err(bad_row());
    }
    Ok(Recipe {
        mode: mode as u16,
        plane: plane as u8,
        parts: parts as u8,
        seed: if parts == 1 { 0 } else { seed as u16 },
        cem: cem as u8,
        flip: flip as u8,
    })
}

fn made<const W: usize, const H: usize>(recipe: &Recipe, texels: &[u8]) -> Option<Block>
    requires footprint { IsTrue (is_footprint W H) }
    requires recipe { IsRecipe recipe.now }
{
    candidate::<W, H>(recipe, &source_of::<W, H>(texels))
}

/// The block that a recipe makes of a source: `FOOTPRINT TEXELS RECIPE`.
pub fn candidate_answer(alloc: Global, words: &str) -> io::Result<String> {
    let (name, rest) = words.split_once(' ').unwrap_or((words, ""));
    let (texels, fields) = rest.split_once(' ').unwrap_or((rest, ""));
    let Some(name) = FootprintName::from_word(name) else {
        return Err(bad_row());
    };
    let recipe = recipe_of(fields)?;
    let (recipe, texels) = (&recipe, texels.as_bytes());
    match for_footprint!(name, made(recipe, texels)) {
        Some(block) => Ok(told_block(alloc, &block)?),
        None => Ok(String::from_str(alloc, "none")?),
    }
}

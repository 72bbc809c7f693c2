// A law of the recipes of a preset, for callers' proofs.
ghost use Rattle.std.specs.Prelude.{◌<◌, ℕ, Bool, IsTrue};
ghost use Rattle.std.specs.List.{AllByRecursion};
ghost use Rattle.astc_model.specs.declared.preset.Preset.{Preset};
ghost use Rattle.astc_model.specs.declared.recipe.Recipe.{Recipe};
ghost use Rattle.astc_model.specs.Recipes.{recipes, with_mode};
ghost use Rattle.recipes.specs.Shapes.{shapes};

/// States that a walk over all block modes (0 to 2047) and all shapes of a preset meets the recipes
/// of the preset and no others: a property that holds for all recipes that the walk meets holds for
/// all recipes of the preset, and the other way round. The function does nothing: its contract is
/// the law.
pub fn walks_meet_recipes()
    ensures all { (p : Recipe → Bool) (preset : Preset)
        → ((mode : ℕ) → mode < 2048 → AllByRecursion (λ shape. IsTrue (p (with_mode mode shape)))
        (shapes preset))
        → AllByRecursion (λ recipe. IsTrue (p recipe)) (recipes preset) }
    ensures only { (p : Recipe → Bool) (preset : Preset)
        → AllByRecursion (λ recipe. IsTrue (p recipe)) (recipes preset)
        → (mode : ℕ) → mode < 2048 → AllByRecursion (λ shape. IsTrue (p (with_mode mode shape)))
        (shapes preset) }
{}

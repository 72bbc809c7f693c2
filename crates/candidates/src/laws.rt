// Laws of all candidates, for callers' proofs.
ghost use Rattle.std.specs.Prelude.{◌≡◌, ℕ, List, Option, Some};
ghost use Rattle.astc_model.specs.Places.{Texel};
ghost use Rattle.astc_model.specs.Weights.{Weighting};
ghost use Rattle.astc_model.specs.declared.flavour.Flavour.{Flavour};
ghost use Rattle.astc_model.specs.declared.preset.Preset.{Preset};
ghost use Rattle.astc_model.specs.declared.recipe.Recipe.{Recipe};
ghost use Rattle.astc_model.specs.declared.block.Block.{Block};
ghost use Rattle.astc_model.specs.Blocks.{Legal};
ghost use Rattle.astc_model.specs.Candidates.{candidate};
ghost use Rattle.recipes.specs.Shapes.{IsRecipe};
ghost use Rattle.candidates.specs.Walks.{NoneOfWalkUnder, NoCandidateUnder};

/// States that every candidate is a legal block. The function does nothing: its contract is the
/// law.
pub fn candidates_are_legal()
    ensures { (w h : ℕ) (recipe : Recipe) (places : List (Option Texel)) (block : Block)
        → IsRecipe recipe
        → candidate w h recipe places ≡ Some block → Legal w h block }
{}

/// States that a walk over all block modes (0 to 2047) and all shapes of a preset meets the
/// candidates of the preset and no others: the walk meets no candidate with an error under a limit
/// exactly if the preset lists none. The function does nothing: its contract is the law.
pub fn walks_meet_candidates()
    ensures all { (w h : ℕ) (flavour : Flavour) (weights : Weighting) (preset : Preset)
        (places : List (Option Texel)) (limit : ℕ)
        → NoneOfWalkUnder w h flavour weights preset places limit
        → NoCandidateUnder w h flavour weights preset places limit }
    ensures only { (w h : ℕ) (flavour : Flavour) (weights : Weighting) (preset : Preset)
        (places : List (Option Texel)) (limit : ℕ)
        → NoCandidateUnder w h flavour weights preset places limit
        → NoneOfWalkUnder w h flavour weights preset places limit }
{}

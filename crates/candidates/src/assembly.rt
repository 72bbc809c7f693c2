// Assembles the candidate of a recipe: the block that the recipe makes of a source.
ghost use Rattle.std.specs.Prelude.{◌≡◌, ℕ, ◌<◌, ◌≤◌, ◌*◌, IsTrue, IsSome, ◌↔◌, List, length, take, slice_index, Some};
ghost use Rattle.std.specs.List.{All};
ghost use Rattle.astc_model.specs.Footprints.{is_footprint};
ghost use Rattle.astc_model.specs.Levels.{count_of};
ghost use Rattle.astc_model.specs.Modes.{IsInModeRange, decoded_mode};
ghost use Rattle.astc_model.specs.Bounds.{part_map};
ghost use Rattle.astc_model.specs.Endpoints.{endpoint_integers};
ghost use Rattle.astc_model.specs.Shapes.{weight_count};
ghost use Rattle.astc_model.specs.Candidates.{Ends, cems_of, recipe_level, weights_of, coded_on, coded_of, candidate_at, candidate, is_legal_recipe};
ghost use Rattle.recipes.specs.Shapes.{IsShape, IsRecipe};
ghost use Rattle.candidates.specs.Pieces.{bounds_by_part, IsPalette, grid_places, AreTargets, assembled};
ghost use Rattle.astc_model.specs.declared.block.Block.TheVariants.{Coded as CodedBlock};

use crate::bounds::{bounds_by_part, part_map};
use crate::colours::{Palette, copy_of, palette_from};
use crate::legal::{cems_of, recipe_level};
use crate::weights::{Targets, grid_places, targets_of, weights_from};
use arrayvec::ArrayVec;
use astc_model::{Block, Box8, Coded, Level, Mode, Recipe, Source};
use block_mode::mode_of;

// The weights of a block with this mode, from the targets at the places of its grid points.
fn weights_with<const W: usize, const H: usize>(
    mode: &Mode,
    targets: &Targets,
    grid: &[Option<u8>],
    places: &[Option<[u8; 4]>],
) -> ArrayVec<u8, 64>
    requires footprint { IsTrue (is_footprint W H) }
    requires mode { IsInModeRange mode.now }
    requires weights { weight_count mode.now ≤ 64 }
    requires places { length places.now ≡ W * H }
    requires grid { grid.now ≡ grid_places W H mode.now.across mode.now.down places.now }
    requires first { All (λ target. target ≤ 64) (take (length places.now) targets.now.first) }
    requires second { All (λ target. target ≤ 64) (take (length places.now) targets.now.second) }
    ensures { (component : ℕ) (parts : List ℕ) (ends : List Ends)
        → AreTargets component mode.now.planes parts ends places.now
        (length places.now) targets.now
        → result.items ≡ weights_of W H component mode.now parts ends places.now }
{
    let first = &targets.first[..places.len()];
    let second = &targets.second[..places.len()];
    weights_from(mode.level, mode.planes, grid, first, second)
}

// The weights of a recipe's block, where `ends` has the two endpoints of each partition.
fn weights_of<const W: usize, const H: usize>(
    recipe: &Recipe,
    mode: &Mode,
    grid: &[Option<u8>],
    parts: &[u8],
    ends: &[([u8; 4], [u8; 4])],
    places: &[Option<[u8; 4]>],
) -> ArrayVec<u8, 64>
    requires footprint { IsTrue (is_footprint W H) }
    requires mode { IsInModeRange mode.now }
    requires weights { weight_count mode.now ≤ 64 }
    requires grid { grid.now ≡ grid_places W H mode.now.across mode.now.down places.now }
    requires map { length parts.now ≡ W * H }
    requires places { length places.now ≡ W * H }
    requires few { length ends.now ≤ 4 }
    requires parts { (p : ℕ) → p < W * H → slice_index parts.now p < length ends.now }
    ensures { result.items ≡ weights_of W H recipe.now.plane mode.now parts.now ends.now
        places.now }
{
    let targets = targets_of(recipe.plane, mode.planes, parts, ends, places);
    weights_with::<W, H>(mode, &targets, grid, places)
}

// The block of a recipe with the given colour integers and weights.
fn assembled(recipe: &Recipe, colours: ArrayVec<u8, 18>, weights: ArrayVec<u8, 64>) -> Coded
    ensures { result ≡ assembled recipe.now colours.items weights.items }
{
    Coded {
        mode: recipe.mode,
        parts: recipe.parts,
        seed: recipe.seed,
        selector: 0,
        cems: cems_of(recipe),
        colours,
        weights,
        plane: recipe.plane,
    }
}

/// Returns the block of a legal recipe with this mode from its pieces: the colours, the place from
/// which each grid point takes its weight, the partition of each place, and the texels of the
/// source. A search computes these pieces once for several blocks.
pub fn coded_from<const W: usize, const H: usize>(
    recipe: &Recipe,
    mode: &Mode,
    palette: Palette,
    grid: &[Option<u8>],
    parts: &[u8],
    places: &[Option<[u8; 4]>],
) -> Coded
    requires footprint { IsTrue (is_footprint W H) }
    requires mode { IsInModeRange mode.now }
    requires weights { weight_count mode.now ≤ 64 }
    requires grid { grid.now ≡ grid_places W H mode.now.across mode.now.down places.now }
    requires map { length parts.now ≡ W * H }
    requires places { length places.now ≡ W * H }
    requires parts { (p : ℕ) → p < W * H → slice_index parts.now p < length palette.ends.items }
    ensures { result ≡ assembled recipe.now palette.colours.items
        (weights_of W H recipe.now.plane mode.now parts.now palette.ends.items places.now) }
{
    let weights = weights_of::<W, H>(recipe, mode, grid, parts, palette.ends.as_slice(), places);
    assembled(recipe, palette.colours, weights)
}

// The block of a legal recipe with this mode and this level of colour integers. `parts` has the
// partition of each place, `bounds` the bounds of each partition.
fn coded_with<const W: usize, const H: usize>(
    recipe: &Recipe,
    mode: &Mode,
    level: Level,
    parts: &[u8],
    bounds: &[Box8],
    grid: &[Option<u8>],
    places: &[Option<[u8; 4]>],
) -> Coded
    requires footprint { IsTrue (is_footprint W H) }
    requires mode { IsInModeRange mode.now }
    requires weights { weight_count mode.now ≤ 64 }
    requires level { 6 ≤ count_of level }
    requires shape { IsShape recipe.now }
    requires few { recipe.now.parts * endpoint_integers recipe.now.cem ≤ 18 }
    requires map { length parts.now ≡ W * H }
    requires places { length places.now ≡ W * H }
    requires parts { (p : ℕ) → p < W * H → slice_index parts.now p < recipe.now.parts }
    requires bounds { bounds.now ≡ bounds_by_part parts.now recipe.now.parts places.now
        (length places.now) }
    requires count { length bounds.now ≡ recipe.now.parts }
    requires grid { grid.now ≡ grid_places W H mode.now.across mode.now.down places.now }
    ensures { result ≡ coded_on W H recipe.now mode.now level parts.now places.now }
{
    let palette = palette_from(recipe, level, bounds);
    coded_from::<W, H>(recipe, mode, palette, grid, parts, places)
}

// The block of a legal recipe with this mode and this level of colour integers; computes the bounds
// and the grid.
fn coded_on<const W: usize, const H: usize>(
    recipe: &Recipe,
    mode: &Mode,
    level: Level,
    parts: &[u8],
    places: &[Option<[u8; 4]>],
) -> Coded
    requires footprint { IsTrue (is_footprint W H) }
    requires mode { IsInModeRange mode.now }
    requires weights { weight_count mode.now ≤ 64 }
    requires level { 6 ≤ count_of level }
    requires shape { IsShape recipe.now }
    requires few { recipe.now.parts * endpoint_integers recipe.now.cem ≤ 18 }
    requires map { length parts.now ≡ W * H }
    requires places { length places.now ≡ W * H }
    requires parts { (p : ℕ) → p < W * H → slice_index parts.now p < recipe.now.parts }
    ensures { result ≡ coded_on W H recipe.now mode.now level parts.now places.now }
{
    let bounds = bounds_by_part(parts, recipe.parts, places);
    let grid = grid_places::<W, H>(mode.across, mode.down, places);
    coded_with::<W, H>(
        recipe,
        mode,
        level,
        parts,
        bounds.as_slice(),
        grid.as_slice(),
        places,
    )
}

/// Returns the block of a recipe from the pieces that all candidates with one level of colour
/// integers share (the colours and the targets of each place) and the places of the mode's grid
/// points. Only the weights have to be computed.
pub fn candidate_with<const W: usize, const H: usize>(
    recipe: &Recipe,
    mode: &Mode,
    palette: &Palette,
    targets: &Targets,
    grid: &[Option<u8>],
    places: &[Option<[u8; 4]>],
) -> Coded
    requires footprint { IsTrue (is_footprint W H) }
    requires known { decoded_mode recipe.now.mode ≡ Some mode.now }
    requires mode { IsInModeRange mode.now }
    requires level { recipe_level W H recipe.now mode.now ≡ Some palette.now.level }
    requires weights { weight_count mode.now ≤ 64 }
    requires places { length places.now ≡ W * H }
    requires palette { IsPalette W H recipe.now places.now palette.now }
    requires targets { AreTargets recipe.now.plane mode.now.planes
        (part_map W H recipe.now.parts recipe.now.seed) palette.now.ends.items places.now
        (length places.now) targets.now }
    requires grid { grid.now ≡ grid_places W H mode.now.across mode.now.down places.now }
    ensures candidate { candidate W H recipe.now places.now ≡ Some (CodedBlock result) }
    ensures same { result ≡ coded_of W H recipe.now mode.now palette.now.level places.now }
{
    let weights = weights_with::<W, H>(mode, targets, grid, places);
    assembled(recipe, copy_of(&palette.colours), weights)
}

// The block of a recipe with this mode; None if the recipe is not legal with it.
#[tactic(auto, using(crate::proofs::ModeLaws::few_colours))]
fn candidate_on<const W: usize, const H: usize>(
    recipe: &Recipe,
    mode: &Mode,
    places: &[Option<[u8; 4]>],
) -> Option<Block>
    requires footprint { IsTrue (is_footprint W H) }
    requires mode { IsInModeRange mode.now }
    requires shape { IsShape recipe.now }
    requires places { length places.now ≡ W * H }
    ensures { result ≡ candidate_at W H recipe.now mode.now (recipe_level W H recipe.now mode.now)
        places.now }
{
    match recipe_level::<W, H>(recipe, mode) {
        None => None,
        Some(level) => {
            let map = part_map::<W, H>(recipe.parts, recipe.seed);
            let parts = &map[..W * H];
            Some(Block::Coded(coded_on::<W, H>(recipe, mode, level, parts, places)))
        }
    }
}

// The block of a recipe; None if the recipe is not legal.
#[tactic(auto, unfolding(astc_model::specs::Candidates::candidate))]
fn block_of<const W: usize, const H: usize>(recipe: &Recipe, source: &Source<W, H>) -> Option<Block>
    requires { IsRecipe recipe.now }
    ensures { result ≡ candidate W H recipe.now source.now }
{
    match mode_of(recipe.mode) {
        None => None,
        Some(mode) => candidate_on::<W, H>(recipe, &mode, source.places()),
    }
}

/// Returns the candidate of a recipe: the block that the recipe makes of the source. None exactly
/// if the recipe is not legal for the footprint: its block mode is reserved or has another number
/// of planes than the recipe, or the shape of the block has a fault.
pub fn candidate<const W: usize, const H: usize>(
    recipe: &Recipe,
    source: &Source<W, H>,
) -> Option<Block>
    requires { IsRecipe recipe.now }
    ensures exact { result ≡ candidate W H recipe.now source.now }
    ensures legal_recipe { IsSome result ↔ IsTrue (is_legal_recipe W H recipe.now) }
{
    block_of(recipe, source)
}

// The recipes of a preset by their index. The list is made of groups: a group has entries (an
// endpoint mode, a number of partitions, a plane and flips) that are combined with each of its
// seeds and each block mode.
ghost use Rattle.std.specs.Prelude.{◌≡◌, ◌<◌, ◌≤◌, ◌+◌, ◌*◌, IsTrue, map, length, slice_index_or};
ghost use Rattle.std.specs.List.{list_all};
ghost use Rattle.astc_model.specs.Recipes.{recipes, groups, with_mode, with_seed};
ghost use Rattle.recipes.specs.Shapes.{IsRecipe};
ghost use Rattle.recipes.specs.Entries.{size_of, size_of_all, no_recipe, entry_of, entry_at};
ghost use Rattle.recipes.specs.Spans.{group_of, is_span, IsSpan};

use crate::table::{ENTRIES, SPANS, Span};
use astc_model::{Preset, Recipe};

// The groups of a preset. A span is a group as a run of the table of entries.
#[tactic(auto, unfolding(astc_model::specs::Recipes::groups))]
fn spans_of(preset: Preset) -> &'static [Span]
    ensures groups { map group_of result.now ≡ groups preset }
    ensures spans { IsTrue (list_all is_span result.now) }
{
    match preset {
        Preset::Flat => &SPANS[..0],
        Preset::Quick | Preset::Pairs => &SPANS[..1],
        Preset::Medium => &SPANS[..5],
        Preset::Thorough => &SPANS,
    }
}

// The number of entries of a group, 1 to 64.
#[tactic(auto, using(crate::proofs::SpanLaws::length_entries))]
fn entry_count(span: Span) -> u32
    requires { IsSpan span }
    ensures count { result ≡ length (group_of span).entries }
    ensures same { result ≡ span.count }
    ensures some { 1 ≤ result }
    ensures small { result ≤ 64 }
{
    u32::from(span.count)
}

// Entry `k` of a group.
#[tactic(auto, using(crate::proofs::SpanLaws::entry_is))]
fn entry_in(span: Span, k: u32) -> Recipe
    requires span { IsSpan span }
    requires entry { k < span.count }
    ensures { result ≡ slice_index_or (group_of span).entries k no_recipe }
{
    ENTRIES[span.first as usize + k as usize]
}

// The number of recipes of a group: seeds times 2048 block modes times entries.
fn size(span: Span) -> u32
    requires { IsSpan span }
    ensures size { result ≡ size_of 2048 (group_of span) }
    ensures small { result ≤ 8388608 }
{
    u32::from(span.seeds) * (2048 * entry_count(span))
}

// The recipe that combines an entry with a block mode and a seed.
fn with_mode_and_seed(mode: u16, seed: u16, entry: Recipe) -> Recipe
    ensures { result ≡ with_mode mode (with_seed seed entry) }
{
    Recipe {
        mode,
        plane: entry.plane,
        parts: entry.parts,
        seed,
        cem: entry.cem,
        flip: entry.flip,
    }
}

// Recipe `i` of a group: ordered by seed, then by block mode, then by entry.
#[tactic(auto, using(crate::proofs::SpanLaws::seed_below))]
fn recipe_in(span: Span, i: u32) -> Recipe
    requires span { IsSpan span }
    requires place { i < size_of 2048 (group_of span) }
    ensures { result ≡ entry_of 2048 (group_of span) i }
{
    let count = entry_count(span);
    let of_seed = i % (2048 * count);
    with_mode_and_seed(
        (of_seed / count) as u16,
        (i / (2048 * count)) as u16,
        entry_in(span, of_seed % count),
    )
}

// Recipe `i` of a list of groups, counted over all of them.
fn entry_at(spans: &[Span], i: u32) -> Recipe
    requires spans { IsTrue (list_all is_span spans.now) }
    requires place { i < size_of_all 2048 (map group_of spans.now) }
    ensures { result ≡ entry_at 2048 (map group_of spans.now) i }
{
    match spans {
        [] => unreachable!(),
        [span, rest @ ..] => {
            let here = size(*span);
            if i < here {
                recipe_in(*span, i)
            } else {
                entry_at(rest, i - here)
            }
        }
    }
}

/// Returns the number of recipes of a preset: 0 for Flat, 4,096 for Quick and Pairs, 59,392 for
/// Medium, 542,720 for Thorough.
#[tactic(auto, using(crate::proofs::EntryLaws::flat_count, crate::proofs::EntryLaws::quick_count, crate::proofs::EntryLaws::pairs_count, crate::proofs::EntryLaws::medium_count, crate::proofs::EntryLaws::thorough_count))]
pub fn recipe_count(preset: Preset) -> u32
    ensures { result ≡ length (recipes preset) }
{
    match preset {
        Preset::Flat => 0,
        Preset::Quick | Preset::Pairs => 4096,
        Preset::Medium => 59392,
        Preset::Thorough => 542720,
    }
}

/// Returns recipe `i` of a preset's list, counted from 0. All fields of the recipe are in range.
pub fn recipe(preset: Preset, i: u32) -> Recipe
    requires { i < length (recipes preset) }
    ensures exact { result ≡ slice_index_or (recipes preset) i no_recipe }
    ensures in_range { IsRecipe result }
{
    entry_of_preset(preset, i)
}

// Recipe `i` of a preset, found by its group.
fn entry_of_preset(preset: Preset, i: u32) -> Recipe
    requires { i < length (recipes preset) }
    ensures { result ≡ slice_index_or (recipes preset) i no_recipe }
{
    entry_at(spans_of(preset), i)
}

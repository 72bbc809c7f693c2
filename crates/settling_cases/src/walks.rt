// Blocks that change by one integer at a time, and their errors.
ghost use Rattle.std.specs.Prelude.{IsTrue};
ghost use Rattle.astc_model.specs.Blocks.{Legal};
ghost use Rattle.astc_model.specs.Footprints.{is_footprint};

use astc_model::{Block, Source, for_footprint};
use block_mode::is_legal;
use case_blocks::{Judging, block_of_fields, judged_words, source_of, told_block};
use case_files::{bad_row, numbers, small};
use error_state::ErrorState;
use std::alloc::Global;
use std::io;
use texel_error::Steps;

// An integer of a block by its place, its new value, and the most texels that it can change.
#[derive(Clone, Copy)]
struct TriedChange {
    is_weight: bool,
    place: u8,
    value: u8,
    most: u32,
}

// A change by its words: `weight PLACE VALUE MOST` or `colour PLACE VALUE MOST`.
fn change_of(text: &str) -> io::Result<TriedChange> {
    let (kind, rest) = text.split_once(' ').unwrap_or((text, ""));
    let [place, value, most] = numbers::<3>(rest)?;
    Ok(TriedChange {
        is_weight: kind == "weight",
        place: small(place)?,
        value: small(value)?,
        most,
    })
}

// Tries a weight and then sets it; whether both agree on the error, and the trial leaves the state
// and takes few steps.
fn change_weight<const W: usize, const H: usize>(
    state: &mut ErrorState<'_, W, H>,
    change: TriedChange,
) -> io::Result<bool> {
    let (i, value) = (change.place, change.value);
    if usize::from(i) >= state.block().weights.len() || u16::from(value) >= state.weight_range() {
        return Err(bad_row());
    }
    let before = state.total();
    let mut steps = Steps::<()>::new();
    let error = state.try_weight(i, value, &mut steps);
    let is_kept = state.total() == before && steps.number() <= u64::from(change.most);
    state.set_weight(i, value);
    Ok(is_kept && state.total() == error)
}

// Tries a colour integer and then sets it, as `change_weight`.
fn change_colour<const W: usize, const H: usize>(
    state: &mut ErrorState<'_, W, H>,
    change: TriedChange,
) -> io::Result<bool> {
    let (i, value) = (change.place, change.value);
    if usize::from(i) >= state.block().colours.len() || u16::from(value) >= state.colour_range() {
        return Err(bad_row());
    }
    let before = state.total();
    let mut steps = Steps::<()>::new();
    let error = state.try_colour(i, value, &mut steps);
    let is_kept = state.total() == before && steps.number() <= u64::from(change.most);
    state.set_colour(i, value);
    Ok(is_kept && state.total() == error)
}

// The errors after each of some changes with a comma between two.
fn errors_after<const W: usize, const H: usize>(
    alloc: Global,
    state: &mut ErrorState<'_, W, H>,
    changes: &str,
) -> io::Result<String> {
    let first = state.total();
    let mut errors = format!(in alloc; "{first}")?;
    for text in changes.split(", ") {
        let change = change_of(text)?;
        let is_so = if change.is_weight {
            change_weight(state, change)?
        } else {
            change_colour(state, change)?
        };
        let error = state.total();
        let mark = if is_so { "" } else { " otherwise" };
        let more = format!(in alloc; " {error}{mark}")?;
        errors.push_str(more.as_str())?;
    }
    Ok(errors)
}

fn start<'a, const W: usize, const H: usize>(
    block: &Block,
    judging: Judging,
    source: &'a Source<W, H>,
) -> Option<ErrorState<'a, W, H>>
    requires { Legal W H block.now }
{
    match block {
        Block::Coded(given) => Some(ErrorState::<W, H>::start(
            given,
            judging.flavour,
            judging.weights,
            source,
        )),
        Block::Constant(_) => None,
    }
}

fn walk<const W: usize, const H: usize>(
    alloc: Global,
    judging: Judging,
    texels: &[u8],
    block: &Block,
    changes: &str,
) -> io::Result<String>
    requires { IsTrue (is_footprint W H) }
{
    if !is_legal::<W, H>(block) {
        return Err(bad_row());
    }
    let source = source_of::<W, H>(texels);
    let Some(mut state) = start::<W, H>(block, judging, &source) else {
        return Err(bad_row());
    };
    let errors = errors_after::<W, H>(alloc, &mut state, changes)?;
    let end = told_block(alloc, &Block::Coded(state.into_block()))?;
    Ok(format!(in alloc; "{errors}, {end}")?)
}

/// The errors of a block that changes by one integer at a time, from its own on, and the block at
/// the end: `FOOTPRINT FLAVOUR WEIGHTS TEXELS FIELDS by CHANGE, CHANGE ..`.
pub fn walk_answer(alloc: Global, words: &str) -> io::Result<String> {
    let (name, judging, texels, rest) = match judged_words(alloc, words) {
        Ok(read) => read,
        Err(fault) => return Err(fault),
    };
    let (fields, changes) = rest.split_once(" by ").unwrap_or((rest, ""));
    let block = block_of_fields(alloc, fields)?;
    let (block, texels) = (&block, texels.as_bytes());
    for_footprint!(name, walk(alloc, judging, texels, block, changes))
}

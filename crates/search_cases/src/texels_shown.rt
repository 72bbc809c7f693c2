// Texels of blocks, and errors.
ghost use Rattle.std.specs.Prelude.{IsTrue};
ghost use Rattle.astc_model.specs.Blocks.{Legal};
ghost use Rattle.astc_model.specs.Footprints.{is_footprint};

use astc_model::{Block, Flavour, FootprintName, Source, for_footprint};
use block_mode::is_legal;
use case_blocks::{Judging, block_of_fields, flavour_of, judged_words, source_of};
use case_files::{bad_row, told_texels};
use std::alloc::{AllocError, Global};
use std::io;
use texel_error::{Steps, error_of, error_under, texel, texels};

// The texels of a block one by one, as bytes; they are to be the same as all at once.
fn raster<const W: usize, const H: usize>(
    alloc: Global,
    block: &Block,
    flavour: Flavour,
) -> Result<Vec<u8>, AllocError>
    requires footprint { IsTrue (is_footprint W H) }
    requires legal { Legal W H block.now }
{
    let all = texels::<W, H>(block, flavour);
    let mut bytes = Vec::new(alloc);
    for p in 0..W * H {
        let (x, y) = (p % W, p / W);
        if p < 144 && y < H {
            let one = texel::<W, H>(block, flavour, x as u8, y as u8);
            bytes.extend_from_slice(if one == all[p] { &one } else { &[] })?;
        }
    }
    Ok(bytes)
}

fn told_raster<const W: usize, const H: usize>(
    alloc: Global,
    block: &Block,
    flavour: Flavour,
) -> io::Result<String>
    requires { IsTrue (is_footprint W H) }
{
    if !is_legal::<W, H>(block) {
        return Err(bad_row());
    }
    let bytes = raster::<W, H>(alloc, block, flavour)?;
    Ok(told_texels(alloc, bytes.as_slice())?)
}

/// The texels of a block: `FOOTPRINT FLAVOUR FIELDS`.
pub fn texels_answer(alloc: Global, words: &str) -> io::Result<String> {
    let (name, rest) = words.split_once(' ').unwrap_or((words, ""));
    let (flavour, fields) = rest.split_once(' ').unwrap_or((rest, ""));
    let Some(name) = FootprintName::from_word(name) else {
        return Err(bad_row());
    };
    let (block, flavour) = (block_of_fields(alloc, fields)?, flavour_of(flavour));
    let block = &block;
    for_footprint!(name, told_raster(alloc, block, flavour))
}

// The error under a limit, and how many steps it takes.
fn under<const W: usize, const H: usize>(
    block: &Block,
    judging: Judging,
    source: &Source<W, H>,
    limit: u32,
) -> (Option<u32>, u64)
    requires footprint { IsTrue (is_footprint W H) }
    requires legal { Legal W H block.now }
{
    let mut steps = Steps::<()>::new();
    let (flavour, weights) = (judging.flavour, judging.weights);
    let error = error_under::<W, H, ()>(block, flavour, weights, source, limit, &mut steps);
    (error, steps.number())
}

// The error, and the results under the limits 0, the error and one more.
fn told_error<const W: usize, const H: usize>(
    alloc: Global,
    block: &Block,
    judging: Judging,
    texels: &[u8],
) -> io::Result<String>
    requires { IsTrue (is_footprint W H) }
{
    if !is_legal::<W, H>(block) {
        return Err(bad_row());
    }
    let source = source_of::<W, H>(texels);
    let error = error_of::<W, H>(block, judging.flavour, judging.weights, &source);
    let none = under::<W, H>(block, judging, &source, 0);
    let (refused, few) = under::<W, H>(block, judging, &source, error);
    let (found, all) = under::<W, H>(block, judging, &source, error.saturating_add(1));
    let as_wanted = none == (None, 0) && refused.is_none() && few <= all && found == Some(error);
    let also = if as_wanted {
        ""
    } else {
        ", another under limits"
    };
    Ok(format!(in alloc; "{error} by {all} steps{also}")?)
}

// How many steps the limit 1 takes.
fn told_first_place<const W: usize, const H: usize>(
    alloc: Global,
    block: &Block,
    judging: Judging,
    texels: &[u8],
) -> io::Result<String>
    requires { IsTrue (is_footprint W H) }
{
    if !is_legal::<W, H>(block) {
        return Err(bad_row());
    }
    let source = source_of::<W, H>(texels);
    let (found, steps) = under::<W, H>(block, judging, &source, 1);
    Ok(format!(in alloc; "{found:?} by {steps} steps")?)
}

/// The error of a block: `FOOTPRINT FLAVOUR WEIGHTS TEXELS FIELDS`.
pub fn error_answer(alloc: Global, words: &str) -> io::Result<String> {
    let (name, judging, texels, fields) = match judged_words(alloc, words) {
        Ok(read) => read,
        Err(fault) => return Err(fault),
    };
    let block = block_of_fields(alloc, fields)?;
    let (block, texels) = (&block, texels.as_bytes());
    for_footprint!(name, told_error(alloc, block, judging, texels))
}

/// The steps of a limit of 1: `FOOTPRINT FLAVOUR WEIGHTS TEXELS FIELDS`.
pub fn first_place_answer(alloc: Global, words: &str) -> io::Result<String> {
    let (name, judging, texels, fields) = match judged_words(alloc, words) {
        Ok(read) => read,
        Err(fault) => return Err(fault),
    };
    let block = block_of_fields(alloc, fields)?;
    let (block, texels) = (&block, texels.as_bytes());
    for_footprint!(name, told_first_place(alloc, block, judging, texels))
}

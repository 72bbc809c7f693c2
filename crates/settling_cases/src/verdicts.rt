// Errors of blocks, and whether a change has a smaller one.
ghost use Rattle.std.specs.Prelude.{IsTrue, IfOk};
ghost use Rattle.astc_model.specs.Blocks.{Legal};
ghost use Rattle.astc_model.specs.Footprints.{is_footprint};

use astc_model::{Block, for_footprint};
use block_reader::read_block;
use case_blocks::{Judging, judged_words, source_of};
use case_files::{bad_row, block_of_digits};
use descent::is_least;
use pair_descent::pair_least;
use std::alloc::Global;
use std::io;
use texel_error::{Steps, error_of};

/// The legal block of 32 digits.
///
/// # Errors
///
/// If the bytes are not a block of the footprint.
pub fn block_of<const W: usize, const H: usize>(digits: &str) -> io::Result<Block>
    ensures { IfOk result (Legal W H) }
{
    match read_block::<W, H>(&block_of_digits(digits)) {
        Ok(block) => Ok(block),
        Err(_) => Err(bad_row()),
    }
}

fn verdict<const W: usize, const H: usize>(
    alloc: Global,
    judging: Judging,
    texels: &[u8],
    digits: &str,
    of_pairs: bool,
) -> io::Result<String>
    requires { IsTrue (is_footprint W H) }
{
    let block = block_of::<W, H>(digits)?;
    let source = source_of::<W, H>(texels);
    let (flavour, weights) = (judging.flavour, judging.weights);
    let error = error_of::<W, H>(&block, flavour, weights, &source);
    let is_least = if of_pairs {
        pair_least::<W, H>(&block, flavour, weights, &source)
    } else {
        is_least::<W, H, ()>(&block, flavour, weights, &source, &mut Steps::<()>::new())
    };
    Ok(format!(in alloc; "{error}, least {is_least}")?)
}

/// The error of a block, and whether no change of one integer, or with `of_pairs` of one or both
/// integers of a pair, has a smaller one: `FOOTPRINT FLAVOUR WEIGHTS TEXELS BLOCK`.
pub fn verdict_answer(alloc: Global, words: &str, of_pairs: bool) -> io::Result<String> {
    let (name, judging, texels, digits) = match judged_words(alloc, words) {
        Ok(read) => read,
        Err(fault) => return Err(fault),
    };
    let texels = texels.as_bytes();
    for_footprint!(name, verdict(alloc, judging, texels, digits, of_pairs))
}

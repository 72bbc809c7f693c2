// Settled blocks beside the best of the listed ones.
ghost use Rattle.std.specs.Prelude.{IsTrue};
ghost use Rattle.astc_model.specs.Footprints.{is_footprint};

use astc_model::{Block, Preset, Source, constant_bytes, for_footprint, mean_constant};
use block_reader::read_block;
use case_blocks::{Judging, judged_words, source_of};
use case_files::{bad_row, number};
use descent::{encode_block, is_least};
use std::alloc::Global;
use std::io;
use texel_error::{Steps, error_of};

// Whether the bytes are a block of this error, which no change of one integer makes smaller.
fn is_settled<const W: usize, const H: usize>(
    bytes: &[u8; 16],
    error: u32,
    judging: Judging,
    source: &Source<W, H>,
) -> bool {
    let (flavour, weights) = (judging.flavour, judging.weights);
    let mut steps = Steps::<()>::new();
    match read_block::<W, H>(bytes) {
        Ok(block) => {
            error_of::<W, H>(&block, flavour, weights, source) == error
                && is_least::<W, H, ()>(&block, flavour, weights, source, &mut steps)
        }
        Err(_) => false,
    }
}

fn settled<const W: usize, const H: usize>(
    alloc: Global,
    judging: Judging,
    texels: &[u8],
    preset: Preset,
    least: u32,
) -> io::Result<String>
    requires { IsTrue (is_footprint W H) }
{
    let source = source_of::<W, H>(texels);
    let none: [Block; 0] = [];
    let mut steps = Steps::<()>::new();
    let (flavour, weights) = (judging.flavour, judging.weights);
    let (bytes, error) = encode_block::<W, H, ()>(
        preset, flavour, weights, &source, &none, &mut steps,
    );
    let within = if error <= least { "at most" } else { "over" };
    let is_mean = bytes == constant_bytes(mean_constant(&source));
    let is_settled = is_settled::<W, H>(&bytes, error, judging, &source);
    Ok(format!(in alloc; "{within} {least}, mean {is_mean}, settled {is_settled}")?)
}

/// Whether the block that is settled for a source is at most as far from it as the best listed one,
/// and whether it is the mean constant: `FOOTPRINT FLAVOUR WEIGHTS TEXELS PRESET LEAST`.
pub fn settled_answer(alloc: Global, words: &str) -> io::Result<String> {
    let (name, judging, texels, rest) = match judged_words(alloc, words) {
        Ok(read) => read,
        Err(fault) => return Err(fault),
    };
    let (word, least) = rest.split_once(' ').unwrap_or((rest, ""));
    let Some(preset) = Preset::from_word(word) else {
        return Err(bad_row());
    };
    let least = number(least)?;
    let texels = texels.as_bytes();
    for_footprint!(name, settled(alloc, judging, texels, preset, least))
}

// The words by which a row judges a block.
use astc_model::{ChannelWeights, Flavour, FootprintName};
use case_files::{bad_row, small_numbers};
use std::alloc::Global;
use std::io;

/// The flavour and the channel weights by which a row judges a block.
#[derive(Clone, Copy)]
pub struct Judging {
    pub flavour: Flavour,
    pub weights: ChannelWeights,
}

/// The flavour of a word: sRGB for `srgb`, else linear.
pub fn flavour_of(word: &str) -> Flavour {
    if word == "srgb" {
        Flavour::Srgb
    } else {
        Flavour::Linear
    }
}

/// The footprint, the judging and the texels of a row, and the words after them: `FOOTPRINT FLAVOUR
/// WEIGHTS TEXELS ..`.
///
/// # Errors
///
/// If a word is wrong, or memory runs out.
pub fn judged_words(
    alloc: Global,
    words: &str,
) -> io::Result<(FootprintName, Judging, &str, &str)> {
    let (name, rest) = words.split_once(' ').unwrap_or((words, ""));
    let (flavour, rest) = rest.split_once(' ').unwrap_or((rest, ""));
    let (weights, rest) = rest.split_once(' ').unwrap_or((rest, ""));
    let (texels, rest) = rest.split_once(' ').unwrap_or((rest, ""));
    let weights = match small_numbers(alloc, weights)?.as_slice() {
        [red, green, blue, alpha] => ChannelWeights::new([*red, *green, *blue, *alpha]),
        _ => None,
    };
    match (FootprintName::from_word(name), weights) {
        (Some(name), Some(weights)) => {
            let judging = Judging {
                flavour: flavour_of(flavour),
                weights,
            };
            Ok((name, judging, texels, rest))
        }
        _ => Err(bad_row()),
    }
}

// Sources, and pools of advisers that are queried about them.
ghost use Rattle.std.specs.Prelude.{IsTrue};
ghost use Rattle.astc_model.specs.Footprints.{is_footprint};

use adviser_pool::{Ask, Pool, ask_of};
use astc_model::{
    ChannelWeights, Flavour, FootprintName, Preset, Source, constant_error, for_footprint,
    mean_constant,
};
use case_blocks::{adviser_of, block_and_error, new_notes, pool_step, source_of};
use case_files::{bad_row, small_numbers, told_texels};
use std::alloc::{AllocError, Global};
use std::io;

// The weights of channels.
fn weights_of(alloc: Global, text: &str) -> io::Result<ChannelWeights> {
    let found = match small_numbers(alloc, text)?.as_slice() {
        [red, green, blue, alpha] => ChannelWeights::new([*red, *green, *blue, *alpha]),
        _ => None,
    };
    match found {
        Some(weights) => Ok(weights),
        None => Err(bad_row()),
    }
}

// The texels of a source, `.` for each place outside.
fn told_places<const W: usize, const H: usize>(
    alloc: Global,
    source: &Source<W, H>,
) -> Result<String, AllocError>
    requires { IsTrue (is_footprint W H) }
{
    let mut text = String::new(alloc);
    for p in 0..W * H {
        let (x, y) = (p % W, p / W);
        if y < H {
            text.push_str(if p > 0 { " " } else { "" })?;
            match source.get(x as u8, y as u8) {
                Some(texel) => text.push_str(told_texels(alloc, &texel)?.as_str())?,
                None => text.push_str(".")?,
            }
        }
    }
    Ok(text)
}

// The texels, their mean and its error.
fn told_source<const W: usize, const H: usize>(
    alloc: Global,
    texels: &[u8],
    weights: ChannelWeights,
) -> Result<String, AllocError>
    requires { IsTrue (is_footprint W H) }
{
    let source = source_of::<W, H>(texels);
    let places = told_places(alloc, &source)?;
    let mean = mean_constant(&source);
    let error = constant_error(mean, weights, &source);
    format!(in alloc; "{places}, mean {mean:?}, error {error}")
}

/// The texels of a source, their mean and its error: `FOOTPRINT TEXELS WEIGHTS`.
pub fn source_answer(alloc: Global, words: &str) -> io::Result<String> {
    let (name, rest) = words.split_once(' ').unwrap_or((words, ""));
    let (texels, weights) = rest.split_once(' ').unwrap_or((rest, ""));
    let Some(name) = FootprintName::from_word(name) else {
        return Err(bad_row());
    };
    let (texels, weights) = (texels.as_bytes(), weights_of(alloc, weights)?);
    Ok(for_footprint!(name, told_source(alloc, texels, weights))?)
}

// The places of an ask that are inside or have a texel.
fn told_inside(alloc: Global, ask: &Ask) -> Result<String, AllocError> {
    let mut text = String::new(alloc);
    for p in 0..144usize {
        let (inside, texel) = (ask.inside[p], ask.texels[p]);
        if inside || texel != [0; 4] {
            text.push_str(format!(in alloc; ", {p} {inside} {texel:?}")?.as_str())?;
        }
    }
    Ok(text)
}

fn told_ask<const W: usize, const H: usize>(
    alloc: Global,
    preset: Preset,
    weights: ChannelWeights,
    texels: &[u8],
) -> Result<String, AllocError>
    requires { IsTrue (is_footprint W H) }
{
    let source = source_of::<W, H>(texels);
    let ask = ask_of(preset, Flavour::Srgb, weights, &source);
    let (name, preset, flavour) = (ask.name, ask.preset, ask.flavour);
    let weights = ask.weights;
    let inside = told_inside(alloc, &ask)?;
    format!(in alloc; "{name:?} {preset:?} {flavour:?} {weights:?}{inside}")
}

/// The contents of an ask in sRGB: `FOOTPRINT PRESET WEIGHTS TEXELS`.
pub fn ask_answer(alloc: Global, words: &str) -> io::Result<String> {
    let (name, rest) = words.split_once(' ').unwrap_or((words, ""));
    let (preset, rest) = rest.split_once(' ').unwrap_or((rest, ""));
    let (weights, texels) = rest.split_once(' ').unwrap_or((rest, ""));
    let (weights, texels) = (weights_of(alloc, weights)?, texels.as_bytes());
    match (FootprintName::from_word(name), Preset::from_word(preset)) {
        (Some(name), Some(preset)) => {
            Ok(for_footprint!(name, told_ask(alloc, preset, weights, texels))?)
        }
        _ => Err(bad_row()),
    }
}

/// The results of a pool for steps with ` then ` between two: `adviser WORDS` adds one, if there is
/// room, `tell BLOCK ERROR` reports a block to all, and [`pool_step`] has the others.
pub fn pool_answer(alloc: Global, steps: &str) -> io::Result<String> {
    let notes = new_notes(alloc)?;
    let mut pool = Pool::new();
    let mut text = String::from_str(alloc, "a pool")?;
    let mut number = 0u8;
    for step in steps.split(" then ") {
        let (key, rest) = step.split_once(' ').unwrap_or((step, ""));
        if key == "adviser" {
            number = number.saturating_add(1);
            let adviser = adviser_of(alloc, &notes, number, rest)?;
            // A pool takes a box at the place that makes it.
            let Ok(boxed) = Box::new(alloc, adviser) else {
                return Err(bad_row());
            };
            if pool.add(boxed).is_err() {
                text.push_str(", no room")?;
            }
        } else if key == "tell" {
            let (block, error) = block_and_error(rest)?;
            pool.settled(&block, error);
        } else if let Some(told) = pool_step(alloc, &mut pool, &notes, key, rest)? {
            text.push_str(told.as_str())?;
        }
    }
    Ok(text)
}

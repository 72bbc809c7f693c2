// The error of a block: the weighted squared differences between its texels and those of a source.
ghost use Rattle.std.specs.Prelude.{◌≡◌, ◌<◌, ◌≤◌, length, if◌then◌else◌};
ghost use Rattle.std.specs.List.{All};
ghost use Rattle.astc_model.specs.Limits.{most_block_error, most_texel_error};
ghost use Rattle.astc_model.specs.Sums.{sum_to};
ghost use Rattle.astc_model.specs.Blocks.{Legal};
ghost use Rattle.astc_model.specs.Errors.{texel_error, error};
ghost use Rattle.astc_model.specs.declared.block.Block.TheVariants.{Coded as CodedBlock};
ghost use Rattle.texel_error.specs.Counting.{TakesAtMost, is_inside};
ghost use Rattle.texel_error.specs.Limited.{count_under, under, steps_under};
ghost use Rattle.texel_error.specs.Decoding.{IsSound, error_of_place};
ghost use Rattle.texel_error.specs.Goals.{error_to};

use crate::decoded::{Decoded, decode, decode_legal};
use crate::goal::Goal;
use crate::steps::Steps;
use astc_model::{Block, ChannelWeights, Coded, Flavour, Source, texel_error};

/// Returns the error of the place `p`; 0 outside the image.
#[inline(always)]
pub fn error_at(decoded: &Decoded, weights: &[u8; 4], places: &[Option<[u8; 4]>], p: usize) -> u32
    requires sound { IsSound decoded.now }
    requires weights { All (λ weight. weight ≤ 15) weights.now }
    requires few { length places.now ≤ 144 }
    requires place { p < length places.now }
    ensures exact { result ≡ error_of_place decoded.now weights.now places.now p }
    ensures small { result ≤ most_texel_error }
{
    match &places[p] {
        Some(wanted) => texel_error(weights, &decoded.texel(p), wanted),
        None => 0,
    }
}

// The sum of the errors of all places.
fn sum_of(decoded: &Decoded, weights: &[u8; 4], places: &[Option<[u8; 4]>]) -> u32
    requires sound { IsSound decoded.now }
    requires weights { All (λ weight. weight ≤ 15) weights.now }
    requires few { length places.now ≤ 144 }
    ensures sum { result ≡ sum_to (error_of_place decoded.now weights.now places.now)
        (length places.now) }
    ensures small { result ≤ most_block_error }
{
    let mut total = 0;
    for p in 0..places.len() {
        total += error_at(decoded, weights, places, p);
    }
    total
}

/// Returns the error of a legal block: the sum of the squared differences between its texels and
/// those of the source, over the places inside the image and the four channels, each times the
/// weight of the channel. The error is at most 561,816,000.
pub fn error_of<const W: usize, const H: usize>(
    block: &Block,
    flavour: Flavour,
    weights: ChannelWeights,
    source: &Source<W, H>,
) -> u32
    requires { Legal W H block.now }
    ensures exact { result ≡ error W H flavour weights block.now source.now }
    ensures small { result ≤ most_block_error }
{
    let places = source.places();
    let decoded = decode::<W, H>(block, flavour);
    sum_of(&decoded, &weights.of(), places)
}

// The error of a place; counts a step if the place is inside the image.
#[inline(always)]
fn counted_error<L>(
    decoded: &Decoded,
    weights: &[u8; 4],
    places: &[Option<[u8; 4]>],
    p: usize,
    steps: &mut Steps<L>,
) -> u32
    requires sound { IsSound decoded.now }
    requires weights { All (λ weight. weight ≤ 15) weights.now }
    requires few { length places.now ≤ 144 }
    requires place { p < length places.now }
    ensures exact { result ≡ error_of_place decoded.now weights.now places.now p }
    ensures small { result ≤ most_texel_error }
    ensures counted { TakesAtMost steps.old steps.new (if is_inside places.now p then 1 else 0) }
{
    if places[p].is_none() {
        return 0;
    }
    steps.tick();
    error_at(decoded, weights, places, p)
}

// The sum of the errors if it is under the limit. Each evaluated inside place counts as a step; no
// place is evaluated after the sum has reached the limit.
fn sum_under<L>(
    decoded: &Decoded,
    weights: &[u8; 4],
    places: &[Option<[u8; 4]>],
    limit: u32,
    steps: &mut Steps<L>,
) -> Option<u32>
    requires sound { IsSound decoded.now }
    requires weights { All (λ weight. weight ≤ 15) weights.now }
    requires few { length places.now ≤ 144 }
    ensures exact { result ≡ under limit (sum_to (error_of_place decoded.now weights.now places.now)
        (length places.now)) }
    ensures steps { TakesAtMost steps.old steps.new
        (count_under (error_of_place decoded.now weights.now places.now) places.now limit
        (length places.now)) }
{
    let mut total = 0;
    for p in 0..places.len() {
        if total >= limit {
            return None;
        }
        total += counted_error(decoded, weights, places, p, steps);
    }
    if total < limit { Some(total) } else { None }
}

/// Returns the error of a legal block, as [`error_of`] computes it, if it is under the limit, else
/// None. Places are evaluated in row order until the sum of their errors reaches the limit; each
/// inside place that is evaluated counts as one step.
pub fn error_under<const W: usize, const H: usize, L>(
    block: &Block,
    flavour: Flavour,
    weights: ChannelWeights,
    source: &Source<W, H>,
    limit: u32,
    steps: &mut Steps<L>,
) -> Option<u32>
    requires { Legal W H block.now }
    ensures exact { result ≡ under limit (error W H flavour weights block.now source.now) }
    ensures steps { TakesAtMost steps.old steps.new
        (steps_under W H flavour weights block.now source.now limit) }
{
    let places = source.places();
    let decoded = decode::<W, H>(block, flavour);
    sum_under(&decoded, &weights.of(), places, limit, steps)
}

/// Returns the error of a coded block if it is under the limit, else None; the same as
/// [`error_under`] for a goal.
pub fn coded_error_under<const W: usize, const H: usize, L>(
    coded: &Coded,
    goal: &Goal<W, H>,
    limit: u32,
    steps: &mut Steps<L>,
) -> Option<u32>
    requires { Legal W H (CodedBlock coded.now) }
    ensures exact { result ≡ under limit (error_to W H goal.now (CodedBlock coded.now)) }
    ensures steps { TakesAtMost steps.old steps.new
        (steps_under W H goal.now.flavour goal.now.weights
        (CodedBlock coded.now) goal.now.places limit) }
{
    let places = goal.source().places();
    let decoded = decode_legal::<W, H>(coded, goal.flavour());
    sum_under(&decoded, &goal.weights().of(), places, limit, steps)
}

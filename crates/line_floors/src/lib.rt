//! Lower bounds (floors) on the error of all blocks with the same two endpoints in each partition,
//! for any weights: a decoded texel lies on the line through the endpoints of its partition, so its
//! error is at least its squared distance from that line.
#![tactic(auto)]

ghost use Rattle.std.specs.Prelude.{◌≡◌, ℕ, ◌+◌, ◌*◌, ◌<◌, ◌≤◌, ◌==◌, if◌then◌else◌, List, length, slice_index};
ghost use Rattle.std.specs.List.{All};
ghost use Rattle.astc_model.specs.Sums.{sum_to};
ghost use Rattle.astc_model.specs.declared.block.Block.TheVariants.{Coded as CodedBlock};
ghost use Rattle.astc_model.specs.declared.block.Coded.{Coded as CodedFields};
ghost use Rattle.texel_error.specs.Goals.{error_to};
ghost use Rattle.line_floors.specs.Lines.{HasColours};
ghost use Rattle.line_floors.specs.Floors.{gains, part_distance, part_count, line_weight, IsUnder, AreDistances};
ghost use Rattle.line_floors.specs.Sums.{with_place, AreSumsWithin};
ghost use Rattle.line_floors.specs.Gathered.{ArePartSums, AreBlockSums};

mod block_sums;
mod cutoff;
mod line;
mod part_sums;

use crate::line::PartitionLine;
use crate::part_sums::targets_of;
use astc_model::{ChannelWeights, Flavour};
pub use block_sums::BlockSums;
pub use cutoff::Cutoff;
pub use part_sums::PartitionSums;
use texel_error::Goal;

// The weight of channel `number` (1 to 4); 0 if this is the component of the second plane.
#[inline(always)]
fn gain(weight: u8, component: u8, number: u8) -> u64
    ensures exact { result ≡ (if component == number then 0 else weight) }
    ensures small { result ≤ weight }
{
    if component == number {
        0
    } else {
        u64::from(weight)
    }
}

// A weight, or 0 if the channel is left out.
#[inline(always)]
fn unless(is_left_out: bool, gain: u64) -> u64
    ensures exact { result ≡ (if is_left_out then 0 else gain) }
    ensures small { result ≤ gain }
{
    if is_left_out { 0 } else { gain }
}

// The weight of each channel: 0 for the component of a second plane, which has other weights, and
// for alpha if all texels are opaque.
#[inline(always)]
fn gains_of(weights: ChannelWeights, component: u8, is_opaque: bool) -> [u64; 4]
    ensures exact { result ≡ gains weights component is_opaque }
    ensures small { All (λ gain. gain ≤ 15) result }
{
    let [red, green, blue, alpha] = weights.of();
    [
        gain(red, component, 1),
        gain(green, component, 2),
        gain(blue, component, 3),
        unless(is_opaque, gain(alpha, component, 4)),
    ]
}

// The sum of the weights of the channels.
#[tactic(auto, unfolding(astc_model::specs::Sums::sum_to))]
fn gain_sum(gains: &[u64; 4]) -> u64
    requires { All (λ gain. gain ≤ 15) gains.now }
    ensures exact { result ≡ sum_to (slice_index gains.now) 4 }
    ensures small { result ≤ 60 }
{
    gains[0] + gains[1] + gains[2] + gains[3]
}

// The number of texels in all partitions.
#[tactic(auto, unfolding(astc_model::specs::Sums::sum_to, crate::specs::Floors::part_count))]
fn texel_count(sums: &BlockSums) -> u64
    ensures exact { result ≡ sum_to (part_count sums.now) 4 }
    ensures small { result ≤ 576 }
{
    sums.parts[0].count + sums.parts[1].count + sums.parts[2].count + sums.parts[3].count
}

/// Returns the sum of the channel weights over all texels. `component` is the channel of the second
/// plane, 1 to 4, or 0 for one plane.
pub fn weight_of(weights: ChannelWeights, component: u8, sums: &BlockSums) -> u64
    ensures exact { result ≡ line_weight weights component sums.now }
    ensures small { result ≤ 34560 }
{
    gain_sum(&gains_of(weights, component, sums.is_opaque)) * texel_count(sums)
}

// Adds a place to the sums of its partition if it is inside the image.
#[inline(always)]
fn add_place(sums: &mut PartitionSums, flavour: Flavour, place: &Option<[u8; 4]>)
    requires room { AreSumsWithin 143 sums.old }
    ensures exact { sums.new ≡ with_place flavour sums.old place.now }
    ensures within { (n : ℕ) → AreSumsWithin n sums.old → AreSumsWithin (n + 1) sums.new }
{
    if let Some(wanted) = place {
        sums.add(&targets_of(flavour, wanted));
    }
}

// The sums over the texels of each partition; `parts` has the partition of each place.
fn part_sums_of<const W: usize, const H: usize>(
    goal: &Goal<W, H>,
    parts: &[u8],
) -> [PartitionSums; 4]
    requires map { length parts.now ≡ W * H }
    requires parts { (p : ℕ) → p < W * H → slice_index parts.now p < 4 }
    ensures are { ArePartSums (W * H) goal.now.flavour goal.now.places parts.now result }
    ensures small { All (AreSumsWithin 144) result }
{
    let flavour = goal.flavour();
    let places = goal.source().places();
    let mut sums = [PartitionSums::new(); 4];
    for p in 0..places.len() {
        add_place(&mut sums[usize::from(parts[p])], flavour, &places[p]);
    }
    sums
}

// Whether all inside texels are opaque.
fn is_opaque(places: &[Option<[u8; 4]>]) -> bool {
    places.iter().all(|place: &Option<[u8; 4]>| -> bool {
        match place {
            None => true,
            Some(wanted) => wanted[3] == 255,
        }
    })
}

/// Returns the sums over the texels of each partition; `parts` has the partition of each place.
pub fn sums_of<const W: usize, const H: usize>(goal: &Goal<W, H>, parts: &[u8]) -> BlockSums
    requires map { length parts.now ≡ W * H }
    requires parts { (p : ℕ) → p < W * H → slice_index parts.now p < 4 }
    ensures { AreBlockSums (W * H) goal.now.flavour goal.now.places parts.now result }
{
    BlockSums {
        parts: part_sums_of(goal, parts),
        is_opaque: is_opaque(goal.source().places()),
    }
}

// The squared distances of the texels from the lines of their partitions, added up by partition
// until they reach `enough`.
#[tactic(auto, using(crate::proofs::SumSteps::sum_none, crate::proofs::SumSteps::sum_more), unfolding(crate::specs::Floors::part_distance))]
fn distances_until(
    flavour: Flavour,
    gains: &[u64; 4],
    sums: &BlockSums,
    ends: &[([u8; 4], [u8; 4])],
    enough: u64,
) -> u64
    requires gains { All (λ gain. gain ≤ 15) gains.now }
    requires few { length ends.now ≤ 4 }
    ensures { AreDistances flavour gains.now sums.now ends.now enough result }
{
    let mut distances = 0;
    for part in 0..ends.len() {
        distances += PartitionLine::new(flavour, gains, &ends[part]).distance(&sums.parts[part]);
        if distances >= enough {
            return distances;
        }
    }
    distances
}

/// Returns the squared distances of the source's texels from the lines through the endpoints of
/// their partitions, in units of 1/64, rounded down. The function adds up partitions until the sum
/// reaches `enough`. Except for rounding, a decoded texel lies on the line of its partition for
/// every weight, so the error of every block with these endpoints is at least this distance. `ends`
/// has the endpoints of each partition, `component` the channel of the second plane, 1 to 4, or 0
/// for one plane.
#[inline(never)]
pub fn distances<const W: usize, const H: usize>(
    goal: &Goal<W, H>,
    component: u8,
    sums: &BlockSums,
    ends: &[([u8; 4], [u8; 4])],
    enough: u64,
) -> u64
    requires component { component ≤ 4 }
    requires few { length ends.now ≤ 4 }
    ensures floor { (parts : List ℕ) (coded : CodedFields)
        → AreBlockSums (W * H) goal.now.flavour goal.now.places parts sums.now
        → HasColours W H component parts ends.now coded
        → IsUnder result (line_weight goal.now.weights component sums.now)
        (error_to W H goal.now (CodedBlock coded)) }
    ensures exact { AreDistances goal.now.flavour
        (gains goal.now.weights component sums.now.is_opaque) sums.now ends.now enough result }
{
    let gains = gains_of(goal.weights(), component, sums.is_opaque);
    distances_until(goal.flavour(), &gains, sums, ends, enough)
}

// Decodes the colour integers and the weights.
ghost use Rattle.std.specs.Prelude.{◌≡◌, ◌+◌, ◌≤◌};
ghost use Rattle.astc_model.specs.Levels.{sequence_bits};
ghost use Rattle.astc_model.specs.Modes.{IsInModeRange};
ghost use Rattle.astc_model.specs.Shapes.{weight_count, weight_data_bits, colour_count, colour_start};
ghost use Rattle.astc_model.specs.Fields.{colours_at, weights_at};

use arrayvec::ArrayVec;
use astc_model::{Level, Mode};
use block_mode::{colour_count, colour_start, weight_count};
use ise_codec::{read_sequence, reversed};

// The colour integers of all partitions.
#[tactic(auto, unfolding(astc_model::specs::Fields::colours_at))]
pub(crate) fn colours_of(bits: u128, parts: u8, cems: &[u8; 4], level: Level) -> ArrayVec<u8, 18>
    requires parts { parts ≤ 4 }
    requires few { colour_count parts cems.now ≤ 18 }
    requires inside { colour_start parts + sequence_bits level (colour_count parts cems.now) ≤ 128 }
    ensures { result.items ≡ colours_at bits parts cems.now level }
{
    let integers = read_sequence(bits, colour_start(parts), level, colour_count(parts, cems));
    ArrayVec::try_from(integers.as_slice()).unwrap()
}

// The weights. The sequence of weights is stored in reverse bit order from the top of the block.
#[tactic(auto, unfolding(astc_model::specs::Fields::weights_at))]
pub(crate) fn weights_of(bits: u128, mode: &Mode) -> ArrayVec<u8, 64>
    requires mode { IsInModeRange mode.now }
    requires few { weight_count mode.now ≤ 64 }
    requires short { weight_data_bits mode.now ≤ 96 }
    ensures { result.items ≡ weights_at bits mode.now }
{
    read_sequence(reversed(bits), 0, mode.level, weight_count(mode))
}

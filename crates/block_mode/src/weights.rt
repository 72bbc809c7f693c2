// The number and the size of a block's weights, and their faults.
ghost use Rattle.std.specs.Prelude.{◌≡◌, ◌*◌, ◌<◌, ◌≤◌, IsNone};
ghost use Rattle.astc_model.specs.Modes.{IsInModeRange};
ghost use Rattle.astc_model.specs.Shapes.{weight_count, weight_data_bits, grid_fault};

use astc_model::{BlockFault, Mode};

/// Returns the number of weights of a block with this mode, over both planes: at most 288 for any
/// grid, at most 64 in a legal block.
pub fn weight_count(mode: &Mode) -> u32
    requires columns { mode.now.across ≤ 12 }
    requires rows { mode.now.down ≤ 12 }
    requires planes { mode.now.planes ≤ 2 }
    ensures count { result ≡ weight_count mode.now }
    ensures small { result ≤ 288 }
{
    u32::from(mode.across) * u32::from(mode.down) * u32::from(mode.planes)
}

/// Returns the length in bits of the sequence of weights of a block with this mode, which has at
/// most 64 weights.
#[tactic(auto, using(crate::proofs::SizeLemmas::sequence_bits_small))]
pub fn weight_bits(mode: &Mode) -> u32
    requires columns { mode.now.across ≤ 12 }
    requires rows { mode.now.down ≤ 12 }
    requires planes { mode.now.planes ≤ 2 }
    requires weights { weight_count mode.now ≤ 64 }
    ensures bits { result ≡ weight_data_bits mode.now }
    ensures small { result ≤ 704 }
{
    mode.level.bits(weight_count(mode))
}

/// Returns the first fault of the weight grid of a block of `W` by `H` texels with this mode: the
/// grid is larger than the block, has more than 64 weights, or takes fewer than 24 or more than 96
/// bits. None exactly if there is no fault (Khronos Data Format Specification, ASTC, "Illegal
/// Encodings").
#[tactic(auto, unfolding(astc_model::specs::Shapes::grid_fault))]
pub fn grid_fault<const W: usize, const H: usize>(mode: &Mode) -> Option<BlockFault>
    requires { IsInModeRange mode.now }
    ensures first { result ≡ grid_fault W H mode.now }
    ensures few { IsNone result → weight_count mode.now ≤ 64 }
    ensures short { IsNone result → weight_data_bits mode.now ≤ 96 }
{
    if usize::from(mode.across) > W || usize::from(mode.down) > H {
        return Some(BlockFault::GridTooLarge);
    }
    if weight_count(mode) > 64 {
        return Some(BlockFault::TooManyWeights);
    }
    let bits = weight_bits(mode);
    if bits < 24 || bits > 96 {
        return Some(BlockFault::WeightBits);
    }
    None
}

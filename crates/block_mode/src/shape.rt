// The first fault of a coded block's shape, that is, of all fields but its integers.
ghost use Rattle.std.specs.Prelude.{◌≡◌, ◌≤◌};
ghost use Rattle.std.specs.Option.{option_or};
ghost use Rattle.std.specs.Result.{result_err};
ghost use Rattle.astc_model.specs.Modes.{IsInModeRange};
ghost use Rattle.astc_model.specs.Shapes.{grid_fault, colour_shape, fault_of_shape};

use crate::colours::colour_shape;
use crate::modes::mode_of;
use crate::weights::grid_fault;
use astc_model::{BlockFault, Coded, Mode};

// The first fault of the grid or the colours of a coded block with this mode.
fn fault_under<const W: usize, const H: usize>(mode: &Mode, block: &Coded) -> Option<BlockFault>
    requires mode { IsInModeRange mode.now }
    requires parts { block.now.parts ≤ 4 }
    ensures { result ≡ option_or (grid_fault W H mode.now)
        (result_err (colour_shape mode.now block.now.parts block.now.selector block.now.cems)) }
{
    match grid_fault::<W, H>(mode) {
        Some(fault) => Some(fault),
        None => colour_shape(mode, block.parts, block.selector, &block.cems).err(),
    }
}

/// Returns the first fault of the fields of a coded block of `W` by `H` texels other than its
/// colour integers and weights; None exactly if there is no fault (Khronos Data Format
/// Specification, ASTC, "Illegal Encodings"). The mode of a void extent counts as reserved here,
/// since a coded block is not a void extent.
#[tactic(auto, unfolding(astc_model::specs::Shapes::fault_of_shape))]
pub fn shape_fault<const W: usize, const H: usize>(block: &Coded) -> Option<BlockFault>
    requires { block.now.parts ≤ 4 }
    ensures { result ≡ fault_of_shape W H block.now }
{
    match mode_of(block.mode) {
        Some(mode) => fault_under::<W, H>(&mode, block),
        None => Some(BlockFault::ReservedMode),
    }
}

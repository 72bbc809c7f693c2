// The block mode and the level of colour integers of a legal block.
ghost use Rattle.std.specs.Prelude.{IsTrue};
ghost use Rattle.astc_model.specs.Footprints.{is_footprint};
ghost use Rattle.astc_model.specs.Blocks.{Legal};
ghost use Rattle.astc_model.specs.declared.block.Block.TheVariants.{Coded as CodedBlock};
ghost use Rattle.texel_error.specs.Shaped.{IsShaped};

use astc_model::{Coded, Level, Mode};
use block_mode::{colour_shape, mode_of};

/// Returns the decoded block mode of a legal block of `W` by `H` texels, and the level of its
/// colour integers.
pub fn shape_of<const W: usize, const H: usize>(coded: &Coded) -> (Mode, Level)
    requires footprint { IsTrue (is_footprint W H) }
    requires legal { Legal W H (CodedBlock coded.now) }
    ensures { IsShaped W H coded.now result.0 result.1 }
{
    let mode = mode_of(coded.mode).unwrap();
    let level = colour_shape(&mode, coded.parts, coded.selector, &coded.cems).unwrap();
    (mode, level)
}

// Decodes blocks with partitions, colour integers and weights.
ghost use Rattle.std.specs.Prelude.{◌≡◌, ◌+◌, ◌≤◌};
ghost use Rattle.astc_model.specs.Levels.{sequence_bits};
ghost use Rattle.astc_model.specs.Modes.{IsInModeRange};
ghost use Rattle.astc_model.specs.Shapes.{weight_count, weight_data_bits, colour_count, colour_start, grid_fault, colour_shape};
ghost use Rattle.astc_model.specs.Fields.{parts_at, selector_at, cems_at, coded_at};
ghost use Rattle.astc_model.specs.Reading.{read_values, read_colours, read_coded};

use crate::partitions::{cems_of, parts_of, plane_of, seed_of, selector_of};
use crate::sequences::{colours_of, weights_of};
use astc_model::{Block, BlockFault, Coded, Level, Mode};
use block_mode::{colour_shape, grid_fault, mode_of};
use ise_codec::field;

// Decodes the fields of a block whose mode, endpoint modes and level of colour integers are known.
#[tactic(auto, unfolding(astc_model::specs::Fields::coded_at))]
fn coded_of(bits: u128, mode: &Mode, cems: [u8; 4], level: Level) -> Coded
    requires mode { IsInModeRange mode.now }
    requires weights { weight_count mode.now ≤ 64 }
    requires short { weight_data_bits mode.now ≤ 96 }
    requires cems { cems ≡ cems_at bits mode.now }
    requires few { colour_count (parts_at bits) cems ≤ 18 }
    requires inside { colour_start (parts_at bits) + sequence_bits level
        (colour_count (parts_at bits) cems) ≤ 128 }
    ensures { result ≡ coded_at bits mode.now level }
{
    let parts = parts_of(bits);
    let selector = selector_of(bits, parts);
    Coded {
        mode: field(bits, 0, 11) as u16,
        parts,
        seed: seed_of(bits, parts),
        selector,
        cems,
        colours: colours_of(bits, parts, &cems, level),
        weights: weights_of(bits, mode),
        plane: plane_of(bits, mode, parts, selector),
    }
}

// Decodes a block whose mode is known and whose grid has no fault, or returns the first fault of
// its colours.
fn block_on_grid(bits: u128, mode: &Mode) -> Result<Block, BlockFault>
    requires mode { IsInModeRange mode.now }
    requires weights { weight_count mode.now ≤ 64 }
    requires short { weight_data_bits mode.now ≤ 96 }
    ensures { result ≡ read_values bits mode.now
        (colour_shape mode.now (parts_at bits) (selector_at bits) (cems_at bits mode.now)) }
{
    let parts = parts_of(bits);
    let selector = selector_of(bits, parts);
    let cems = cems_of(bits, mode, parts, selector);
    match colour_shape(mode, parts, selector, &cems) {
        Ok(level) => Ok(Block::Coded(coded_of(bits, mode, cems, level))),
        Err(fault) => Err(fault),
    }
}

// Decodes a block of `W` by `H` texels whose mode is known, or returns its first fault.
fn block_of_mode<const W: usize, const H: usize>(
    bits: u128,
    mode: &Mode,
) -> Result<Block, BlockFault>
    requires { IsInModeRange mode.now }
    ensures { result ≡ read_colours bits mode.now (grid_fault W H mode.now) }
{
    match grid_fault::<W, H>(mode) {
        Some(fault) => Err(fault),
        None => block_on_grid(bits, mode),
    }
}

// Decodes a block of `W` by `H` texels that is not a void extent, or returns its first fault.
#[tactic(auto, unfolding(astc_model::specs::Reading::read_coded))]
pub(crate) fn coded_block<const W: usize, const H: usize>(bits: u128) -> Result<Block, BlockFault>
    ensures { result ≡ read_coded W H bits }
{
    match mode_of(field(bits, 0, 11) as u16) {
        Some(mode) => block_of_mode::<W, H>(bits, &mode),
        None => Err(BlockFault::ReservedMode),
    }
}

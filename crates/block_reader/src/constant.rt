// Decodes void-extent blocks.
ghost use Rattle.std.specs.Prelude.{◌≡◌};
ghost use Rattle.astc_model.specs.Reading.{extent_at, values_at, read_constant};

use astc_model::{Block, BlockFault, Constant};
use block_mode::is_extent_ordered;
use ise_codec::field;

// The coordinates of the extent: least s, greatest s, least t, greatest t.
fn extent_of(bits: u128) -> [u16; 4]
    ensures { result ≡ extent_at bits }
{
    [
        field(bits, 12, 13) as u16,
        field(bits, 25, 13) as u16,
        field(bits, 38, 13) as u16,
        field(bits, 51, 13) as u16,
    ]
}

// The 16-bit values of red, green, blue and alpha.
fn values_of(bits: u128) -> [u16; 4]
    ensures { result ≡ values_at bits }
{
    [
        field(bits, 64, 16) as u16,
        field(bits, 80, 16) as u16,
        field(bits, 96, 16) as u16,
        field(bits, 112, 16) as u16,
    ]
}

// Decodes a void-extent block, or returns its first fault.
pub(crate) fn constant_block(bits: u128) -> Result<Block, BlockFault>
    ensures { result ≡ read_constant bits }
{
    if field(bits, 9, 1) == 1 {
        return Err(BlockFault::HdrConstant);
    }
    if field(bits, 10, 2) != 3 {
        return Err(BlockFault::ExtentReserved);
    }
    let extent = extent_of(bits);
    if !is_extent_ordered(&extent) {
        return Err(BlockFault::ExtentOrder);
    }
    Ok(Block::Constant(Constant {
        rgba: values_of(bits),
        extent,
    }))
}

// Decodes the 16 bytes of a block into its fields.
ghost use Rattle.std.specs.Prelude.{◌≡◌, IfOk};
ghost use Rattle.astc_model.specs.Blocks.{Legal};
ghost use Rattle.astc_model.specs.Reading.{read, read_bits};

use crate::coded::coded_block;
use crate::constant::constant_block;
use astc_model::{Block, BlockFault};
use ise_codec::{bits_of_bytes, field};

// Decodes the 128 bits of a block of `W` by `H` texels. Bits 0 to 8 say whether it is a void
// extent.
fn block_of_bits<const W: usize, const H: usize>(bits: u128) -> Result<Block, BlockFault>
    ensures { result ≡ read_bits W H bits }
{
    if field(bits, 0, 9) == 0x1FC {
        constant_block(bits)
    } else {
        coded_block::<W, H>(bits)
    }
}

/// Decodes the 16 bytes of a block of `W` by `H` texels into its fields and integers (Khronos Data
/// Format Specification, ASTC, "Block Layout", "Void-Extent Blocks" and "Illegal Encodings").
///
/// # Errors
///
/// If the bytes are an illegal encoding in the LDR profile, the first fault in the order of
/// [`BlockFault`].
#[tactic(auto, unfolding(astc_model::specs::Reading::read))]
pub fn read_block<const W: usize, const H: usize>(bytes: &[u8; 16]) -> Result<Block, BlockFault>
    ensures block { result ≡ read W H bytes.now }
    ensures legal { IfOk result (λ block. Legal W H block) }
{
    block_of_bits::<W, H>(bits_of_bytes(bytes))
}

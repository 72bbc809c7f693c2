// Encodes a block as 16 bytes.
ghost use Rattle.std.specs.Prelude.{◌≡◌};
ghost use Rattle.astc_model.specs.Bits.{number_of};
ghost use Rattle.astc_model.specs.Blocks.{Legal};
ghost use Rattle.astc_model.specs.Reading.{read_bits, read};
ghost use Rattle.block_writer.specs.Written.{AreUnusedZero, AreSequencesLeast};

use crate::coded::coded_bits;
use crate::constant::constant_bits;
use astc_model::Block;
use ise_codec::bytes_of_bits;

// Encodes a legal block of `W` by `H` texels as a number of 128 bits.
fn bits_of_block<const W: usize, const H: usize>(block: &Block) -> u128
    requires { Legal W H block.now }
    ensures reads_back { read_bits W H result ≡ Ok block.now }
    ensures unused { AreUnusedZero block.now result }
    ensures least { AreSequencesLeast block.now result }
{
    match block {
        Block::Constant(constant) => constant_bits(constant),
        Block::Coded(coded) => coded_bits::<W, H>(coded),
    }
}

/// Encodes a legal block of `W` by `H` texels as 16 bytes, from which the reader decodes an equal
/// block. Bits that do not belong to a field are 0, and of several encodings of the digits of a
/// sequence the one with the least value is written (Khronos Data Format Specification, ASTC,
/// "Block Layout" and "Void-Extent Blocks").
#[tactic(auto, unfolding(astc_model::specs::Reading::read))]
pub fn write_block<const W: usize, const H: usize>(block: &Block) -> [u8; 16]
    requires { Legal W H block.now }
    ensures reads_back { read W H result ≡ Ok block.now }
    ensures unused { AreUnusedZero block.now (number_of result) }
    ensures least { AreSequencesLeast block.now (number_of result) }
{
    bytes_of_bits(bits_of_block::<W, H>(block))
}

// Encodes blocks with partitions, colour integers and weights. A block is written as nine fields
// that fill its 128 bits.
ghost use Rattle.std.specs.Prelude.{◌≡◌};
ghost use Rattle.astc_model.specs.Blocks.{Legal, IsLegalCoded};
ghost use Rattle.astc_model.specs.Reading.{read_bits};
ghost use Rattle.astc_model.specs.declared.level.Level.{Level};
ghost use Rattle.block_writer.specs.Sizes.{AreModeSizes, IsWritable};
ghost use Rattle.block_writer.specs.Written.{AreUnusedZero, AreSequencesLeast};
ghost use Rattle.block_writer.specs.Layout.{ArePartitionFields, layout_widths, layout_values, AreTurnedWeights, AreFieldsOf};

use crate::packing::packed;
use crate::partitions::{PartitionFields, partition_fields};
use crate::weights::from_top;
use astc_model::{Block, Coded, Level, Mode};
use block_mode::{colour_shape, mode_of, plane_bits, weight_bits};
use ise_codec::write_sequence;

// The widths in bits of the nine fields, the lowest first, 128 in total. The sixth field has the
// unused bits between the colours and the fields above them.
fn widths_of(coded: &Coded, mode: &Mode, level: Level, fields: &PartitionFields) -> [u32; 9]
    requires sizes { AreModeSizes mode.now }
    requires writable { IsWritable coded.now mode.now level }
    requires fields { ArePartitionFields coded.now fields.now }
    ensures { result ≡ layout_widths coded.now mode.now level fields.now }
{
    let colour_bits = level.bits(coded.colours.len() as u32);
    let component_bits = plane_bits(mode);
    let weight_bits = weight_bits(mode);
    let below = 13 + fields.low_bits + fields.middle_bits + colour_bits;
    let above = component_bits + fields.high_bits + weight_bits;
    [
        11,
        2,
        fields.low_bits,
        fields.middle_bits,
        colour_bits,
        128 - above - below,
        component_bits,
        fields.high_bits,
        weight_bits,
    ]
}

// The values of the nine fields. `weights` has the bits of the weights in reverse order, as they
// are stored.
fn values_of(
    coded: &Coded,
    mode: &Mode,
    level: Level,
    fields: &PartitionFields,
    weights: u128,
) -> [u128; 9]
    requires { IsWritable coded.now mode.now level }
    ensures { result ≡ layout_values coded.now level fields.now weights }
{
    [
        coded.mode as u128,
        (coded.parts - 1) as u128,
        fields.low,
        fields.middle,
        write_sequence(level, coded.colours.as_slice()),
        0,
        coded.plane.saturating_sub(1) as u128,
        fields.high,
        weights,
    ]
}

// The sequence of the weights in reverse bit order, as it is stored at the top of the block.
fn weights_of(coded: &Coded, mode: &Mode, level: Level) -> u128
    requires sizes { AreModeSizes mode.now }
    requires writable { IsWritable coded.now mode.now level }
    ensures { AreTurnedWeights coded.now mode.now result }
{
    from_top(
        write_sequence(mode.level, coded.weights.as_slice()),
        weight_bits(mode),
    )
}

// Encodes a block with this mode and this level of colour integers.
fn bits_under(coded: &Coded, mode: &Mode, level: Level) -> u128
    requires sizes { AreModeSizes mode.now }
    requires writable { IsWritable coded.now mode.now level }
    ensures { AreFieldsOf result coded.now mode.now level }
{
    let fields = partition_fields(coded);
    let weights = weights_of(coded, mode, level);
    let widths = widths_of(coded, mode, level, &fields);
    let values = values_of(coded, mode, level, &fields, weights);
    packed(&widths, &values)
}

// Encodes a legal block with this mode.
fn bits_of_mode<const W: usize, const H: usize>(coded: &Coded, mode: &Mode) -> u128
    requires sizes { AreModeSizes mode.now }
    requires legal { (level : Level) × IsLegalCoded W H coded.now mode.now level }
    ensures reads_back { read_bits W H result ≡ Ok (Block.Coded coded.now) }
    ensures unused { AreUnusedZero (Block.Coded coded.now) result }
    ensures least { AreSequencesLeast (Block.Coded coded.now) result }
{
    let level = colour_shape(mode, coded.parts, coded.selector, &coded.cems).unwrap();
    bits_under(coded, mode, level)
}

// Encodes a legal block that is not a void extent.
pub(crate) fn coded_bits<const W: usize, const H: usize>(coded: &Coded) -> u128
    requires { Legal W H (Block.Coded coded.now) }
    ensures reads_back { read_bits W H result ≡ Ok (Block.Coded coded.now) }
    ensures unused { AreUnusedZero (Block.Coded coded.now) result }
    ensures least { AreSequencesLeast (Block.Coded coded.now) result }
{
    bits_of_mode::<W, H>(coded, &mode_of(coded.mode).unwrap())
}

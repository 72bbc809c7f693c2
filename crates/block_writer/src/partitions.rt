// Encodes the partition index and the endpoint modes. The endpoint mode bits of several partitions,
// with the selector in the low two bits, are called the code here; its low six bits are stored from
// bit 23, the rest directly below the weights.
ghost use Rattle.std.specs.Prelude.{◌≡◌, ◌≤◌, ◌<◌};
ghost use Rattle.astc_model.specs.Blocks.{AreFieldsInRange, AreSparesFixed};
ghost use Rattle.astc_model.specs.Fields.{if_part};
ghost use Rattle.block_writer.specs.Layout.{class_bit_of, code_widths, code_values, IsCodeOf, ArePartitionFields};

use crate::packing::packed;
use astc_model::Coded;
use block_mode::high_mode_bits;
use ise_codec::field;

// The fields for partitions and endpoint modes, with their widths in bits. The low field begins at
// bit 13 and has the partition index, or the endpoint mode of a single partition; the middle field
// has the low six bits of the code, and the high field, below the weights, the rest of the code. A
// field that the block does not store has width 0.
#[derive(Clone, Copy)]
pub(crate) struct PartitionFields {
    pub low_bits: u32,
    pub low: u128,
    pub middle_bits: u32,
    pub middle: u128,
    pub high_bits: u32,
    pub high: u128,
}

// `number` for a partition that the block has, else 0.
fn if_part(parts: u8, part: u8, number: u32) -> u32
    ensures { result ≡ if_part parts part number }
{
    if part < parts { number } else { 0 }
}

// The class bit of a partition in the code: the class of its mode (a quarter of its number) minus
// the least class that the selector allows. 0 for a partition that the block does not have.
fn class_bit(coded: &Coded, part: u8) -> u32
    requires part { part < 4 }
    requires fields { AreFieldsInRange coded.now }
    requires spares { AreSparesFixed coded.now }
    ensures { result ≡ class_bit_of coded.now part }
{
    if part < coded.parts {
        u32::from(coded.cems[usize::from(part)] / 4 + 1 - coded.selector)
    } else {
        0
    }
}

// The widths of the nine fields of the code if the selector is not 0: the selector, four class
// bits, and four times two mode bits.
fn widths_of_code(parts: u8) -> [u32; 9]
    ensures { result ≡ code_widths parts }
{
    [
        2,
        if_part(parts, 0, 1),
        if_part(parts, 1, 1),
        if_part(parts, 2, 1),
        if_part(parts, 3, 1),
        if_part(parts, 0, 2),
        if_part(parts, 1, 2),
        if_part(parts, 2, 2),
        if_part(parts, 3, 2),
    ]
}

// The values of the nine fields of the code.
fn values_of_code(coded: &Coded) -> [u128; 9]
    requires fields { AreFieldsInRange coded.now }
    requires spares { AreSparesFixed coded.now }
    ensures { result ≡ code_values coded.now }
{
    [
        coded.selector as u128,
        class_bit(coded, 0) as u128,
        class_bit(coded, 1) as u128,
        class_bit(coded, 2) as u128,
        class_bit(coded, 3) as u128,
        (coded.cems[0] % 4) as u128,
        (coded.cems[1] % 4) as u128,
        (coded.cems[2] % 4) as u128,
        (coded.cems[3] % 4) as u128,
    ]
}

// The code of a block with several partitions.
fn code_of(coded: &Coded) -> u128
    requires fields { AreFieldsInRange coded.now }
    requires spares { AreSparesFixed coded.now }
    requires several { 2 ≤ coded.now.parts }
    ensures { IsCodeOf coded.now result }
{
    if coded.selector == 0 {
        4 * u128::from(coded.cems[0])
    } else {
        packed(&widths_of_code(coded.parts), &values_of_code(coded))
    }
}

// The fields of a block with one partition.
fn fields_of_one(coded: &Coded) -> PartitionFields
    requires fields { AreFieldsInRange coded.now }
    requires spares { AreSparesFixed coded.now }
    requires one { coded.now.parts ≡ 1 }
    ensures { ArePartitionFields coded.now result }
{
    PartitionFields {
        low_bits: 4,
        low: u128::from(coded.cems[0]),
        middle_bits: 0,
        middle: 0,
        high_bits: 0,
        high: 0,
    }
}

// The fields of a block with several partitions.
fn fields_of_several(coded: &Coded) -> PartitionFields
    requires fields { AreFieldsInRange coded.now }
    requires spares { AreSparesFixed coded.now }
    requires several { 2 ≤ coded.now.parts }
    ensures { ArePartitionFields coded.now result }
{
    let code = code_of(coded);
    let high_bits = high_mode_bits(coded.parts, coded.selector);
    PartitionFields {
        low_bits: 10,
        low: u128::from(coded.seed),
        middle_bits: 6,
        middle: field(code, 0, 6),
        high_bits,
        high: field(code, 6, high_bits),
    }
}

// The fields of a block for its partitions and endpoint modes.
pub(crate) fn partition_fields(coded: &Coded) -> PartitionFields
    requires fields { AreFieldsInRange coded.now }
    requires spares { AreSparesFixed coded.now }
    ensures { ArePartitionFields coded.now result }
{
    if coded.parts == 1 {
        fields_of_one(coded)
    } else {
        fields_of_several(coded)
    }
}

// Decodes an integer sequence from the bits of a block.
ghost use Rattle.std.specs.Prelude.{◌≡◌, ◌+◌, ◌*◌, ◌/◌, ◌%◌, ◌^◌, ◌<◌, ◌≤◌, ◌++◌, length};
ghost use Rattle.std.specs.List.{All};
ghost use Rattle.arrayvec.specs.ArrayVec.{array_vec_len};
ghost use Rattle.astc_model.specs.declared.level.Digit.TheVariants.{Bits, Trit, Quint};
ghost use Rattle.astc_model.specs.Bits.{field_of};
ghost use Rattle.astc_model.specs.Levels.{count_of, sequence_bits};
ghost use Rattle.astc_model.specs.Sequences.{trits, quints, trit_bits, quint_bits, trit_group, quint_group, values_in, sequence};

use crate::fields::field;
use crate::tables::{quints_row, trits_row};
use arrayvec::ArrayVec;
use astc_model::{Digit, Level};

/// Returns the `count` integers, at most 64, of the sequence of this level that begins at bit `at`
/// of the block (Khronos Data Format Specification, ASTC, "Integer Sequence Encoding").
pub fn read_sequence(block: u128, at: u32, level: Level, count: u32) -> ArrayVec<u8, 64>
    requires count { count ≤ 64 }
    requires inside { at + sequence_bits level count ≤ 128 }
    ensures values { result.items ≡ sequence (block / 2 ^ at) level count }
    ensures len { length result.items ≡ count }
    ensures under { All (λ v. v < count_of level) result.items }
{
    let bits = field(block, at, level.bits(count));
    match level.digit() {
        Digit::Bits => read_bits(bits, level.low_bits(), count),
        Digit::Trit => read_trits(bits, level.low_bits(), count),
        Digit::Quint => read_quints(bits, level.low_bits(), count),
    }
}

// Decodes integers without digits, each of `low` bits.
fn read_bits(bits: u128, low: u32, count: u32) -> ArrayVec<u8, 64>
    requires low { low ≤ 8 }
    requires count { count ≤ 64 }
    ensures { result.items ≡ values_in Bits low count bits }
{
    let mut values = ArrayVec::new();
    let mut rest = bits;
    for _i in 0..count {
        values.push(small_field(low_half(rest), 0, low) as u8);
        rest >>= low;
    }
    values
}

// Decodes integers with trits: five of them share the eight bits T of their trits.
fn read_trits(bits: u128, low: u32, count: u32) -> ArrayVec<u8, 64>
    requires low { low ≤ 6 }
    requires count { count ≤ 64 }
    ensures { result.items ≡ values_in Trit low count bits }
{
    let mut values = ArrayVec::new();
    let mut rest = bits;
    let mut left = count;
    while left > 5 {
        append(&mut values, &five_values(low_half(rest), low));
        rest >>= 5 * low + 8;
        left -= 5;
    }
    append(
        &mut values,
        &five_values(low_half(rest), low)[..left as usize],
    );
    values
}

// Decodes integers with quints: three of them share the seven bits Q of their quints.
fn read_quints(bits: u128, low: u32, count: u32) -> ArrayVec<u8, 64>
    requires low { low ≤ 5 }
    requires count { count ≤ 64 }
    ensures { result.items ≡ values_in Quint low count bits }
{
    let mut values = ArrayVec::new();
    let mut rest = bits;
    let mut left = count;
    while left > 3 {
        append(&mut values, &three_values(low_half(rest), low));
        rest >>= 3 * low + 7;
        left -= 3;
    }
    append(
        &mut values,
        &three_values(low_half(rest), low)[..left as usize],
    );
    values
}

// The five integers of a group with trits.
fn five_values(group: u64, low: u32) -> [u8; 5]
    requires { low ≤ 6 }
    ensures { result ≡ trit_group low group }
{
    let digits = trits_of(group, low);
    [
        joined(digits[0], low, small_field(group, 0, low)),
        joined(digits[1], low, small_field(group, low + 2, low)),
        joined(digits[2], low, small_field(group, 2 * low + 4, low)),
        joined(digits[3], low, small_field(group, 3 * low + 5, low)),
        joined(digits[4], low, small_field(group, 4 * low + 7, low)),
    ]
}

// The five trits of a group: collects the bits T, which lie between the low bits, and decodes them.
fn trits_of(group: u64, low: u32) -> [u8; 5]
    requires { low ≤ 6 }
    ensures { result ≡ trits (trit_bits low group) }
{
    let t = small_field(group, low, 2)
        + 4 * small_field(group, 2 * low + 2, 2)
        + 16 * small_field(group, 3 * low + 4, 1)
        + 32 * small_field(group, 4 * low + 5, 2)
        + 128 * small_field(group, 5 * low + 7, 1);
    trits_row(t)
}

// The three integers of a group with quints.
fn three_values(group: u64, low: u32) -> [u8; 3]
    requires { low ≤ 5 }
    ensures { result ≡ quint_group low group }
{
    let digits = quints_of(group, low);
    [
        joined(digits[0], low, small_field(group, 0, low)),
        joined(digits[1], low, small_field(group, low + 3, low)),
        joined(digits[2], low, small_field(group, 2 * low + 5, low)),
    ]
}

// The three quints of a group: collects the bits Q, which lie between the low bits, and decodes
// them.
fn quints_of(group: u64, low: u32) -> [u8; 3]
    requires { low ≤ 5 }
    ensures { result ≡ quints (quint_bits low group) }
{
    let q = small_field(group, low, 3)
        + 8 * small_field(group, 2 * low + 3, 2)
        + 32 * small_field(group, 3 * low + 5, 2);
    quints_row(q)
}

// An integer with this digit above its `low` low bits.
fn joined(digit: u8, low: u32, bits: u64) -> u8
    requires width { low ≤ 6 }
    requires fits { digit * 2 ^ low + bits < 256 }
    ensures { result ≡ digit * 2 ^ low + bits }
{
    ((u64::from(digit) << low) + bits) as u8
}

// The field of `n` bits from bit `at` of a group.
fn small_field(group: u64, at: u32, n: u32) -> u64
    requires at { at < 64 }
    requires n { n ≤ 8 }
    ensures field { result ≡ field_of group at n }
    ensures small { result < 2 ^ n }
    ensures byte { result < 256 }
{
    (group >> at) & ((1 << n) - 1)
}

// The low 64 bits, which hold a whole group: five integers of six low bits and T take 38 bits.
fn low_half(bits: u128) -> u64
    ensures { result ≡ bits % 2 ^ 64 }
{
    (bits & 0xFFFF_FFFF_FFFF_FFFF) as u64
}

// Appends the integers of a group.
fn append(values: &mut ArrayVec<u8, 64>, group: &[u8])
    requires { array_vec_len values.old + length group.now ≤ 64 }
    ensures { values.new.items ≡ values.old.items ++ group.now }
{
    for value in group {
        values.push(*value);
    }
}

// Encodes an integer sequence. Several values of T or Q can decode to the same digits; the least
// one is written.
ghost use Rattle.std.specs.Prelude.{◌≡◌, ◌+◌, ◌*◌, ◌/◌, ◌%◌, ◌^◌, ◌<◌, ◌≤◌, length, slice_index};
ghost use Rattle.std.specs.List.{All};
ghost use Rattle.astc_model.specs.declared.level.Digit.TheVariants.{Bits, Trit, Quint};
ghost use Rattle.astc_model.specs.Levels.{count_of, digit_bits, sequence_bits};
ghost use Rattle.astc_model.specs.Sequences.{group_written, values_written, sequence, written_sequence};

use crate::tables::{quint_code, trit_code};
use astc_model::{Digit, Level};

/// Returns the bits of the sequence of these integers (at most 64), bit 0 first, with the least T
/// or Q in each group. In an incomplete last group the missing integers count as 0 and take no bits
/// (Khronos Data Format Specification, ASTC, "Integer Sequence Encoding").
pub fn write_sequence(level: Level, values: &[u8]) -> u128
    requires count { length values.now ≤ 64 }
    requires under { All (λ v. v < count_of level) values.now }
    requires inside { sequence_bits level (length values.now) ≤ 128 }
    ensures least { result ≡ written_sequence level values.now }
    ensures reads_back { sequence result level (length values.now) ≡ values.now }
    ensures no_more_bits { result < 2 ^ sequence_bits level (length values.now) }
{
    match level.digit() {
        Digit::Bits => write_bits(level.low_bits(), values),
        Digit::Trit => write_trits(level.low_bits(), values),
        Digit::Quint => write_quints(level.low_bits(), values),
    }
}

// Encodes integers without digits, each of `low` bits.
fn write_bits(low: u32, values: &[u8]) -> u128
    requires low { low ≤ 8 }
    requires under { All (λ v. v < 1 * 2 ^ low) values.now }
    requires inside { length values.now * low + digit_bits Bits (length values.now) ≤ 128 }
    ensures { result ≡ values_written Bits low values.now }
{
    let mut written = 0u128;
    let mut first = values.len();
    while first > 0 {
        first -= 1;
        written = (written << low) + u128::from(values[first]);
    }
    written
}

// Encodes integers with trits, five to a group.
fn write_trits(low: u32, values: &[u8]) -> u128
    requires low { low ≤ 6 }
    requires under { All (λ v. v < 3 * 2 ^ low) values.now }
    requires inside { length values.now * low + digit_bits Trit (length values.now) ≤ 128 }
    ensures { result ≡ values_written Trit low values.now }
{
    let group = u128::from(five_written(low, values));
    if values.len() <= 5 {
        return group;
    }
    (write_trits(low, &values[5..]) << (5 * low + 8)) + group
}

// Encodes integers with quints, three to a group.
fn write_quints(low: u32, values: &[u8]) -> u128
    requires low { low ≤ 5 }
    requires under { All (λ v. v < 5 * 2 ^ low) values.now }
    requires inside { length values.now * low + digit_bits Quint (length values.now) ≤ 128 }
    ensures { result ≡ values_written Quint low values.now }
{
    let group = u128::from(three_written(low, values));
    if values.len() <= 3 {
        return group;
    }
    (write_quints(low, &values[3..]) << (3 * low + 7)) + group
}

// The first five integers as a group with trits. From bit 0 on, the bits are m0 T0 T1 m1 T2 T3 m2
// T4 m3 T5 T6 m4 T7, where m0 to m4 are the low bits of the integers.
fn five_written(low: u32, values: &[u8]) -> u64
    requires low { low ≤ 6 }
    requires under { All (λ v. v < 3 * 2 ^ low) values.now }
    ensures { result ≡ group_written Trit low values.now }
{
    let a = value_at(values, 0);
    let b = value_at(values, 1);
    let c = value_at(values, 2);
    let d = value_at(values, 3);
    let e = value_at(values, 4);
    let t = trit_code(a >> low, b >> low, c >> low, d >> low, e >> low);
    let group = stacked(bits_of(t, 7, 1), low, low_bits(e, low));
    let group = stacked(group, 2, bits_of(t, 5, 2));
    let group = stacked(group, low, low_bits(d, low));
    let group = stacked(group, 1, bits_of(t, 4, 1));
    let group = stacked(group, low, low_bits(c, low));
    let group = stacked(group, 2, bits_of(t, 2, 2));
    let group = stacked(group, low, low_bits(b, low));
    let group = stacked(group, 2, bits_of(t, 0, 2));
    stacked(group, low, low_bits(a, low))
}

// The first three integers as a group with quints. From bit 0 on, the bits are m0 Q0 Q1 Q2 m1 Q3 Q4
// m2 Q5 Q6, where m0 to m2 are the low bits of the integers.
fn three_written(low: u32, values: &[u8]) -> u64
    requires low { low ≤ 5 }
    requires under { All (λ v. v < 5 * 2 ^ low) values.now }
    ensures { result ≡ group_written Quint low values.now }
{
    let a = value_at(values, 0);
    let b = value_at(values, 1);
    let c = value_at(values, 2);
    let q = quint_code(a >> low, b >> low, c >> low);
    let group = stacked(bits_of(q, 5, 2), low, low_bits(c, low));
    let group = stacked(group, 2, bits_of(q, 3, 2));
    let group = stacked(group, low, low_bits(b, low));
    let group = stacked(group, 3, bits_of(q, 0, 3));
    stacked(group, low, low_bits(a, low))
}

// Integer `i`, or 0 past the end.
fn value_at(values: &[u8], i: usize) -> u8
    ensures { result ≡ slice_index values.now i }
{
    if i < values.len() { values[i] } else { 0 }
}

// Appends a field of `width` bits at the low end of `high`.
fn stacked(high: u64, width: u32, field: u64) -> u64
    requires room { high < 2 ^ 57 }
    requires width { width ≤ 6 }
    requires field { field < 2 ^ width }
    ensures value { result ≡ high * 2 ^ width + field }
    ensures size { result ≤ 64 * high + 63 }
{
    (high << width) + field
}

// The `n` bits from bit `at` of T or Q.
fn bits_of(digits: u8, at: u32, n: u32) -> u64
    requires at { at < 8 }
    requires n { n ≤ 8 }
    ensures value { result ≡ digits / 2 ^ at % 2 ^ n }
    ensures small { result < 2 ^ n }
{
    (u64::from(digits) >> at) & ((1 << n) - 1)
}

// The `low` low bits of an integer, which lie below its digit.
fn low_bits(value: u8, low: u32) -> u64
    requires { low ≤ 8 }
    ensures value { result ≡ value % 2 ^ low }
    ensures small { result < 2 ^ low }
{
    u64::from(value) & ((1 << low) - 1)
}

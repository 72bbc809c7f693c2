// Integers with wrapping operators. Contracts do not mention the sums of a fit, so an overflow
// could only reduce the quality of its result.
use std::num::Wrapping;

/// A sum of a fit, which wraps.
pub type Number = Wrapping<i64>;

/// A number above all errors and ranks.
pub static MOST: Number = Wrapping(i64::MAX);

/// Converts a plain number.
pub fn number(value: i64) -> Number {
    Wrapping(value)
}

/// Returns a / b, rounded towards 0; 0 if b is 0.
pub fn quotient(a: Number, b: Number) -> Number {
    Wrapping(a.0.checked_div(b.0).unwrap_or(0))
}

/// Returns a / b, rounded to the closest integer, for b over 0; 0 if b is 0.
pub fn nearest_quotient(a: Number, b: Number) -> Number {
    let twice = a + a + b;
    Wrapping(twice.0.checked_div_euclid((b + b).0).unwrap_or(0))
}

/// Returns the number clamped to 0 to 255.
pub fn byte(value: Number) -> u8 {
    value.0.clamp(0, 255) as u8
}

/// Returns by how many bits the number has to be shifted right so that it has at most `bits` bits.
pub fn excess_bits(value: Number, bits: u32) -> usize {
    let has = 64 - value.0.unsigned_abs().leading_zeros();
    has.saturating_sub(bits) as usize
}

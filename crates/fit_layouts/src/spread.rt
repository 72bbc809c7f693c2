// The approximate squared distance of texels from their main line.
use ideal_weights::{Number, Products, excess_bits, number, quotient};
use std::num::Wrapping;

/// Squared distances of a set of texels, times the square of their number.
#[derive(Clone, Copy)]
pub struct Spread {
    /// Approximately the squared distance from the main line: the sum of the products of two
    /// eigenvalues of the covariances, divided by the sum of the eigenvalues.
    pub across: Number,
    /// The squared distance from the mean.
    pub all: Number,
}

/// The spread of an empty set of texels.
pub static NO_SPREAD: Spread = Spread {
    across: Wrapping(0),
    all: Wrapping(0),
};

// The sum of the squares of all entries of the symmetric matrix with these products, shifted right.
#[inline(always)]
fn squares_of(products: &Products, shift: usize) -> Number {
    let mut squares = number(0);
    for product in products {
        let short = *product >> shift;
        squares += short * short;
    }
    let first = products[0] >> shift;
    let second = products[2] >> shift;
    let third = products[5] >> shift;
    let fourth = products[9] >> shift;
    squares + squares - (first * first + second * second) - (third * third + fourth * fourth)
}

/// Returns the spread of texels with these covariances.
#[inline(always)]
pub fn spread_of(covariances: &Products) -> Spread {
    let all = covariances[0] + covariances[2] + covariances[5] + covariances[9];
    let shift = excess_bits(all, 30);
    let small = all >> shift;
    let apart = small * small - squares_of(covariances, shift);
    Spread {
        across: quotient(apart, small + small) << shift,
        all,
    }
}

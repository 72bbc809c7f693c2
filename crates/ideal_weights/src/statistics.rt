// Sums over the texels of a partition.
use crate::numbers::{Number, number};
use crate::texels::{Lanes, Texels, lanes};

/// The products of the pairs of four channels, in the order rr, gr, gg, br, bg, bb, ar, ag, ab, aa.
pub type Products = [Number; 10];

/// The number of texels of a set, the sums of their channels, and the sums of the products of two
/// channels.
#[derive(Clone, Copy)]
pub struct Statistics {
    pub count: Number,
    sums: [Number; 4],
    products: Products,
}

// The channels of each product.
static PAIRS: [(usize, usize); 10] = [
    (0, 0),
    (1, 0),
    (1, 1),
    (2, 0),
    (2, 1),
    (2, 2),
    (3, 0),
    (3, 1),
    (3, 2),
    (3, 3),
];

/// Returns the sum of the values at the places of a mask.
#[inline(always)]
pub fn total<const W: usize, const H: usize>(values: &Lanes, mask: &Lanes) -> Number {
    let mut sum = 0i32;
    for p in 0..lanes::<W, H>() {
        sum = sum.wrapping_add(i32::from(values[p] & mask[p]));
    }
    number(i64::from(sum))
}

/// Returns the sum of the products of two values at the places of a mask.
#[inline(always)]
pub fn dot<const W: usize, const H: usize>(first: &Lanes, second: &Lanes, mask: &Lanes) -> Number {
    let mut sum = 0i32;
    for p in 0..lanes::<W, H>() {
        sum = sum.wrapping_add(i32::from(first[p] & mask[p]).wrapping_mul(i32::from(second[p])));
    }
    number(i64::from(sum))
}

fn sums_of<const W: usize, const H: usize>(
    texels: &Texels,
    mask: &Lanes,
    count: Number,
) -> [Number; 4] {
    let alpha = if texels.opaque {
        count * number(255)
    } else {
        total::<W, H>(&texels.channels[3], mask)
    };
    [
        total::<W, H>(&texels.channels[0], mask),
        total::<W, H>(&texels.channels[1], mask),
        total::<W, H>(&texels.channels[2], mask),
        alpha,
    ]
}

/// Returns the statistics of the texels at the places of a mask.
#[inline(never)]
pub fn statistics_of<const W: usize, const H: usize>(texels: &Texels, mask: &Lanes) -> Statistics {
    let count = number(0) - total::<W, H>(mask, mask);
    let sums = sums_of::<W, H>(texels, mask, count);
    let mut products = [number(0); 10];
    for k in 0..10 {
        let (a, b) = PAIRS[k];
        products[k] = if a == 3 && texels.opaque {
            sums[b & 3] * number(255)
        } else {
            dot::<W, H>(&texels.channels[a & 3], &texels.channels[b & 3], mask)
        };
    }
    Statistics {
        count,
        sums,
        products,
    }
}

impl Statistics {
    /// Returns the covariances of the channels, times the square of the number of texels.
    pub fn covariances(&self) -> Products {
        let mut covariances = [number(0); 10];
        for k in 0..10 {
            let (a, b) = PAIRS[k];
            covariances[k] = self.count * self.products[k] - self.sums[a & 3] * self.sums[b & 3];
        }
        covariances
    }
}

/// Returns the products with 0 for each that has a channel which `keeps` excludes.
pub fn products_of(products: &Products, keeps: &[bool; 4]) -> Products {
    let mut kept = [number(0); 10];
    for k in 0..10 {
        let (a, b) = PAIRS[k];
        if keeps[a & 3] && keeps[b & 3] {
            kept[k] = products[k];
        }
    }
    kept
}

/// Returns the products of `channel` with each of the four channels.
pub fn row_of(products: &Products, channel: usize) -> [Number; 4] {
    match channel {
        0 => [products[0], products[1], products[3], products[6]],
        1 => [products[1], products[2], products[4], products[7]],
        2 => [products[3], products[4], products[5], products[8]],
        _ => [products[6], products[7], products[8], products[9]],
    }
}

// Prefix sums over the texels of a block in row order: the sums over a run of places are the
// difference of two prefix sums.
ghost use Rattle.std.specs.Prelude.{◌<◌};

use crate::partitioning::PartitionRun;
use ideal_weights::{Number, Texels, places};

/// The number of texels, then the sums of red, green and blue and of their six products, then alpha
/// and its four products.
pub type PrefixSums = [i32; 16];

/// For each number of texels 65536 divided by it; 0 for 0.
pub type Shares = [u64; 145];

/// The sums over all places before each place of a block, and at index 255 over all places. A
/// channel with the weight 0 counts as 0.
#[derive(Clone, Copy)]
pub struct Prefixes<'a> {
    pub full: &'a [PrefixSums; 256],
    pub shares: &'a Shares,
}

// The terms of the texel at place `p` in the sums.
#[inline(always)]
fn sums_at(texels: &Texels, counts: &[i32; 4], p: usize) -> PrefixSums
    requires { p < 144 }
{
    let red = i32::from(texels.channels[0][p]) & counts[0];
    let green = i32::from(texels.channels[1][p]) & counts[1];
    let blue = i32::from(texels.channels[2][p]) & counts[2];
    let alpha = i32::from(texels.channels[3][p]) & counts[3];
    [
        i32::from(texels.inside[p] & 1),
        red,
        green,
        blue,
        red.wrapping_mul(red),
        green.wrapping_mul(red),
        green.wrapping_mul(green),
        blue.wrapping_mul(red),
        blue.wrapping_mul(green),
        blue.wrapping_mul(blue),
        alpha,
        alpha.wrapping_mul(red),
        alpha.wrapping_mul(green),
        alpha.wrapping_mul(blue),
        alpha.wrapping_mul(alpha),
        0,
    ]
}

#[inline(always)]
fn add(sums: &mut PrefixSums, more: &PrefixSums) {
    for k in 0..16 {
        sums[k] = sums[k].wrapping_add(more[k]);
    }
}

// -1 for each channel with a weight over 0, else 0.
fn counts_of(gains: &[Number; 4]) -> [i32; 4] {
    let mut counts = [0; 4];
    for c in 0..4 {
        counts[c] = if gains[c].0 == 0 { 0 } else { -1 };
    }
    counts
}

#[inline(always)]
fn add_between(sums: &mut PrefixSums, end: &PrefixSums, start: &PrefixSums) {
    for k in 0..16 {
        sums[k] = sums[k].wrapping_add(end[k].wrapping_sub(start[k]));
    }
}

// Adds the sums over a run, without those of alpha that an opaque block does not need.
#[inline(always)]
fn add_opaque_between(sums: &mut PrefixSums, end: &PrefixSums, start: &PrefixSums) {
    for k in 0..12 {
        sums[k] = sums[k].wrapping_add(end[k].wrapping_sub(start[k]));
    }
}

// The sums over partition 0: all texels without those of the other three partitions.
#[inline(always)]
fn rest(all: &PrefixSums, others: &[PrefixSums; 4]) -> PrefixSums {
    let mut rest = [0; 16];
    for k in 0..16 {
        let two = others[1][k].wrapping_add(others[2][k]);
        rest[k] = all[k].wrapping_sub(two.wrapping_add(others[3][k]));
    }
    rest
}

/// Computes the sums of a block. The sums before the first place are 0 from the beginning.
#[inline(never)]
pub fn fill_sums<const W: usize, const H: usize>(full: &mut [PrefixSums; 256], texels: &Texels) {
    let counts = counts_of(&texels.gains);
    let mut sums = [0; 16];
    for p in 0..places::<W, H>() {
        add(&mut sums, &sums_at(texels, &counts, p));
        full[p + 1] = sums;
    }
    full[255] = sums;
}

/// Computes the shares of 0 to 144.
#[inline(never)]
pub fn put_shares(shares: &mut Shares) {
    for (share, count) in shares.iter_mut().zip(0u32..145) {
        *share = u64::from(65536u32.checked_div(count).unwrap_or(0));
    }
}

impl Prefixes<'_> {
    /// Returns the sums over each partition of a partitioning; without those of alpha if the block
    /// is opaque.
    #[inline(always)]
    pub fn sums<const OPAQUE: bool>(&self, runs: &[PartitionRun]) -> [PrefixSums; 4] {
        let mut sums = [[0; 16]; 4];
        for run in runs {
            let end = &self.full[usize::from(run.end)];
            let start = &self.full[usize::from(run.start)];
            let own = &mut sums[usize::from(run.part & 3)];
            if OPAQUE {
                add_opaque_between(own, end, start);
            } else {
                add_between(own, end, start);
            }
        }
        let rest = rest(&self.full[255], &sums);
        sums[0] = rest;
        sums
    }
}

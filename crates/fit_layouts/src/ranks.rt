// The ranks of a partitioning: estimates of the error of blocks with it.
use crate::partitioning::PartitionRun;
use crate::prefixes::{PrefixSums, Prefixes, Shares};
use crate::spread::spread_of;
use ideal_weights::{MOST, Number, Products, number};

/// The squared distance of the texels from the main lines of their partitions, with a small and
/// with a large share of the spread along the lines.
pub type Ranks = [Number; 2];

// The covariances of the texels with these sums, times the square of their number. The covariances
// of alpha are 0 in an opaque block.
#[inline(always)]
fn covariances_of<const OPAQUE: bool>(sums: &PrefixSums) -> Products {
    let count = number(i64::from(sums[0]));
    let red = number(i64::from(sums[1]));
    let green = number(i64::from(sums[2]));
    let blue = number(i64::from(sums[3]));
    let alpha = number(i64::from(sums[10]));
    let product = |k: usize| count * number(i64::from(sums[k & 15]));
    let with_alpha = if OPAQUE {
        [number(0); 4]
    } else {
        [
            product(11) - alpha * red,
            product(12) - alpha * green,
            product(13) - alpha * blue,
            product(14) - alpha * alpha,
        ]
    };
    [
        product(4) - red * red,
        product(5) - green * red,
        product(6) - green * green,
        product(7) - blue * red,
        product(8) - blue * green,
        product(9) - blue * blue,
        with_alpha[0],
        with_alpha[1],
        with_alpha[2],
        with_alpha[3],
    ]
}

#[inline(always)]
fn ranks_of<const OPAQUE: bool>(sums: &PrefixSums, shares: &Shares) -> Ranks {
    let spread = spread_of(&covariances_of::<OPAQUE>(sums));
    let count = sums[0].clamp(0, 144) as usize;
    // Shares are at most 65536.
    let share = number(i64::from((shares[count] & 0x1_ffff) as u32));
    [
        ((spread.across + (spread.all >> 7)) * share) >> 16,
        ((spread.across + (spread.all >> 1)) * share) >> 16,
    ]
}

/// Returns the ranks of a partitioning. The ranks are the greatest numbers if both reach their
/// limits or a partition has no texel. `OPAQUE` says that alpha is the same at all texels or has
/// the weight 0.
#[inline(never)]
pub fn ranks_under<const OPAQUE: bool>(
    runs: &[PartitionRun],
    parts: u8,
    prefixes: &Prefixes,
    limits: Ranks,
) -> Ranks {
    let sums = prefixes.sums::<OPAQUE>(runs);
    let mut total = [number(0); 2];
    for own in sums.iter().take(usize::from(parts)) {
        if own[0] == 0 || (total[0] >= limits[0] && total[1] >= limits[1]) {
            return [MOST; 2];
        }
        let ranks = ranks_of::<OPAQUE>(own, prefixes.shares);
        total[0] += ranks[0];
        total[1] += ranks[1];
    }
    total
}

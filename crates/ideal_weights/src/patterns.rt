// The partitions of all texels of a block, several at a time.
ghost use Rattle.std.specs.Prelude.{◌≤◌};

use crate::texels::places;
use partition_hash::hash52;

// The scores of the partitions under one seed (Khronos Data Format Specification, ASTC, "Partition
// Pattern Generation"). The score of a partition is linear in the column and the row, modulo 64; a
// texel belongs to the first partition with the greatest score.
#[derive(Clone, Copy)]
struct PartitionSlopes {
    by_column: [u16; 4],
    by_row: [u16; 4],
    first: [u16; 4],
}

// The square of nibble `k` of the hash, shifted right.
fn slope(hash: u32, k: u32, shift: u32) -> u32 {
    let nibble = hash.wrapping_shr(k.wrapping_mul(4)) & 15;
    nibble.wrapping_mul(nibble).wrapping_shr(shift)
}

// The shifts of the slopes by column and by row.
fn shifts(parts: u8, number: u32) -> (u32, u32) {
    let by_seed = if number & 2 == 0 { 5 } else { 4 };
    let by_parts = if parts == 3 { 6 } else { 5 };
    if number & 1 == 1 {
        (by_seed, by_parts)
    } else {
        (by_parts, by_seed)
    }
}

// The score modulo 64.
fn short(score: u32) -> u16 {
    (score & 63) as u16
}

impl PartitionSlopes {
    // The scores for a seed, in blocks with `places` texels.
    fn of(parts: u8, seed: u16, places: usize) -> PartitionSlopes {
        let number = u32::from(seed).wrapping_add(
            u32::from(parts).wrapping_sub(1).wrapping_mul(1024),
        );
        let hash = hash52(number);
        let (across, down) = shifts(parts, number);
        let scale = if places < 31 { 2 } else { 1 };
        let mut pattern = PartitionSlopes {
            by_column: [0; 4],
            by_row: [0; 4],
            first: [0; 4],
        };
        for k in 0..u32::from(parts).min(4) {
            let place = k as usize;
            let at = k.wrapping_mul(2);
            let by_column = slope(hash, at, across).wrapping_mul(scale);
            let by_row = slope(hash, at.wrapping_add(1), down).wrapping_mul(scale);
            pattern.by_column[place] = short(by_column);
            pattern.by_row[place] = short(by_row);
            pattern.first[place] = short(hash.wrapping_shr(14u32.wrapping_sub(k.wrapping_mul(4))));
        }
        pattern
    }

    // The score of a partition at a texel, 0 to 63. A missing partition has 0, so that it never has
    // the greatest score before an existing one.
    #[inline(always)]
    fn score(&self, part: u8, column: u16, row: u16) -> u16 {
        let place = usize::from(part & 3);
        let across = self.by_column[place].wrapping_mul(column);
        let down = self.by_row[place].wrapping_mul(row);
        across.wrapping_add(down).wrapping_add(self.first[place]) & 63
    }

    // The partition of the texel in a column and a row. There are no branches, so that the compiler
    // computes several texels at once.
    #[inline(always)]
    fn part(&self, column: u16, row: u16) -> u16
        ensures { result ≤ 3 }
    {
        let first = self.score(0, column, row);
        let second = self.score(1, column, row);
        let third = self.score(2, column, row);
        let fourth = self.score(3, column, row);
        let most = first.max(second);
        let of_two = if second > first { 1 } else { 0 };
        let of_three = if third > most { 2 } else { of_two };
        if fourth > most.max(third) {
            3
        } else {
            of_three
        }
    }
}

// The side as a divisor, 1 to 144.
fn side<const N: usize>() -> u16
    ensures { 1 ≤ result }
{
    N.clamp(1, 144) as u16
}

/// Sets the partition of each place of a block, in rows from the top.
#[inline(never)]
pub fn put_parts<const W: usize, const H: usize>(map: &mut [u8; 144], parts: u8, seed: u16) {
    let pattern = PartitionSlopes::of(parts, seed, W.wrapping_mul(H));
    let width = side::<W>();
    for (part, place) in map.iter_mut().take(places::<W, H>()).zip(0u16..) {
        *part = pattern.part(place % width, place / width) as u8;
    }
}

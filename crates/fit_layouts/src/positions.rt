// The miss of a partitioning: the squared distance of the texels from the mean of their partition.
// Positions are rounded to sixteen steps, along the main line of a block or by channel, so that 16
// texels fit into a word.
ghost use Rattle.std.specs.Prelude.{◌≤◌};

use crate::partitioning::PartitionRun;
use crate::spread::Spread;
use arrayvec::ArrayVec;
use ideal_weights::{IdealWeights, Lanes, Texels, number, places};

// A word with four bits for each of sixteen places, the first place lowest.
type Nibbles = u64;

/// The words of a block; the bits after its last place are 0.
pub type BlockNibbles = [u64; 9];

/// The masks of all partitions but the first: four bits set at each place of the partition. The
/// words of one partition follow those of the one before.
pub type Masks = ArrayVec<u64, 27>;

/// For each partition 65536 divided by the number of its places.
pub type Shares = [u32; 4];

// Masks for the lower half of each byte, and for the lower byte of each pair of bytes.
static LOWER: u64 = 0x0f0f_0f0f_0f0f_0f0f;

static EVEN: u64 = 0x00ff_00ff_00ff_00ff;

/// Returns the number of words of a block.
#[inline(always)]
pub fn words<const W: usize, const H: usize>() -> usize
    ensures { result ≤ 9 }
{
    (places::<W, H>() + 15) / 16
}

// Sets the four bits of a place, which are 0 before.
fn put(words: &mut BlockNibbles, place: usize, value: u64) {
    let shift = ((place & 15) as u32).wrapping_mul(4);
    words[(place / 16).min(8)] |= value.wrapping_shl(shift);
}

fn put_run(words: &mut BlockNibbles, run: &PartitionRun) {
    for place in run.start..run.end {
        put(words, usize::from(place), 15);
    }
}

/// Returns the masks of a partitioning.
pub fn masks_of<const W: usize, const H: usize>(runs: &[PartitionRun], parts: u8) -> Masks {
    let mut by_part = [[0; 9]; 4];
    for run in runs {
        put_run(&mut by_part[usize::from(run.part & 3)], run);
    }
    let mut masks = ArrayVec::new();
    for own in by_part.iter().take(usize::from(parts)).skip(1) {
        let _full = masks.try_extend_from_slice(&own[..words::<W, H>()]);
    }
    masks
}

/// Returns the shares of a partitioning.
pub fn shares_of<const W: usize, const H: usize>(runs: &[PartitionRun]) -> Shares {
    let mut counts = [0u32; 4];
    for run in runs {
        let own = usize::from(run.part & 3);
        counts[own] = counts[own].wrapping_add(u32::from(run.end.wrapping_sub(run.start)));
    }
    let others = counts[1].wrapping_add(counts[2]).wrapping_add(counts[3]);
    counts[0] = (places::<W, H>() as u32).wrapping_sub(others);
    let mut shares = [0; 4];
    for part in 0..4 {
        shares[part] = 65536u32.checked_div(counts[part]).unwrap_or(0);
    }
    shares
}

// Adds neighbouring pairs of the sixteen fields of a word: eight sums in bytes.
#[inline(always)]
fn sums_of(word: Nibbles) -> u64 {
    (word & LOWER).wrapping_add(word >> 4 & LOWER)
}

// The total of eight sums in bytes.
#[inline(always)]
fn total_of(sums: u64) -> u32 {
    let pairs = (sums & EVEN).wrapping_add(sums >> 8 & EVEN);
    (pairs.wrapping_mul(0x1_0001_0001_0001) >> 48) as u32
}

// The square of a sum divided by the number of its places, in 1/65536.
#[inline(always)]
fn taken(sum: u32, share: u32) -> u32 {
    sum.wrapping_mul(sum).wrapping_mul(share)
}

// A step of 0 to 15 at an inside place; the middle (8) elsewhere.
#[inline(always)]
fn step_of(step: i32, inside: i16) -> i16 {
    let own = step.clamp(0, 15) as i16;
    own & inside | 8 & !inside
}

// The steps of the texels along the main line of the block.
fn steps_along<const W: usize, const H: usize>(ideal: &IdealWeights, texels: &Texels) -> Lanes {
    let mut steps = [0; 160];
    for p in 0..places::<W, H>() {
        let place = i32::from(ideal.wants.weights[0][p]).wrapping_add(16) >> 5;
        steps[p] = step_of(place, texels.inside[p]);
    }
    steps
}

// The least value of a channel, and the difference to the greatest.
#[derive(Clone, Copy)]
struct Range {
    least: i16,
    long: i16,
}

fn range_of<const W: usize, const H: usize>(values: &Lanes, inside: &Lanes) -> Range {
    let (mut least, mut greatest) = (255i16, 0i16);
    for p in 0..places::<W, H>() {
        least = (values[p] | !inside[p] & 255).min(least);
        greatest = values[p].max(greatest);
    }
    Range {
        least,
        long: greatest.wrapping_sub(least),
    }
}

// The steps of a channel's values, if sixteen steps cover the length `long`.
fn steps_from<const W: usize, const H: usize>(
    values: &Lanes,
    inside: &Lanes,
    least: i16,
    long: i16,
) -> Lanes {
    let share = (15i32 << 16).checked_div(i32::from(long)).unwrap_or(0);
    let mut steps = [0; 160];
    for p in 0..places::<W, H>() {
        let way = i32::from(values[p].wrapping_sub(least)).wrapping_mul(share);
        steps[p] = step_of(way.wrapping_add(0x8000) >> 16, inside[p]);
    }
    steps
}

// The channels that differ among the texels and have a weight over 0.
fn counts_of(texels: &Texels) -> [bool; 4] {
    let mut counts = [false; 4];
    for c in 0..4 {
        counts[c] = texels.gains[c].0 > 0 && !(c == 3 && texels.opaque);
    }
    counts
}

fn ranges_of<const W: usize, const H: usize>(texels: &Texels) -> [Range; 4] {
    let mut ranges = [Range { least: 0, long: 0 }; 4];
    for c in 0..4 {
        ranges[c] = range_of::<W, H>(&texels.channels[c], &texels.inside);
    }
    ranges
}

// The longest range among the channels that count.
fn longest_of(ranges: &[Range; 4], counts: &[bool; 4]) -> i16 {
    let mut longest = 0;
    for c in 0..4 {
        if counts[c] {
            longest = ranges[c].long.max(longest);
        }
    }
    longest
}

// The positions of the texels of a block along one axis, with their sum and the sum of their
// squares.
#[derive(Clone, Copy)]
struct Projection {
    words: BlockNibbles,
    total: u32,
    squares: u32,
}

static NO_AXIS: Projection = Projection {
    words: [0; 9],
    total: 0,
    squares: 0,
};

impl Projection {
    fn of<const W: usize, const H: usize>(steps: &Lanes) -> Projection {
        let mut own = NO_AXIS;
        for p in 0..places::<W, H>() {
            let step = u32::from(steps[p].unsigned_abs());
            put(&mut own.words, p, u64::from(step));
            own.total = own.total.wrapping_add(step);
            own.squares = own.squares.wrapping_add(step.wrapping_mul(step) << 16);
        }
        own
    }

    // The sum of the positions in the mask that begins at word `first`.
    #[inline(always)]
    fn sum<const W: usize, const H: usize>(&self, masks: &[u64], first: usize) -> u32 {
        let (mut sums, mut last) = (0u64, 0u64);
        if let Some(mask) = masks.get(first..first.wrapping_add(words::<W, H>())) {
            for k in 0..words::<W, H>() {
                let own = sums_of(self.words[k] & mask.get(k).copied().unwrap_or(0));
                // A byte holds eight words of at most 30.
                if k < 8 {
                    sums = sums.wrapping_add(own);
                } else {
                    last = own;
                }
            }
        }
        total_of(sums).wrapping_add(total_of(last))
    }

    // The amount by which the means of the partitions reduce the sum of the squares, in 1/65536.
    #[inline(always)]
    fn taken<const W: usize, const H: usize>(
        &self,
        parts: u8,
        masks: &[u64],
        shares: &Shares,
    ) -> u32 {
        let mut rest = self.total;
        let mut all = 0u32;
        for part in 1..usize::from(parts).min(4) {
            let first = part.wrapping_sub(1).wrapping_mul(words::<W, H>());
            let sum = self.sum::<W, H>(masks, first);
            rest = rest.wrapping_sub(sum);
            all = all.wrapping_add(taken(sum, shares[part]));
        }
        all.wrapping_add(taken(rest, shares[0]))
    }
}

/// The positions of the texels of a block in sixteen steps: along the main line if the texels are
/// close to it, else along each channel.
#[derive(Clone, Copy)]
pub struct Positions {
    axes: [Projection; 4],
    count: usize,
    // The sum of the squares, in 1/65536. The sum and its reductions may wrap at 2^32, but their
    // difference does not.
    squares: u32,
    // 255 divided by the squared distance of all texels from their mean, in 1/2^32.
    unit: u64,
}

// Texels are close to a line if the squared distance from it, times this number, is less than the
// squared distance from their mean.
static NEAR: i64 = 16;

/// The initial value, before the positions of a block are computed.
pub static NO_POSITIONS: Positions = Positions {
    axes: [NO_AXIS; 4],
    count: 0,
    squares: 0,
    unit: 0,
};

impl Positions {
    /// Computes the positions for a block. `ideal` has the weights along the main line of all
    /// texels, `spread` their distances from it.
    #[inline(never)]
    pub fn turn_to<const W: usize, const H: usize>(
        &mut self,
        ideal: &IdealWeights,
        texels: &Texels,
        spread: Spread,
    ) {
        self.count = 0;
        self.squares = 0;
        if spread.across * number(NEAR) < spread.all {
            self.add(Projection::of::<W, H>(&steps_along::<W, H>(ideal, texels)));
        } else {
            self.add_channels::<W, H>(texels);
        }
        self.set_unit::<W, H>();
    }

    fn add(&mut self, axis: Projection) {
        self.axes[self.count & 3] = axis;
        self.count = self.count.wrapping_add(1);
        self.squares = self.squares.wrapping_add(axis.squares);
    }

    // Adds an axis for each channel that counts. A step has the same length in all channels.
    fn add_channels<const W: usize, const H: usize>(&mut self, texels: &Texels) {
        let counts = counts_of(texels);
        let ranges = ranges_of::<W, H>(texels);
        let longest = longest_of(&ranges, &counts);
        for c in 0..4 {
            if counts[c] {
                let (values, least) = (&texels.channels[c], ranges[c].least);
                let steps = steps_from::<W, H>(values, &texels.inside, least, longest);
                self.add(Projection::of::<W, H>(&steps));
            }
        }
    }

    fn set_unit<const W: usize, const H: usize>(&mut self) {
        let share = 65536u32.checked_div(places::<W, H>() as u32).unwrap_or(0);
        let mut variance = self.squares;
        for axis in self.axes.iter().take(self.count) {
            variance = variance.wrapping_sub(taken(axis.total, share));
        }
        self.unit = (255u64 << 32) / u64::from(variance.max(1));
    }

    /// Returns the miss of a partitioning, 0 to 255: the squared distance of the texels from the
    /// means of their partitions, where 255 stands for that from the mean of the block.
    #[inline(always)]
    pub fn miss<const W: usize, const H: usize>(
        &self,
        parts: u8,
        masks: &[u64],
        shares: &Shares,
    ) -> u8 {
        let mut left = self.squares;
        for axis in self.axes.iter().take(self.count) {
            left = left.wrapping_sub(axis.taken::<W, H>(parts, masks, shares));
        }
        (u64::from(left).wrapping_mul(self.unit) >> 32).min(255) as u8
    }
}

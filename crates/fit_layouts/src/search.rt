// The search for the layouts that a fit tries.
ghost use Rattle.std.specs.Prelude.{◌≤◌};

use crate::choices::{
    NO_RANK_ROOM, PartitioningChoices, PartitioningSource, RankBasis, RankRoom, SearchBreadth,
};
use crate::partitionings::{PartitioningView, Seeds};
use crate::positions::{NO_POSITIONS, Positions};
use crate::prefixes::{PrefixSums, Prefixes, Shares, fill_sums, put_shares};
use crate::ranking::{NO_RANKING, Ranked, Ranking};
use crate::spread::{NO_SPREAD, Spread, spread_of};
use ideal_weights::{
    BlockLayout, IdealWeights, MOST, Number, Products, Texels, WHOLE, number, products_of,
    quotient, statistics_of,
};

/// How many partitionings the search considers. The arrays have an entry each for two, three and
/// four partitions.
#[derive(Clone, Copy)]
pub struct FitReach {
    /// How many partitionings are ranked by lines, 0 for all: those whose partitions are closest to
    /// one colour each.
    pub ranked: [usize; 3],
    /// How many of the ranked ones are tried, at most 32.
    pub tops: [usize; 3],
    /// How many more are tried by a rank with a larger share of the spread along the lines, at most
    /// 32.
    pub more: [usize; 3],
    /// If the mean squared distance of the texels from the lines of the best partitioning so far is
    /// below this, three and four partitions are not tried.
    pub near: i64,
    /// A second plane is tried if its rank is below this number of sixteenths of the rank of one
    /// plane.
    pub plane: i64,
}

// The texels of a whole block: their number, their covariances and the channel weights.
#[derive(Clone, Copy)]
struct Whole {
    count: Number,
    covariances: Products,
    gains: [Number; 4],
}

impl Whole {
    // The spread of the texels without channel `without`, or with all channels if it is 4.
    fn spread(&self, without: usize) -> Spread {
        let mut keeps = [false; 4];
        for c in 0..4 {
            keeps[c] = c != without && self.gains[c].0 > 0;
        }
        spread_of(&products_of(&self.covariances, &keeps))
    }

    // The rank of one line without channel `without`.
    fn rank(&self, without: usize) -> Number {
        let spread = self.spread(without);
        quotient(spread.across, self.count) + quotient(spread.all, self.count << 7)
    }

    // The best second plane by rank, or one plane if none is better.
    fn best(&self) -> Ranked {
        let mut best = Ranked {
            rank: self.rank(4),
            layout: WHOLE,
        };
        for plane in 1..5u8 {
            let rank = self.rank(usize::from(plane).wrapping_sub(1));
            if rank < best.rank {
                best = Ranked {
                    rank,
                    layout: BlockLayout { plane, ..WHOLE },
                };
            }
        }
        best
    }
}

fn whole_of<const W: usize, const H: usize>(texels: &Texels) -> Whole {
    let statistics = statistics_of::<W, H>(texels, &texels.inside);
    Whole {
        count: statistics.count,
        covariances: statistics.covariances(),
        gains: texels.gains,
    }
}

// The breadth of the search for `parts` partitions, two to four.
fn breadth_of(reach: &FitReach, parts: u8) -> SearchBreadth {
    let k = usize::from(parts).wrapping_sub(2).min(2);
    SearchBreadth {
        ranked: reach.ranked[k],
        tops: reach.tops[k],
        more: reach.more[k],
    }
}

// The index of the layouts with this number of partitions.
fn place_of(parts: u8) -> usize
    ensures { result ≤ 3 }
{
    usize::from(parts.wrapping_sub(1) & 3)
}

/// Scratch memory for the search of layouts. One value is reused from block to block, so that no
/// memory is cleared.
#[derive(Clone, Copy)]
pub struct LayoutScratch {
    sums: [PrefixSums; 256],
    // All 0 until a block needs them.
    shares: Shares,
    positions: Positions,
    room: RankRoom,
    // The rankings of layouts with one, two, three and four partitions.
    rankings: [Ranking; 4],
    // The least rank of a partitioning so far.
    least: Number,
    // The spread of the texels, and the sum of their squared distances from one line.
    spread: Spread,
    line: Number,
    // The component of the best second plane; 0 if one plane is as close.
    plane: u8,
}

static NO_LAYOUTS: LayoutScratch = LayoutScratch {
    sums: [[0; 16]; 256],
    shares: [0; 145],
    positions: NO_POSITIONS,
    room: NO_RANK_ROOM,
    rankings: [NO_RANKING; 4],
    least: MOST,
    spread: NO_SPREAD,
    line: MOST,
    plane: 0,
};

// Ranks the best partitionings with `parts` partitions, which are computed from the seeds.
#[inline(never)]
fn rank_found<const W: usize, const H: usize>(
    ranking: &mut Ranking,
    room: &mut RankRoom,
    parts: u8,
    breadth: SearchBreadth,
    basis: &RankBasis,
) {
    let seeds = Seeds::of::<W, H>(parts);
    let source = PartitioningSource::Found(&seeds);
    PartitioningChoices { parts, source }.rank_best::<W, H>(ranking, room, breadth, basis);
}

// Ranks the best partitionings with `parts` partitions, from the tables if there are any.
fn rank_in_parts<const W: usize, const H: usize>(
    rankings: &mut [Ranking; 4],
    room: &mut RankRoom,
    partitionings: &PartitioningView,
    parts: u8,
    breadth: SearchBreadth,
    basis: &RankBasis,
) {
    let ranking = &mut rankings[place_of(parts)];
    let known = partitionings.of(parts);
    if known.count() > 0 {
        let source = PartitioningSource::Kept(known);
        PartitioningChoices { parts, source }.rank_best::<W, H>(ranking, room, breadth, basis);
    } else {
        rank_found::<W, H>(ranking, room, parts, breadth, basis);
    }
}

impl LayoutScratch {
    /// Returns the initial scratch memory, before the first block.
    #[inline(never)]
    pub fn new() -> LayoutScratch {
        NO_LAYOUTS
    }

    /// Begins a block: ranks the layouts with one partition, which are one plane and, if it ranks
    /// much better, a second plane.
    #[inline(never)]
    pub fn turn_to<const W: usize, const H: usize>(&mut self, reach: &FitReach, texels: &Texels) {
        let whole = whole_of::<W, H>(texels);
        let first = Ranked {
            rank: whole.rank(4),
            layout: WHOLE,
        };
        for ranking in self.rankings.iter_mut() {
            ranking.clear();
        }
        self.rankings[0].append(first);
        let plane = whole.best();
        if plane.layout.plane > 0 && (plane.rank << 4) < first.rank * number(reach.plane) {
            self.rankings[0].append(plane);
        }
        self.plane = plane.layout.plane;
        self.spread = whole.spread(4);
        self.line = first.rank;
        self.least = MOST;
    }

    /// Computes the sums and positions from which partitionings are ranked. `ideal` has the weights
    /// along one line.
    #[inline(never)]
    pub fn begin_partitionings<const W: usize, const H: usize>(
        &mut self,
        texels: &Texels,
        ideal: &IdealWeights,
    ) {
        if self.shares[1] == 0 {
            put_shares(&mut self.shares);
        }
        fill_sums::<W, H>(&mut self.sums, texels);
        self.positions.turn_to::<W, H>(ideal, texels, self.spread);
    }

    /// Ranks the best partitionings with `parts` partitions, two to four, within the given reach.
    /// Without tables the partitionings are computed, which takes longer.
    #[inline(never)]
    pub fn rank_in<const W: usize, const H: usize>(
        &mut self,
        parts: u8,
        reach: &FitReach,
        partitionings: &PartitioningView,
        texels: &Texels,
    ) {
        let breadth = breadth_of(reach, parts);
        let near = number(reach.near) * number(i64::try_from(texels.count).unwrap_or(0));
        let tries = breadth.tops > 0 || breadth.more > 0;
        if !tries || (parts > 2 && self.least < near) {
            return;
        }
        let prefixes = Prefixes {
            full: &self.sums,
            shares: &self.shares,
        };
        let basis = RankBasis {
            prefixes: &prefixes,
            positions: &self.positions,
            opaque: texels.opaque || texels.gains[3].0 == 0,
        };
        let (rankings, room) = (&mut self.rankings, &mut self.room);
        rank_in_parts::<W, H>(rankings, room, partitionings, parts, breadth, &basis);
        if let Some(best) = self.ranked(parts).first() {
            self.least = best.rank.min(self.least);
        }
    }

    /// Returns the layouts with `parts` partitions, the best rank first; for one partition, one
    /// plane comes first.
    pub fn ranked(&self, parts: u8) -> &[Ranked] {
        self.rankings[place_of(parts)].as_slice()
    }

    /// Returns the approximate sum of the squared distances of the texels from one line.
    pub fn line_distance(&self) -> Number {
        self.line
    }

    /// Returns the component of the best second plane for one partition, 1 to 4; 0 if one plane
    /// ranks as well.
    pub fn second_plane(&self) -> u8 {
        self.plane
    }
}

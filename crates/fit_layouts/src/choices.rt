// Chooses the best partitionings with a given number of partitions.
use crate::best_seeds::{BestByRank, NO_SEEDS, RankedSeed};
use crate::cutoffs::{MissCutoff, Misses};
use crate::partitioning::{PartitionRun, partitioning_of};
use crate::partitionings::{PartitioningList, Seeds};
use crate::positions::{Positions, masks_of, shares_of};
use crate::prefixes::Prefixes;
use crate::ranking::{Ranked, Ranking, rank};
use crate::ranks::{Ranks, ranks_under};
use ideal_weights::{BlockLayout, MOST};

/// The data of a block from which partitionings are ranked.
#[derive(Clone, Copy)]
pub struct RankBasis<'a> {
    pub prefixes: &'a Prefixes<'a>,
    pub positions: &'a Positions,
    /// Whether alpha is the same at all texels, or has the weight 0.
    pub opaque: bool,
}

/// How many partitionings are considered: how many are ranked by their lines (0 for all), and how
/// many of these are kept by each of the two ranks.
#[derive(Clone, Copy)]
pub struct SearchBreadth {
    pub ranked: usize,
    pub tops: usize,
    pub more: usize,
}

/// Scratch memory for the misses of all partitionings, and for the best ones. The miss of a
/// partitioning is the distance of its partitions from one colour each.
#[derive(Clone, Copy)]
pub struct RankRoom {
    misses: Misses,
    best: BestByRank,
}

/// The initial scratch memory, before the first block.
pub static NO_RANK_ROOM: RankRoom = RankRoom {
    misses: [0; 1024],
    best: NO_SEEDS,
};

/// The distinct partitionings with one number of partitions: from stored tables, or computed from
/// the seeds.
#[derive(Clone, Copy)]
pub enum PartitioningSource<'a> {
    Kept(PartitioningList<'a>),
    Found(&'a Seeds),
}

/// The partitionings with one number of partitions.
#[derive(Clone, Copy)]
pub struct PartitioningChoices<'a> {
    pub parts: u8,
    pub source: PartitioningSource<'a>,
}

impl PartitioningChoices<'_> {
    fn count(&self) -> usize {
        match self.source {
            PartitioningSource::Kept(list) => list.count().min(1024),
            PartitioningSource::Found(seeds) => seeds.count().min(1024),
        }
    }

    fn seed(&self, at: usize) -> u16 {
        match self.source {
            PartitioningSource::Kept(list) => list.seed(at),
            PartitioningSource::Found(seeds) => seeds.seed(at),
        }
    }

    fn ranks_of(&self, runs: &[PartitionRun], basis: &RankBasis, limits: Ranks) -> Ranks {
        if basis.opaque {
            ranks_under::<true>(runs, self.parts, basis.prefixes, limits)
        } else {
            ranks_under::<false>(runs, self.parts, basis.prefixes, limits)
        }
    }

    // The ranks of the partitioning of a seed, which is computed for this.
    #[inline(never)]
    fn ranks_of_seed<const W: usize, const H: usize>(
        &self,
        seed: u16,
        basis: &RankBasis,
        limits: Ranks,
    ) -> Ranks {
        let partitioning = partitioning_of::<W, H>(self.parts, seed);
        self.ranks_of(partitioning.runs(), basis, limits)
    }

    fn ranks<const W: usize, const H: usize>(
        &self,
        at: usize,
        basis: &RankBasis,
        limits: Ranks,
    ) -> Ranks {
        match self.source {
            PartitioningSource::Kept(list) => self.ranks_of(list.runs(at), basis, limits),
            PartitioningSource::Found(seeds) => {
                self.ranks_of_seed::<W, H>(seeds.seed(at), basis, limits)
            }
        }
    }

    // The miss of the partitioning of a seed, which is computed for this.
    #[inline(never)]
    fn miss_of_seed<const W: usize, const H: usize>(&self, seed: u16, positions: &Positions) -> u8 {
        let partitioning = partitioning_of::<W, H>(self.parts, seed);
        let masks = masks_of::<W, H>(partitioning.runs(), self.parts);
        let shares = shares_of::<W, H>(partitioning.runs());
        positions.miss::<W, H>(self.parts, masks.as_slice(), &shares)
    }

    fn miss<const W: usize, const H: usize>(&self, at: usize, positions: &Positions) -> u8 {
        match self.source {
            PartitioningSource::Kept(list) => {
                let (masks, shares) = list.masks(at);
                positions.miss::<W, H>(self.parts, masks, shares)
            }
            PartitioningSource::Found(seeds) => {
                self.miss_of_seed::<W, H>(seeds.seed(at), positions)
            }
        }
    }

    fn fill_misses<const W: usize, const H: usize>(
        &self,
        misses: &mut Misses,
        positions: &Positions,
    ) {
        for (at, miss) in misses.iter_mut().enumerate().take(self.count()) {
            *miss = self.miss::<W, H>(at, positions);
        }
    }

    // Ranks the partitionings that a cutoff admits.
    fn scan<const W: usize, const H: usize>(
        &self,
        best: &mut BestByRank,
        basis: &RankBasis,
        misses: &Misses,
        cutoff: MissCutoff,
    ) {
        let mut cutoff = cutoff;
        for (at, miss) in misses.iter().enumerate().take(self.count()) {
            if cutoff.takes(*miss) {
                let ranks = self.ranks::<W, H>(at, basis, best.limits());
                best.put(at, ranks);
            }
        }
    }

    fn rank(&self, ranking: &mut Ranking, ranked_seed: &RankedSeed) {
        let layout = BlockLayout {
            parts: self.parts,
            seed: self.seed(ranked_seed.at),
            plane: 0,
        };
        if ranked_seed.rank < MOST {
            rank(
                ranking,
                Ranked {
                    rank: ranked_seed.ranks[0],
                    layout,
                },
            );
        }
    }

    fn rank_by_line(&self, ranking: &mut Ranking, best: &BestByRank) {
        for ranked_seed in best.by_line.as_slice() {
            self.rank(ranking, ranked_seed);
        }
    }

    fn rank_by_spread(&self, ranking: &mut Ranking, best: &BestByRank) {
        for ranked_seed in best.by_spread.as_slice() {
            if !best.by_line.has(ranked_seed.ranks) {
                self.rank(ranking, ranked_seed);
            }
        }
    }

    /// Adds the best partitionings to a ranking of layouts.
    pub fn rank_best<const W: usize, const H: usize>(
        &self,
        ranking: &mut Ranking,
        room: &mut RankRoom,
        breadth: SearchBreadth,
        basis: &RankBasis,
    ) {
        let mut cutoff = MissCutoff::all();
        if breadth.ranked > 0 && breadth.ranked < self.count() {
            self.fill_misses::<W, H>(&mut room.misses, basis.positions);
            cutoff = MissCutoff::of(&room.misses, self.count(), breadth.ranked);
        }
        room.best.by_line.begin(breadth.tops);
        room.best.by_spread.begin(breadth.more);
        self.scan::<W, H>(&mut room.best, basis, &room.misses, cutoff);
        self.rank_by_line(ranking, &room.best);
        self.rank_by_spread(ranking, &room.best);
    }
}

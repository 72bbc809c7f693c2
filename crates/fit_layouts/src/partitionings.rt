// The distinct partitionings of all seeds in blocks of a footprint.
ghost use Rattle.std.specs.Prelude.{◌≤◌};

use crate::partitioning::{PartitionRun, SeenPartitionings, partitioning_of};
use crate::positions::{Shares, masks_of, shares_of, words};
use astc_model::Footprint;
use std::alloc::{AllocError, Global};

// The shares if there is no partitioning.
static NO_SHARES: Shares = [0; 4];

// A partitioning: its seed, the index ranges of its runs and its masks in the common lists, and its
// shares.
#[derive(Clone, Copy, Default)]
struct SeedEntry {
    seed: u16,
    from: u32,
    to: u32,
    masks: u32,
    shares: Shares,
}

/// The distinct partitionings with one number of partitions.
#[derive(Clone, Copy)]
pub struct PartitioningList<'a> {
    entries: &'a [SeedEntry],
    // The runs of all partitionings.
    runs: &'a [PartitionRun],
    masks: &'a [u64],
    // The number of words of the masks of one partitioning.
    stride: usize,
}

impl<'a> PartitioningList<'a> {
    /// Returns the number of partitionings, at most 1,024; 0 if there are no tables.
    pub fn count(&self) -> usize {
        self.entries.len()
    }

    /// Returns the seed of partitioning `at`; 0 if `at` is out of range.
    pub fn seed(&self, at: usize) -> u16 {
        match self.entries.get(at) {
            Some(entry) => entry.seed,
            None => 0,
        }
    }

    /// Returns the runs of partitioning `at`; empty if `at` is out of range.
    #[inline(always)]
    pub fn runs(&self, at: usize) -> &'a [PartitionRun] {
        match self.entries.get(at) {
            Some(entry) => {
                let own = entry.from as usize..entry.to as usize;
                self.runs.get(own).unwrap_or(&[])
            }
            None => &[],
        }
    }

    /// Returns the masks and the shares of partitioning `at`; empty and 0 if `at` is out of range.
    #[inline(always)]
    pub fn masks(&self, at: usize) -> (&'a [u64], &'a Shares) {
        match self.entries.get(at) {
            Some(entry) => {
                let first = entry.masks as usize;
                let own = self.masks.get(first..first.wrapping_add(self.stride));
                (own.unwrap_or(&[]), &entry.shares)
            }
            None => (&[], &NO_SHARES),
        }
    }
}

/// The distinct partitionings of a block: those that leave a partition empty, or equal that of a
/// smaller seed, are left out.
#[derive(Clone, Copy)]
pub struct PartitioningView<'a> {
    entries: &'a [SeedEntry],
    runs: &'a [PartitionRun],
    masks: &'a [u64],
    ends: [usize; 4],
    words: usize,
}

// The index of a number of partitions (two to four), 0 to 2.
fn rank_of(parts: u8) -> usize
    ensures { result ≤ 2 }
{
    usize::from(parts).wrapping_sub(2).min(2)
}

impl<'a> PartitioningView<'a> {
    /// Returns a view without tables.
    pub fn none() -> PartitioningView<'a> {
        PartitioningView {
            entries: &[],
            runs: &[],
            masks: &[],
            ends: [0; 4],
            words: 0,
        }
    }

    /// Returns the partitionings with `parts` partitions, two to four.
    pub fn of(&self, parts: u8) -> PartitioningList<'a> {
        let rank = rank_of(parts);
        let own = self.ends[rank]..self.ends[rank + 1];
        PartitioningList {
            entries: self.entries.get(own).unwrap_or(&[]),
            runs: self.runs,
            masks: self.masks,
            stride: self.words.wrapping_mul(rank + 1),
        }
    }
}

/// The seeds of the distinct partitionings with one number of partitions.
#[derive(Clone, Copy)]
pub struct Seeds {
    list: [u16; 1024],
    count: usize,
    // The total number of runs of the partitionings.
    runs: usize,
}

impl Seeds {
    /// Computes the seeds whose partitionings are distinct in blocks of a footprint.
    #[inline(never)]
    pub fn of<const W: usize, const H: usize>(parts: u8) -> Seeds {
        let mut seeds = Seeds {
            list: [0; 1024],
            count: 0,
            runs: 0,
        };
        let mut seen = SeenPartitionings::new();
        for seed in 0..1024u16 {
            let partitioning = partitioning_of::<W, H>(parts, seed);
            if seen.is_first(&partitioning, parts) {
                seeds.push(seed, partitioning.runs());
            }
        }
        seeds
    }

    fn push(&mut self, seed: u16, runs: &[PartitionRun]) {
        self.list[self.count & 1023] = seed;
        self.count = self.count.wrapping_add(1);
        self.runs = self.runs.wrapping_add(runs.len());
    }

    /// Returns the number of seeds, at most 1,024.
    pub fn count(&self) -> usize {
        self.count
    }

    /// Returns seed `at`.
    pub fn seed(&self, at: usize) -> u16 {
        self.list[at & 1023]
    }
}

// The seeds for two, three and four partitions.
type AllSeeds = [Seeds; 3];

fn all_seeds<const W: usize, const H: usize>() -> AllSeeds {
    [
        Seeds::of::<W, H>(2),
        Seeds::of::<W, H>(3),
        Seeds::of::<W, H>(4),
    ]
}

// The end of the partitionings with each number of partitions in the common list.
fn ends_of(seeds: &AllSeeds) -> [usize; 4] {
    let two = seeds[0].count;
    let three = two.wrapping_add(seeds[1].count);
    [0, two, three, three.wrapping_add(seeds[2].count)]
}

// The number of runs of all partitionings.
fn run_count(seeds: &AllSeeds) -> usize {
    let two = seeds[0].runs;
    two.wrapping_add(seeds[1].runs).wrapping_add(seeds[2].runs)
}

// The number of words of the masks of all partitionings.
fn word_count<const W: usize, const H: usize>(seeds: &AllSeeds) -> usize {
    let three = seeds[1].count.wrapping_mul(2);
    let four = seeds[2].count.wrapping_mul(3);
    let masks = seeds[0].count.wrapping_add(three).wrapping_add(four);
    words::<W, H>().wrapping_mul(masks)
}

// The memory for partitionings, which are left out if it is full.
#[derive(Drop)]
struct Room<'a> {
    entries: &'a mut [SeedEntry],
    runs: &'a mut [PartitionRun],
    masks: &'a mut [u64],
}

// The number of entries, runs and words that are filled.
#[derive(Clone, Copy)]
struct Filled {
    entries: usize,
    runs: usize,
    masks: usize,
}

// A count as the type of an entry.
fn short(count: usize) -> u32 {
    u32::try_from(count).unwrap_or(u32::MAX)
}

fn put_runs(places: &mut [PartitionRun], first: usize, runs: &[PartitionRun]) {
    for (place, run) in places.iter_mut().skip(first).zip(runs) {
        *place = *run;
    }
}

fn put_words(places: &mut [u64], first: usize, own: &[u64]) {
    for (place, word) in places.iter_mut().skip(first).zip(own) {
        *place = *word;
    }
}

impl Room<'_> {
    // Appends the partitioning of a seed.
    fn put<const W: usize, const H: usize>(&mut self, filled: &mut Filled, parts: u8, seed: u16) {
        let partitioning = partitioning_of::<W, H>(parts, seed);
        let runs = partitioning.runs();
        let masks = masks_of::<W, H>(runs, parts);
        let to = filled.runs.wrapping_add(runs.len());
        if let Some(entry) = self.entries.get_mut(filled.entries) {
            *entry = SeedEntry {
                seed,
                from: short(filled.runs),
                to: short(to),
                masks: short(filled.masks),
                shares: shares_of::<W, H>(runs),
            };
        }
        put_runs(self.runs, filled.runs, runs);
        put_words(self.masks, filled.masks, masks.as_slice());
        filled.entries = filled.entries.wrapping_add(1);
        filled.runs = to;
        filled.masks = filled.masks.wrapping_add(masks.len());
    }

    // Appends the partitionings with one number of partitions.
    fn put_all<const W: usize, const H: usize>(
        &mut self,
        filled: &mut Filled,
        parts: u8,
        seeds: &Seeds,
    ) {
        for seed in seeds.list.iter().take(seeds.count) {
            self.put::<W, H>(filled, parts, *seed);
        }
    }

    fn fill<const W: usize, const H: usize>(&mut self, seeds: &AllSeeds) {
        let mut filled = Filled {
            entries: 0,
            runs: 0,
            masks: 0,
        };
        self.put_all::<W, H>(&mut filled, 2, &seeds[0]);
        self.put_all::<W, H>(&mut filled, 3, &seeds[1]);
        self.put_all::<W, H>(&mut filled, 4, &seeds[2]);
    }
}

/// The distinct partitionings of a block in vectors.
#[derive(Drop)]
pub struct PartitioningTables {
    entries: Vec<SeedEntry>,
    runs: Vec<PartitionRun>,
    masks: Vec<u64>,
    ends: [usize; 4],
    words: usize,
}

impl PartitioningTables {
    /// Computes the partitionings for blocks of a footprint.
    ///
    /// # Errors
    ///
    /// Out of memory.
    pub fn new<const W: usize, const H: usize>(
        alloc: Global,
        _footprint: Footprint<W, H>,
    ) -> Result<PartitioningTables, AllocError> {
        let seeds = all_seeds::<W, H>();
        let ends = ends_of(&seeds);
        let mut tables = PartitioningTables {
            entries: Vec::new(alloc),
            runs: Vec::new(alloc),
            masks: Vec::new(alloc),
            ends,
            words: words::<W, H>(),
        };
        tables.entries.resize(ends[3], SeedEntry::default())?;
        tables
            .runs
            .resize(run_count(&seeds), PartitionRun::default())?;
        tables.masks.resize(word_count::<W, H>(&seeds), 0)?;
        let mut room = Room {
            entries: tables.entries.as_mut_slice(),
            runs: tables.runs.as_mut_slice(),
            masks: tables.masks.as_mut_slice(),
        };
        room.fill::<W, H>(&seeds);
        Ok(tables)
    }

    /// Returns a view of the partitionings for the fits of blocks.
    pub fn view(&self) -> PartitioningView<'_> {
        PartitioningView {
            entries: self.entries.as_slice(),
            runs: self.runs.as_slice(),
            masks: self.masks.as_slice(),
            ends: self.ends,
            words: self.words,
        }
    }
}

/// The distinct partitionings of a block in arrays, with room for any footprint.
#[derive(Clone, Copy)]
pub struct PartitioningArrays {
    entries: [SeedEntry; 2112],
    runs: [PartitionRun; 39056],
    masks: [u64; 36208],
    ends: [usize; 4],
    words: usize,
}

impl PartitioningArrays {
    /// Computes the partitionings for blocks of a footprint.
    pub fn new<const W: usize, const H: usize>(_footprint: Footprint<W, H>) -> PartitioningArrays {
        let seeds = all_seeds::<W, H>();
        let mut arrays = PartitioningArrays {
            entries: [SeedEntry::default(); 2112],
            runs: [PartitionRun::default(); 39056],
            masks: [0; 36208],
            ends: ends_of(&seeds),
            words: words::<W, H>(),
        };
        let mut room = Room {
            entries: &mut arrays.entries,
            runs: &mut arrays.runs,
            masks: &mut arrays.masks,
        };
        room.fill::<W, H>(&seeds);
        arrays
    }

    /// Returns a view of the partitionings for the fits of blocks.
    pub fn view(&self) -> PartitioningView<'_> {
        PartitioningView {
            entries: &self.entries,
            runs: &self.runs,
            masks: &self.masks,
            ends: self.ends,
            words: self.words,
        }
    }
}

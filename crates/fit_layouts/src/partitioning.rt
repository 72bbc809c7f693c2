// The partitioning of a seed, as runs of places.
use arrayvec::ArrayVec;
use ideal_weights::{places, put_parts};

/// A run of neighbouring places, in row order, that belong to one partition.
#[derive(Clone, Copy, Default)]
pub struct PartitionRun {
    /// The first place.
    pub start: u8,
    /// The place after the last.
    pub end: u8,
    /// The partition, 0 to 3.
    pub part: u8,
}

/// The runs of a block, in row order.
pub type PartitionRuns = ArrayVec<PartitionRun, 144>;

// Names for partitions in the order in which they first occur, so that partitionings that differ
// only in the numbers of their partitions become equal. Each name has the number of its runs.
#[derive(Clone, Copy)]
struct Names {
    names: [u8; 4],
    known: u8,
    counts: [u8; 4],
}

impl Names {
    fn new() -> Names {
        Names {
            names: [4; 4],
            known: 0,
            counts: [0; 4],
        }
    }

    // The name of a partition to which a run belongs; an unnamed partition gets the next name.
    fn name(&mut self, part: u8) -> u8 {
        let place = usize::from(part & 3);
        if self.names[place] > 3 {
            self.names[place] = self.known & 3;
            self.known = self.known.wrapping_add(1);
        }
        let name = self.names[place] & 3;
        let own = usize::from(name);
        self.counts[own] = self.counts[own].wrapping_add(1);
        name
    }

    // The first name with the most runs.
    fn greatest(&self) -> u8 {
        let mut greatest = 0u8;
        for name in 1..4u8 {
            if self.counts[usize::from(name & 3)] > self.counts[usize::from(greatest & 3)] {
                greatest = name;
            }
        }
        greatest
    }
}

// The runs of a block whose places have the partitions in `map`, by the names of the partitions.
fn named_runs<const W: usize, const H: usize>(map: &[u8; 144], names: &mut Names) -> PartitionRuns {
    let mut runs = ArrayVec::new();
    let mut part = map[0];
    let mut run = PartitionRun::default();
    for own in map.iter().take(places::<W, H>()) {
        if *own != part {
            run.part = names.name(part);
            let _full = runs.try_push(run);
            part = *own;
            run.start = run.end;
        }
        run.end = run.end.wrapping_add(1);
    }
    run.part = names.name(part);
    let _full = runs.try_push(run);
    runs
}

/// The runs of a partitioning without those of the partition that has the most runs: this partition
/// is named 0, and has all places that are not in a run.
#[derive(Drop)]
pub struct Partitioning {
    runs: PartitionRuns,
    /// The number of partitions that have a place.
    parts: u8,
}

impl Partitioning {
    /// Returns the runs in row order.
    #[inline(always)]
    pub fn runs(&self) -> &[PartitionRun] {
        self.runs.as_slice()
    }
}

/// Returns the partitioning of a seed.
#[inline(never)]
pub fn partitioning_of<const W: usize, const H: usize>(parts: u8, seed: u16) -> Partitioning {
    let mut names = Names::new();
    let mut map = [0; 144];
    put_parts::<W, H>(&mut map, parts, seed);
    let all = named_runs::<W, H>(&map, &mut names);
    let rest = names.greatest();
    let mut runs = ArrayVec::new();
    for run in all.as_slice() {
        if run.part != rest {
            let part = if run.part == 0 { rest } else { run.part };
            let _full = runs.try_push(PartitionRun { part, ..*run });
        }
    }
    Partitioning {
        runs,
        parts: names.known,
    }
}

// A hash of a list of runs.
fn hash_of(runs: &[PartitionRun]) -> u64 {
    let mut hash = 0xcbf2_9ce4_8422_2325u64;
    for run in runs {
        let place = u64::from(run.start)
            .wrapping_mul(256)
            .wrapping_add(u64::from(run.end));
        let word = place.wrapping_mul(4).wrapping_add(u64::from(run.part));
        hash = (hash ^ word).wrapping_mul(0x9e37_79b9_7f4a_7c15);
        hash ^= hash >> 29;
    }
    hash
}

/// A set of partitionings, as hashes of their runs. Two partitionings with the same hash count as
/// equal: a collision leaves one out, which can only reduce quality.
#[derive(Clone, Copy)]
pub struct SeenPartitionings {
    // A hash table with open addressing: at most 1,024 hashes, each in the first free entry from
    // its home on; 0 is a free entry.
    hashes: [u64; 2048],
}

impl SeenPartitionings {
    /// Returns the empty set.
    pub fn new() -> SeenPartitionings {
        SeenPartitionings { hashes: [0; 2048] }
    }

    // Adds a hash. Returns whether it is new.
    fn is_new(&mut self, hash: u64) -> bool {
        let hash = hash.max(1);
        let own = (hash & 2047) as usize;
        for step in 0..2048usize {
            let place = own.wrapping_add(step) & 2047;
            if self.hashes[place] == 0 {
                self.hashes[place] = hash;
                return true;
            }
            if self.hashes[place] == hash {
                return false;
            }
        }
        false
    }

    /// Adds a partitioning to the set, unless one of its `parts` partitions has no place. Returns
    /// whether it was added and the set did not contain it before.
    pub fn is_first(&mut self, partitioning: &Partitioning, parts: u8) -> bool {
        partitioning.parts == parts && self.is_new(hash_of(partitioning.runs()))
    }
}

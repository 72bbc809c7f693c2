// How far the fit looks.
use astc_model::Preset;
use fit_layouts::FitReach;
use ideal_weights::{Number, number};

/// How far the fit looks.
#[derive(Clone, Copy)]
pub struct Effort {
    /// The partitionings of a block that are ranked, and how many of them hard blocks try.
    pub(crate) reach: FitReach,
    /// The mean squared distance from one line from which several partitions are tried.
    far: i64,
    /// The mean squared error of the best estimate with one partition from which several are tried:
    /// fine grain along one line gains from two partitions on it, which need fewer weight values.
    grain: i64,
    /// How many partitionings of two, three and four partitions each block tries.
    first: [usize; 3],
    /// How many partitionings of two partitions a hard block tries with a second plane.
    pub(crate) in_planes: usize,
    /// How many kinds of blocks are refined, at most 32, in hard blocks the second.
    pub(crate) refined: [usize; 2],
    /// How many of the refined blocks are handed out, 16 at most, in hard blocks the second.
    pub(crate) kept: [usize; 2],
    /// A block is hard if the mean squared error of its best estimate is at least this.
    hard: i64,
    /// A block is hard if its best estimate with one partition is also at least this number of
    /// quarters of the best of all.
    wins: i64,
    /// A block is worth a descent up to this number of sixteenths of the best error so far.
    ratio: u64,
    /// The sixteenths of the mean squared error up to which one partition is enough.
    enough: i64,
    /// How many kinds of blocks are refined then.
    pub(crate) easy: usize,
    /// Kinds whose estimates are under this number of sixteenths of the least are refined.
    pub(crate) slack: i64,
}

// No mean squared error reaches it.
static NEVER: i64 = 1 << 20;

// A number of sixteenths that limits nothing.
static ALL: i64 = 1 << 12;

// The numbers below were chosen by sums and instructions of the pictures that bench/pictures.sh
// puts into `chosen`. Each table has a row for blocks of up to 25 texels, of up to 64, and of more.
// Sums of errors and instructions of the whole search at 4x4 and 6x6, with QUICK if not said:
//
// - `ranked` of 64 and 48 instead of 40 and 30: 1 to 2 % less for 1.3 % more.
// - `tops` of 4 and 3, rejected: 0.2 % less for 2 % more.
// - `refined` of 4 instead of 3: 0.7 % less for 3 to 4 % more; 6 in hard blocks, rejected: 0.2 to
//   0.7 % less for 5 to 7 % more.
// - `hard` of 100 instead of 300: 0.3 to 0.5 % less for 1 %; of 40 instead of 100 in MEDIUM: 0.4 to
//   1.1 % less for 0.4 to 2 %.
// - `wins` of 5, rejected: 0.1 to 0.3 % less for 1 to 2 % more; of 4 in MEDIUM, rejected: 1 to 3 %
//   less for 12 to 16 % more.
// - `far` of 64 or 128, rejected: 7 to 15 % fewer instructions for up to 2.8 times the error.
//
// The same at 6x6 with QUICK, for parts of textures of 1,024 texels and for small pictures:
//
// - `enough` of 370, after the second planes: 4 % fewer instructions for 0.7 to 1.2 % more error;
//   before the second planes, rejected: 2.7 times the error of normal maps.
// - `plane` of 6 instead of 10, rejected: 2 % fewer for 0.1 to 0.7 %, but 6 % more in photographs
//   at 4x4.
// - `enough` of 1024 and of 4000 at 12x12: 1 and 4 % fewer for 0.4 and 0.6 % of textures, and up to
//   2 and 11 % of a small picture.
// - `slack` of 24 instead of none: 1 % fewer for 0.1 %; 22 at 12x12: 1 % fewer for the same; 18,
//   rejected: 3 % fewer for 0.7 %, and 8 % more in text at 4x4; 20, rejected: 2 % fewer for 0.5 %.
// - `grain` of 24, with `far` of 20, instead of `far` of 6: 1 % less error of fine grain, the worst
//   pictures, for 1 % more; of 16: 0.4 % less again for 2 %. In MEDIUM 12, with `far` of 24 and
//   `hard` of 20 instead of 40: 0.7 % less, 3 % less of fine grain, for 2 to 4 %. In THOROUGH 4:
//   0.5 % less, 4 % less of fine grain, for 2 %. `grain` without `far`, rejected: twice the error
//   of icons at 4x4. `grain` of 160 at 12x12, rejected: less than 0.1 % for 1.5 %.
// - `in_planes` of 1 instead of 0: 1.3 % less error, and 4 % less of pictures with alpha, for 2 %
//   more; at 4x4 of 2: 0.8 %, and 2 % of textures; with THOROUGH of 8: 2 to 8 % less for 3 %. At
//   12x12, rejected: 0.1 % less for 3 %.
// - `tops` of 6, 4 and 2 and `more` of 1, 1 and 0 instead of 6, 6 and 4 and of 2, 2 and 1 in
//   MEDIUM: 4 to 8 % fewer for 0.2 to 0.4 % more error; of 20, 16 and 12 and 4 in THOROUGH: 3 %
//   fewer for 0.2 %.
// - More than one second plane of a whole block, rejected: 0.1 % less in sum, but 4 % more in
//   normals, for 3 % more. A second plane in three partitions, rejected: less than 0.1 %.
// - Fewer sizes of grids, rejected: 6 to 11 % fewer for 4 to 10 % more error.

static QUICK: [Effort; 3] = [
    // In few texels three and four parts win little if two come as near as this, and cost much.
    Effort {
        reach: FitReach {
            ranked: [64, 48, 0],
            tops: [3, 2, 0],
            more: [0; 3],
            near: 32,
            plane: 10,
        },
        far: 16,
        grain: NEVER,
        first: [1, 1, 0],
        in_planes: 2,
        refined: [4, 4],
        kept: [1, 1],
        hard: 100,
        wins: 6,
        ratio: 16,
        enough: 8,
        easy: 2,
        slack: 24,
    },
    Effort {
        reach: FitReach {
            ranked: [64, 48, 0],
            tops: [3, 2, 0],
            more: [0; 3],
            near: 32,
            plane: 10,
        },
        far: 20,
        grain: 24,
        first: [1, 1, 0],
        in_planes: 1,
        refined: [4, 4],
        kept: [1, 1],
        hard: 100,
        wins: 6,
        ratio: 16,
        enough: 256,
        easy: 2,
        slack: 24,
    },
    Effort {
        reach: FitReach {
            ranked: [40, 30, 0],
            tops: [3, 2, 0],
            more: [0; 3],
            near: 32,
            plane: 9,
        },
        far: 20,
        grain: NEVER,
        first: [1, 1, 0],
        in_planes: 0,
        refined: [3, 3],
        kept: [1, 1],
        hard: 300,
        wins: 6,
        ratio: 16,
        enough: 2048,
        easy: 2,
        slack: 22,
    },
];

static MEDIUM: [Effort; 3] = [
    Effort {
        reach: FitReach {
            ranked: [120; 3],
            tops: [6, 4, 2],
            more: [1, 1, 0],
            near: 24,
            plane: 10,
        },
        far: 12,
        grain: 8,
        first: [1; 3],
        in_planes: 2,
        refined: [4, 6],
        kept: [1, 2],
        hard: 40,
        wins: 5,
        ratio: 24,
        enough: 0,
        easy: 4,
        slack: 28,
    },
    Effort {
        reach: FitReach {
            ranked: [120; 3],
            tops: [6, 4, 2],
            more: [1, 1, 0],
            near: 24,
            plane: 10,
        },
        far: 24,
        grain: 12,
        first: [1; 3],
        in_planes: 1,
        refined: [4, 6],
        kept: [1, 2],
        hard: 20,
        wins: 5,
        ratio: 24,
        enough: 0,
        easy: 4,
        slack: 28,
    },
    // A coarse grid can't follow a line, so that large blocks try more partitionings.
    Effort {
        reach: FitReach {
            ranked: [120; 3],
            tops: [6, 6, 4],
            more: [1, 1, 0],
            near: 0,
            plane: 10,
        },
        far: 20,
        grain: 64,
        first: [2; 3],
        in_planes: 0,
        refined: [4, 6],
        kept: [1, 2],
        hard: 400,
        wins: 5,
        ratio: 24,
        enough: 0,
        easy: 4,
        slack: ALL,
    },
];

static THOROUGH: [Effort; 3] = [
    Effort {
        reach: FitReach {
            ranked: [300, 300, 200],
            tops: [24, 24, 12],
            more: [2; 3],
            near: 0,
            plane: 10,
        },
        far: 8,
        grain: 2,
        first: [6, 6, 4],
        in_planes: 8,
        refined: [12, 32],
        kept: [6, 6],
        hard: NEVER,
        wins: 6,
        ratio: 24,
        enough: 0,
        easy: 12,
        slack: ALL,
    },
    Effort {
        reach: FitReach {
            ranked: [300, 300, 200],
            tops: [20, 16, 12],
            more: [4; 3],
            near: 0,
            plane: 10,
        },
        far: 8,
        grain: 4,
        first: [8, 8, 4],
        in_planes: 8,
        refined: [16, 32],
        kept: [8, 8],
        hard: 50,
        wins: 5,
        ratio: 24,
        enough: 0,
        easy: 12,
        slack: ALL,
    },
    Effort {
        reach: FitReach {
            ranked: [400, 400, 300],
            tops: [12; 3],
            more: [10; 3],
            near: 0,
            plane: 10,
        },
        far: 8,
        grain: 16,
        first: [6; 3],
        in_planes: 0,
        refined: [16, 24],
        kept: [8, 8],
        hard: 100,
        wins: 5,
        ratio: 24,
        enough: 0,
        easy: 12,
        slack: ALL,
    },
];

// The row of blocks of this number of texels.
fn row_of(efforts: &[Effort; 3], texels: usize) -> Effort {
    match texels {
        0..=25 => efforts[0],
        26..=64 => efforts[1],
        _ => efforts[2],
    }
}

impl Effort {
    /// The effort of a preset for blocks of this number of texels. The preset that lists no coded
    /// block has the least effort.
    pub fn of(preset: Preset, texels: usize) -> Effort {
        match preset {
            Preset::Flat | Preset::Quick | Preset::Pairs => row_of(&QUICK, texels),
            Preset::Medium => row_of(&MEDIUM, texels),
            Preset::Thorough => row_of(&THOROUGH, texels),
        }
    }

    /// The number of partitionings with this number of partitions that each block tries.
    pub(crate) fn first_of(&self, parts: u8) -> usize {
        self.first[usize::from(parts).wrapping_sub(2).min(2)]
    }

    /// Whether a block of this number of texels is hard, if its best estimates with one partition
    /// and in all have these errors, in 1/256: if several partitions gain much, other partitionings
    /// may gain more.
    pub(crate) fn is_hard(&self, texels: usize, flat: Number, least: Number) -> bool {
        let count = number(i64::try_from(texels).unwrap_or(0));
        least >= (count * number(self.hard)) << 8 || (flat << 2) >= least * number(self.wins)
    }

    /// Whether a block of this number of texels tries several partitions, if its texels have this
    /// sum of squared distances from one line, and its best estimate with one partition has this
    /// error, in 1/256.
    pub(crate) fn tries_partitions(&self, texels: usize, line: Number, flat: Number) -> bool {
        let count = number(i64::try_from(texels).unwrap_or(0));
        line >= count * number(self.far) || flat >= (count * number(self.grain)) << 8
    }

    /// Whether the best estimate with one partition, in 1/256, is enough for a block
    /// of this number of texels.
    pub(crate) fn is_enough(&self, texels: usize, least: Number) -> bool {
        let count = number(i64::try_from(texels).unwrap_or(0));
        least <= (count * number(self.enough)) << 4 && self.enough > 0
    }

    /// Whether a fitted block of this error is worth a descent beside a block of that one.
    pub fn is_worth(&self, error: u32, best: u32) -> bool {
        u64::from(error).wrapping_mul(16) <= u64::from(best).wrapping_mul(self.ratio)
    }
}

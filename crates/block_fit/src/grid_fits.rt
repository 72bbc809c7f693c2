// The distance of the grids of modes from the ideal weights.
ghost use Rattle.std.specs.Prelude.{◌<◌};

use crate::modes::Usable;
use crate::tables::Kinds;
use astc_model::Mode;
use ideal_weights::{
    GridPoints, IdealWeights, Lanes, MOST, Number, Placing, PointSums, TargetWeights, Texels,
    Totals, WeightGrid, greatest_of, lanes, number, quotient,
};
use std::num::Wrapping;

/// The points of a plane, and how much the square of each one's deviation counts: its gain times
/// that of all.
#[derive(Clone, Copy)]
struct Placed {
    points: GridPoints,
    gains: PointSums,
    most: Number,
}

/// The distance of the last grid from the ideal weights.
#[derive(Clone, Copy)]
pub struct GridFit {
    across: u8,
    down: u8,
    /// About the error of the weights that its points give the texels.
    pub miss: Number,
    /// By plane.
    planes: [Placed; 2],
    /// By the columns of a grid the most rows with which it is known to miss too much.
    hopeless: [u8; 16],
}

/// The weights that the texels of a layout should have.
#[derive(Clone, Copy)]
pub struct Subject<'a> {
    pub texels: &'a Texels,
    pub ideal: &'a IdealWeights,
    /// By plane.
    pub sensitivities: &'a [Lanes; 2],
}

// The squares of what 16 times the numbers that texels have miss of the weights that they should
// have, over the places of a mask.
#[inline(always)]
fn squares_of<const W: usize, const H: usize>(
    numbers: &Lanes,
    wanted: &Lanes,
    mask: &Lanes,
) -> Number {
    let mut sum = 0i32;
    for p in 0..lanes::<W, H>() {
        let apart = i32::from((numbers[p] >> 5).wrapping_sub(wanted[p]) & mask[p]);
        sum = sum.wrapping_add(apart.wrapping_mul(apart));
    }
    number(i64::from(sum))
}

// The approximate error, in 1/256, of the weights that points give to the texels of a plane: the
// squares of the differences, times the squared length of the line of each partition.
fn miss_of<const W: usize, const H: usize>(
    subject: &Subject,
    plane: usize,
    numbers: &Lanes,
) -> Number {
    let ideal = subject.ideal;
    let (wanted, lengths) = (
        &ideal.wants.weights[plane & 1],
        &ideal.wants.lengths[plane & 1],
    );
    let mut miss = number(0);
    for part in 0..usize::from(ideal.layout.parts).min(4) {
        let sum = squares_of::<W, H>(numbers, wanted, &ideal.masks[part]);
        miss += (sum * (lengths[part] + number(1))) >> 10;
    }
    miss
}

// About the error of rounding the points of a column to one of `steps` even steps: the squares of
// their distances from the nearest step, in 1/4096 of the square of one, each as often as its gain.
#[inline(always)]
fn noise_of_column(points: &[i16; 16], gains: &[i32; 16], steps: i32, lanes: usize) -> i32 {
    let mut total = 0i32;
    for r in 0..lanes.min(16) {
        let along = i32::from(points[r]).wrapping_mul(steps).wrapping_add(512);
        let apart = (along & 1023).wrapping_sub(512);
        let square = apart.wrapping_mul(apart) >> 8;
        total = total.wrapping_add(square.wrapping_mul(gains[r]));
    }
    total
}

static NO_POINTS: Placed = Placed {
    points: [[0; 16]; 16],
    gains: [[0; 16]; 16],
    most: Wrapping(0),
};

impl Placed {
    // Takes the points of a grid.
    #[inline(always)]
    fn take(&mut self, grid: &WeightGrid, points: &GridPoints, most: Number, own: Option<&Totals>) {
        self.most = most;
        for c in 0..grid.width() {
            self.points[c] = points[c];
            grid.put_gains(&mut self.gains[c], c, own);
        }
    }

    // The approximate error, in 1/256, of rounding the points of this number of columns to one of
    // `steps` even steps, times the square of `steps`.
    #[inline(always)]
    fn noise(&self, columns: usize, steps: i32, lanes: usize) -> Number {
        let mut total = number(0);
        for c in 0..columns.min(16) {
            let own = noise_of_column(&self.points[c], &self.gains[c], steps, lanes);
            total += number(i64::from(own));
        }
        total * self.most >> 12
    }
}

/// At none yet.
pub static NO_GRID_FIT: GridFit = GridFit {
    across: 0,
    down: 0,
    miss: MOST,
    planes: [NO_POINTS; 2],
    hopeless: [0; 16],
};

impl GridFit {
    /// Makes ready for another layout.
    pub fn forget(&mut self) {
        self.across = 0;
        self.down = 0;
        self.miss = MOST;
        self.hopeless = [0; 16];
    }

    fn is_at(&self, mode: &Mode) -> bool {
        self.across == mode.across && self.down == mode.down
    }

    /// Whether a grid with no fewer columns and rows misses too much.
    pub fn is_hopeless(&self, mode: &Mode) -> bool {
        mode.down <= self.hopeless[usize::from(mode.across & 15)]
    }

    fn give_up(&mut self) {
        let columns = usize::from(self.across).wrapping_add(1);
        for across in 0..columns.min(16) {
            self.hopeless[across] = self.down.max(self.hopeless[across]);
        }
    }

    /// Looks at the grid of a mode, if it is not the last one, until it misses as much as the
    /// limit.
    pub fn turn_to<const W: usize, const H: usize>(
        &mut self,
        usable: &Usable,
        kinds: &Kinds,
        subject: &Subject,
        limit: Number,
        placing: &mut Placing,
    ) {
        let mode = &usable.mode;
        if self.is_at(mode) {
            return;
        }
        match kinds.grid(usable.grid) {
            Some(grid) => self.look_at::<W, H>(grid, subject, limit, placing),
            None => self.look_at_new::<W, H>(mode.across, mode.down, subject, limit, placing),
        }
    }

    // Tries a grid of this number of columns and rows, which is made for the call.
    #[inline(never)]
    fn look_at_new<const W: usize, const H: usize>(
        &mut self,
        across: u8,
        down: u8,
        subject: &Subject,
        limit: Number,
        placing: &mut Placing,
    ) {
        let grid = WeightGrid::of::<W, H>(across, down);
        self.look_at::<W, H>(&grid, subject, limit, placing);
    }

    #[inline(never)]
    fn look_at<const W: usize, const H: usize>(
        &mut self,
        grid: &WeightGrid,
        subject: &Subject,
        limit: Number,
        placing: &mut Placing,
    ) {
        self.across = grid.across;
        self.down = grid.down;
        self.miss = number(0);
        for plane in 0..subject.ideal.layout.planes() {
            self.look_at_plane::<W, H>(grid, subject, plane & 1, limit, placing);
            if self.miss >= limit {
                self.give_up();
                return;
            }
        }
    }

    // If the miss is over the limit, nothing else is computed.
    fn look_at_plane<const W: usize, const H: usize>(
        &mut self,
        grid: &WeightGrid,
        subject: &Subject,
        plane: usize,
        limit: Number,
        placing: &mut Placing,
    )
        requires plane { plane < 2 }
    {
        let ideal = subject.ideal;
        let sensitivities = &subject.sensitivities[plane];
        placing.take::<W, H>(grid, ideal.layout.parts, sensitivities, subject.texels);
        let targets = TargetWeights::new(&ideal.wants.weights[plane], sensitivities);
        placing.place::<W, H>(grid, plane, &targets, 1);
        self.miss += miss_of::<W, H>(subject, plane, &placing.numbers);
        if self.miss < limit {
            let most = greatest_of(&ideal.wants.lengths[plane]) + number(1);
            self.planes[plane].take(grid, &placing.points, most, placing.totals());
        }
    }

    /// The approximate error of rounding the points to a level, as if its values were evenly
    /// spaced: this number of sixteenths of it, since settled colours and weights regain some of
    /// it.
    pub fn noise(&self, mode: &Mode, sixteenths: i64) -> Number {
        let steps = i32::from(mode.level.count()).wrapping_sub(1);
        let columns = usize::from(mode.across);
        let mut total = number(0);
        for plane in 0..usize::from(mode.planes).min(2) {
            let own = &self.planes[plane];
            total += if mode.down <= 8 {
                own.noise(columns, steps, 8)
            } else {
                own.noise(columns, steps, 16)
            };
        }
        let steps = number(i64::from(steps));
        quotient(total * number(sixteenths) >> 4, steps * steps)
    }
}

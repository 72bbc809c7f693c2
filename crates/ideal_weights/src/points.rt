// Computes the grid points whose interpolation is closest to the ideal weights of a plane.
use crate::grids::{
    GridPoints, Interim, NO_INTERIM, NO_TARGETS, NO_TOTALS, PlaneTargets, PointSums, Totals,
    WeightGrid, move_column, put_column,
};
use crate::ideal::IdealWeights;
use crate::numbers::{Number, number, quotient};
use crate::texels::{Lanes, Texels, eight, eights, lanes};

/// Sets the sensitivity of each texel, 1 to 16: how much its weight counts in a plane. Texels of
/// the partition with the longest line have the greatest sensitivity; places outside the image have
/// 0.
pub fn put_sensitivities<const W: usize, const H: usize>(
    sensitivities: &mut Lanes,
    ideal: &IdealWeights,
    lengths: &[Number; 4],
) {
    let parts = ideal.layout.parts.min(4);
    let by_part = sensitivities_by_part(parts, lengths);
    put_counted::<W, H>(sensitivities, &ideal.masks[0], by_part[0]);
    for part in 1..usize::from(parts).min(4) {
        add_counted::<W, H>(sensitivities, &ideal.masks[part], by_part[part]);
    }
}

// Sets a number at the places of a mask, and 0 elsewhere.
fn put_counted<const W: usize, const H: usize>(numbers: &mut Lanes, mask: &Lanes, own: i16) {
    for p in 0..lanes::<W, H>() {
        numbers[p] = mask[p] & own;
    }
}

// Sets a number at the places of a mask, which have 0 before.
fn add_counted<const W: usize, const H: usize>(numbers: &mut Lanes, mask: &Lanes, own: i16) {
    for p in 0..lanes::<W, H>() {
        numbers[p] |= mask[p] & own;
    }
}

fn sensitivities_by_part(parts: u8, lengths: &[Number; 4]) -> [i16; 4] {
    let mut sensitivities = [16; 4];
    if parts > 1 {
        let most = greatest_of(lengths) + number(1);
        for part in 0..4 {
            let share = quotient(lengths[part] * number(15), most);
            sensitivities[part] = share.0.clamp(0, 15) as i16 + 1;
        }
    }
    sensitivities
}

/// Returns the greatest of four squared lengths.
pub fn greatest_of(lengths: &[Number; 4]) -> Number {
    lengths[0].max(lengths[1]).max(lengths[2].max(lengths[3]))
}

// The number of passes that move the points after these were computed as if all texels had the same
// sensitivity. In small blocks such passes gain nothing.
#[inline(always)]
fn uneven_passes<const W: usize, const H: usize>() -> u32 {
    if W.wrapping_mul(H) <= 25 { 0 } else { 1 }
}

/// The ideal weights of the texels, which the points of a grid should give.
#[derive(Clone, Copy)]
pub struct TargetWeights<'a> {
    /// The ideal weight of each texel, 0 to 512.
    wanted: &'a Lanes,
    /// The sensitivity of each texel, 0 to 16.
    sensitivities: &'a Lanes,
}

impl<'a> TargetWeights<'a> {
    /// Returns the targets with these ideal weights and sensitivities.
    pub fn new(wanted: &'a Lanes, sensitivities: &'a Lanes) -> TargetWeights<'a> {
        TargetWeights {
            wanted,
            sensitivities,
        }
    }

    // Sets for each texel its ideal weight times its sensitivity: all of it is missing before there
    // are points.
    #[inline(always)]
    fn put_wants<const W: usize, const H: usize>(&self, lacks: &mut Lanes) {
        for group in 0..eights::<W, H>() {
            let (wanted, counts) = (eight(self.wanted, group), eight(self.sensitivities, group));
            for k in 0..8 {
                lacks[group * 8 + k] = wanted[k].wrapping_mul(counts[k]);
            }
        }
    }

    // Sets for each texel the missing weight (ideal minus interpolated) times its sensitivity.
    #[inline(always)]
    fn put_lacks<const W: usize, const H: usize>(&self, lacks: &mut Lanes, numbers: &Lanes) {
        let (wanted, sensitivities) = (self.wanted, self.sensitivities);
        for p in 0..lanes::<W, H>() {
            lacks[p] = wanted[p]
                .wrapping_sub(numbers[p] >> 5)
                .wrapping_mul(sensitivities[p]);
        }
    }
}

/// The points of a grid, 0 to 1024, and 16 times the numbers that they give to the texels, with
/// scratch memory. One value is reused from grid to grid, so that no memory is cleared.
#[derive(Clone, Copy)]
pub struct Placing {
    pub points: GridPoints,
    pub numbers: Lanes,
    // The ideal weights of each plane.
    planes: [PlaneTargets; 2],
    // The missing weights of texels, and their sums by point.
    lacks: Lanes,
    sums: PointSums,
    interim: Interim,
    // The sums of the sensitivities of the grid's texels, if they are not all 16.
    totals: Totals,
    is_uneven: bool,
    is_whole: bool,
}

/// The initial value, before the points of a grid are computed.
pub static NO_PLACING: Placing = Placing {
    points: [[0; 16]; 16],
    numbers: [0; 160],
    planes: [NO_TARGETS; 2],
    lacks: [0; 160],
    sums: [[0; 16]; 16],
    interim: NO_INTERIM,
    totals: NO_TOTALS,
    is_uneven: false,
    is_whole: false,
};

impl Placing {
    /// Sets the ideal weights of a plane, 0 to 512, for the next grids.
    pub fn turn_to<const W: usize, const H: usize>(&mut self, plane: usize, wanted: &Lanes) {
        self.planes[plane & 1].turn_to::<W, H>(wanted);
    }

    /// Sets the sensitivities of the texels under a grid, for blocks with `parts` partitions.
    pub fn take<const W: usize, const H: usize>(
        &mut self,
        grid: &WeightGrid,
        parts: u8,
        sensitivities: &Lanes,
        texels: &Texels,
    ) {
        self.is_uneven = parts > 1 || !texels.whole;
        self.is_whole = texels.whole;
        if self.is_uneven {
            for p in 0..lanes::<W, H>() {
                self.lacks[p] = sensitivities[p].wrapping_mul(512);
            }
            if grid.is_low::<H>() {
                self.gather::<W, H, 1>(grid);
            } else {
                self.gather::<W, H, 2>(grid);
            }
            grid.put_totals(&mut self.totals, &self.sums);
        }
    }

    /// Returns the sums of the sensitivities that were set last; None if each texel has 16.
    pub fn totals(&self) -> Option<&Totals> {
        if self.is_uneven {
            Some(&self.totals)
        } else {
            None
        }
    }

    // Sums up the missing weights by point.
    #[inline(always)]
    fn gather<const W: usize, const H: usize, const EIGHTS: usize>(&mut self, grid: &WeightGrid) {
        let interim = &mut self.interim;
        grid.gather::<W, H, EIGHTS>(&mut self.sums, &self.lacks, interim);
    }

    // Computes the numbers that the points give to the texels.
    #[inline(always)]
    fn infill<const W: usize, const H: usize, const EIGHTS: usize>(&mut self, grid: &WeightGrid) {
        let interim = &mut self.interim;
        grid.infill::<W, H, EIGHTS>(&mut self.numbers, &self.points, interim);
    }

    // Sets the points to the weighted mean of the ideal weights around them.
    #[inline(always)]
    fn put_points<const EIGHTS: usize>(&mut self, grid: &WeightGrid) {
        for c in 0..grid.width() {
            let (sums, own) = (&self.sums[c], &self.totals.shares[c]);
            let shares = if self.is_uneven { own } else { &grid.shares[c] };
            put_column::<EIGHTS>(&mut self.points[c], sums, shares);
        }
    }

    // Moves the points by twice the weighted mean of the missing weights around them. Returns
    // whether any point moves.
    #[inline(always)]
    fn move_points<const EIGHTS: usize>(&mut self, grid: &WeightGrid) -> bool {
        let mut moved = 0;
        for c in 0..grid.width() {
            let (sums, own) = (&self.sums[c], &self.totals.shares[c]);
            let shares = if self.is_uneven { own } else { &grid.shares[c] };
            moved |= move_column::<EIGHTS>(&mut self.points[c], sums, shares);
        }
        moved != 0
    }

    // Computes the points for a plane. `EIGHTS` is the number of groups of eight that hold a column
    // of points.
    #[inline(always)]
    fn place_in<const W: usize, const H: usize, const EIGHTS: usize>(
        &mut self,
        grid: &WeightGrid,
        plane: usize,
        targets: &TargetWeights,
        passes: u32,
    ) {
        let passes = if self.is_whole {
            self.planes[plane & 1].put_points::<W, H, EIGHTS>(&mut self.points, grid);
            if self.is_uneven {
                uneven_passes::<W, H>()
            } else {
                0
            }
        } else {
            targets.put_wants::<W, H>(&mut self.lacks);
            self.gather::<W, H, EIGHTS>(grid);
            self.put_points::<EIGHTS>(grid);
            passes
        };
        self.infill::<W, H, EIGHTS>(grid);
        for _pass in 0..passes {
            targets.put_lacks::<W, H>(&mut self.lacks, &self.numbers);
            self.gather::<W, H, EIGHTS>(grid);
            if !self.move_points::<EIGHTS>(grid) {
                return;
            }
            self.infill::<W, H, EIGHTS>(grid);
        }
    }

    /// Computes points whose interpolation is close to the ideal weights of a plane, in at most
    /// `passes` passes; a pass that moves no point is the last.
    #[inline(always)]
    pub fn place<const W: usize, const H: usize>(
        &mut self,
        grid: &WeightGrid,
        plane: usize,
        targets: &TargetWeights,
        passes: u32,
    ) {
        if grid.is_low::<H>() {
            self.place_in::<W, H, 1>(grid, plane, targets, passes);
        } else {
            self.place_in::<W, H, 2>(grid, plane, targets, passes);
        }
    }

    /// Computes the numbers that the points give to the texels.
    #[inline(always)]
    pub fn show<const W: usize, const H: usize>(&mut self, grid: &WeightGrid) {
        if grid.is_low::<H>() {
            self.infill::<W, H, 1>(grid);
        } else {
            self.infill::<W, H, 2>(grid);
        }
    }
}

// Weight grids over blocks: an approximate inverse of the weight infill, which finds grid points
// for given weights of texels. Numbers are integers in small units, so that eight or sixteen fit
// into a vector.
ghost use Rattle.std.specs.Prelude.{◌<◌, ◌≤◌};

use crate::texels::Lanes;

/// A number for each point of a grid: by column, then by row from the top; 0 after the last row.
pub type GridPoints = [[i16; 16]; 16];

// A number for each position of a block's columns: by column, then by row from the top.
type ColumnNumbers = [[i16; 16]; 12];

/// A sum for each point of a grid: by column, then by row from the top.
pub type PointSums = [[i32; 16]; 16];

// The number of vector lanes for a row of `N` texels.
#[inline(always)]
fn wide<const N: usize>() -> usize
    ensures { result ≤ 16 }
{
    if N <= 8 { 8 } else { 16 }
}

// The number of vector lanes for `EIGHTS` groups of eight.
#[inline(always)]
fn tall<const EIGHTS: usize>() -> usize
    ensures { result ≤ 16 }
{
    if EIGHTS <= 1 { 8 } else { 16 }
}

/// The columns (or rows) of a block relative to those of a grid: how each texel is interpolated
/// between two points along this direction (Khronos Data Format Specification, ASTC, "Weight
/// Infill"). The number of texels is that of a row (or column).
#[derive(Clone, Copy)]
pub struct GridAxis {
    /// For each texel, the last grid point that is not after the texel.
    before: [u8; 12],
    /// For each texel, its distance after the point in `before`, in sixteenths of the distance
    /// between two points.
    beyond: [i16; 12],
    /// For each grid point, the sum of its factors in all texels, in sixteenths.
    shares: [i32; 16],
    /// For each grid point, the sum of the squares of its factors, in 1/256.
    squares: [i32; 16],
    /// For each texel and grid point, the factor of the texel's number in the point's, in 1/4096.
    /// With points that are computed so, the interpolation nearly gives back the numbers of the
    /// texels.
    inverse: [[i16; 16]; 12],
    /// For each grid point, half of the number of texels: the mean loss of a sum of as many
    /// products that are rounded down.
    lost: [i16; 16],
}

impl GridAxis {
    // The positions of `texels` texels among `places` grid points.
    fn of(texels: usize, places: u8) -> GridAxis {
        let mut axis = GridAxis {
            before: [0; 12],
            beyond: [0; 12],
            shares: [0; 16],
            squares: [0; 16],
            inverse: [[0; 16]; 12],
            lost: [0; 16],
        };
        let scale = (texels / 2)
            .wrapping_add(1024)
            .checked_div(texels.wrapping_sub(1))
            .unwrap_or(0);
        let step = scale.wrapping_mul(usize::from(places).wrapping_sub(1));
        let mut along = 32usize;
        for k in 0..texels.min(12) {
            axis.before[k] = (along >> 10 & 15) as u8;
            axis.beyond[k] = (along >> 6 & 15) as i16;
            along = along.wrapping_add(step);
        }
        for place in 0..usize::from(places).min(16) {
            axis.lost[place] = (texels.min(12) / 2) as i16;
        }
        axis.put_shares(texels);
        axis.put_inverse(texels);
        axis
    }

    // Computes `inverse`, texel by texel.
    fn put_inverse(&mut self, texels: usize) {
        for texel in 0..texels.min(12) {
            let mut response = NO_RESPONSE;
            response.wanted[texel] = ONE;
            response.turn(self, texels, 1);
            for _pass in 0..INVERSE_PASSES {
                response.turn(self, texels, 2);
            }
            for place in 0..12 {
                let own = response.places[place].clamp(-ONE_BY_EIGHT, ONE_BY_EIGHT) >> 8;
                self.inverse[texel][place] = own.clamp(-32768, 32767) as i16;
            }
        }
    }

    fn put_shares(&mut self, texels: usize) {
        for k in 0..texels.min(12) {
            let place = usize::from(self.before[k] & 15);
            let share = i32::from(self.beyond[k]);
            self.add_share(place, 16i32.wrapping_sub(share));
            self.add_share(place.wrapping_add(1) & 15, share);
        }
    }

    fn add_share(&mut self, place: usize, share: i32) {
        let own = place & 15;
        self.shares[own] = self.shares[own].wrapping_add(share);
        self.squares[own] = self.squares[own].wrapping_add(share.wrapping_mul(share));
    }
}

// The number 1 in the units of responses, and 8, their limit.
static ONE: i32 = 1 << 20;

static ONE_BY_EIGHT: i32 = 1 << 23;

// The number of passes in which the points of a response move.
static INVERSE_PASSES: u32 = 8;

// The numbers of the grid points that best give 1 to a single texel and 0 to the others.
#[derive(Clone, Copy)]
struct Response {
    wanted: [i32; 12],
    places: [i32; 16],
}

static NO_RESPONSE: Response = Response {
    wanted: [0; 12],
    places: [0; 16],
};

impl Response {
    // The number that a texel should have minus the one that the points give to it.
    fn lack(&self, axis: &GridAxis, texel: usize) -> i32
        requires { texel < 12 }
    {
        let place = usize::from(axis.before[texel] & 15);
        let beyond = i32::from(axis.beyond[texel]);
        let from = self.places[place].wrapping_mul(16i32.wrapping_sub(beyond));
        let to = self.places[place.wrapping_add(1) & 15].wrapping_mul(beyond);
        self.wanted[texel].wrapping_sub(from.wrapping_add(to) >> 4)
    }

    // Moves each point by `times` times the mean of the lacks around it.
    fn turn(&mut self, axis: &GridAxis, texels: usize, times: i32) {
        let mut sums = [0i32; 16];
        for texel in 0..texels.min(12) {
            let lack = self.lack(axis, texel);
            let place = usize::from(axis.before[texel] & 15);
            let next = place.wrapping_add(1) & 15;
            let beyond = i32::from(axis.beyond[texel]);
            let rest = 16i32.wrapping_sub(beyond);
            sums[place] = sums[place].wrapping_add(lack.wrapping_mul(rest));
            sums[next] = sums[next].wrapping_add(lack.wrapping_mul(beyond));
        }
        for place in 0..16 {
            let mean = sums[place].checked_div(axis.shares[place]).unwrap_or(0);
            self.places[place] = self.places[place].wrapping_add(mean.wrapping_mul(times));
        }
    }
}

/// The sums of the sensitivities around each point of a grid. A texel's sensitivity, 1 to 16, is
/// how much its weight counts.
#[derive(Clone, Copy)]
pub struct Totals {
    /// For each point, 32 times the sum of the sensitivities, each times the point's factor in the
    /// texel.
    pub sums: PointSums,
    /// For each point, 2^20 divided by `sums`.
    pub shares: PointSums,
}

/// Scratch memory between the two directions of an infill: numbers by row of grid points, and by
/// column of texels.
#[derive(Clone, Copy)]
pub struct Interim {
    rows: GridPoints,
    columns: GridPoints,
}

/// The initial scratch memory, before the first infill.
pub static NO_INTERIM: Interim = Interim {
    rows: [[0; 16]; 16],
    columns: [[0; 16]; 16],
};

/// A weight grid over a block.
#[derive(Clone, Copy)]
pub struct WeightGrid {
    pub across: u8,
    pub down: u8,
    columns: GridAxis,
    rows: GridAxis,
    /// The `shares` of [`Totals`] for a block in which each texel has the sensitivity 16.
    pub shares: PointSums,
}

// The weights of the rows of texels, projected onto the columns of a grid, in units of 1/32 of
// those of the ideal weights.
#[derive(Clone, Copy)]
struct RowProjection {
    is_known: bool,
    columns: ColumnNumbers,
}

static NO_PROJECTION: RowProjection = RowProjection {
    is_known: false,
    columns: [[0; 16]; 12],
};

/// The ideal weights of the texels of a plane, by column, and their projections onto the columns of
/// grids. A projection is computed for the first grid of a width and kept for the others.
#[derive(Clone, Copy)]
pub struct PlaneTargets {
    // The ideal weights times 32.
    texels: ColumnNumbers,
    // By the number of columns of a grid.
    projections: [RowProjection; 13],
}

/// The initial value, before the ideal weights of a plane are set.
pub static NO_TARGETS: PlaneTargets = PlaneTargets {
    texels: [[0; 16]; 12],
    projections: [NO_PROJECTION; 13],
};

impl PlaneTargets {
    /// Sets the ideal weights of a plane, 0 to 512, and forgets all projections.
    pub fn turn_to<const W: usize, const H: usize>(&mut self, wanted: &Lanes) {
        for own in self.projections.iter_mut() {
            own.is_known = false;
        }
        for x in 0..W.min(12) {
            for y in 0..H.min(12) {
                let own = wanted[y.wrapping_mul(W).wrapping_add(x).min(159)];
                self.texels[x][y] = own.wrapping_mul(32);
            }
        }
    }

    // The projection onto the columns of a grid.
    #[inline(always)]
    fn projection<const W: usize, const H: usize>(&mut self, grid: &WeightGrid) -> &ColumnNumbers {
        let own = &mut self.projections[grid.width()];
        if !own.is_known {
            own.is_known = true;
            grid.put_projection::<W, H>(&mut own.columns, &self.texels);
        }
        &own.columns
    }

    /// Computes points of a grid, 0 to 1024, whose interpolation is close to the ideal weights. All
    /// texels count the same.
    #[inline(always)]
    pub fn put_points<const W: usize, const H: usize, const EIGHTS: usize>(
        &mut self,
        points: &mut GridPoints,
        grid: &WeightGrid,
    ) {
        grid.put_points::<H, EIGHTS>(points, self.projection::<W, H>(grid));
    }
}

/// The initial value, before the sums of a grid are computed.
pub static NO_TOTALS: Totals = Totals {
    sums: [[0; 16]; 16],
    shares: [[0; 16]; 16],
};

// 2^20 divided by each of the first `count` numbers of a column, and 0 after them.
fn put_shares(shares: &mut [i32; 16], sums: &[i32; 16], count: usize) {
    *shares = [0; 16];
    for r in 0..count.min(16) {
        shares[r] = 0x10_0000i32.checked_div(sums[r]).unwrap_or(0);
    }
}

/// Sets the points of a column, 0 to 1024, to the weighted mean of the ideal weights around them.
/// `lacks` has the sums of the weights, `shares` the inverse sums of the sensitivities.
#[inline(always)]
pub fn put_column<const EIGHTS: usize>(
    points: &mut [i16; 16],
    lacks: &[i32; 16],
    shares: &[i32; 16],
) {
    let (lacks, shares) = (*lacks, *shares);
    for r in 0..tall::<EIGHTS>() {
        let more = (lacks[r] >> 2).wrapping_mul(shares[r]) >> 10;
        points[r] = more.clamp(0, 1024) as i16;
    }
}

/// Moves the points of a column by twice the weighted mean of the missing weights around them.
/// Returns 0 if no point moves.
#[inline(always)]
pub fn move_column<const EIGHTS: usize>(
    points: &mut [i16; 16],
    lacks: &[i32; 16],
    shares: &[i32; 16],
) -> i16 {
    let (old, lacks, shares) = (*points, *lacks, *shares);
    let mut moved = 0;
    for r in 0..tall::<EIGHTS>() {
        let more = (lacks[r] >> 2).wrapping_mul(shares[r]) >> 9;
        let point = i32::from(old[r]).wrapping_add(more).clamp(0, 1024) as i16;
        moved |= point ^ old[r];
        points[r] = point;
    }
    moved
}

// A quarter of each sum.
fn put_quarters(quarters: &mut [i32; 16], sums: &[i32; 16]) {
    let sums = *sums;
    for r in 0..16 {
        quarters[r] = sums[r] >> 2;
    }
}

// 16 times the number that is `sixteenths` of the way from one to another.
#[inline(always)]
fn between(from: i16, to: i16, sixteenths: i16) -> i16 {
    let way = to.wrapping_sub(from).wrapping_mul(sixteenths);
    from.wrapping_mul(16).wrapping_add(way)
}

// The numbers of a row that are `sixteenths` of the way from one row to another, times 16.
#[inline(always)]
fn set_between(row: &mut [i16], from: &[i16; 16], to: &[i16; 16], sixteenths: i16) {
    let (from, to) = (*from, *to);
    for x in 0..row.len().min(16) {
        row[x] = between(from[x], to[x], sixteenths);
    }
}

// The first `lanes` numbers of a column that are `sixteenths` of the way from one column to
// another.
#[inline(always)]
fn put_between(column: &mut [i16; 16], ends: [&[i16; 16]; 2], sixteenths: i16, lanes: usize) {
    let (from, to) = (*ends[0], *ends[1]);
    for y in 0..lanes.min(16) {
        column[y] = between(from[y], to[y], sixteenths) >> 4;
    }
}

// Copies entry `at` of each column to a row.
#[inline(always)]
fn put_across(row: &mut [i16; 16], columns: &GridPoints, at: usize, lanes: usize) {
    for x in 0..lanes.min(16) {
        row[x] = columns[x][at & 15];
    }
}

// A copy of a row, so that reads of the copy do not overlap the writes.
#[inline(always)]
fn held(row: &[i16]) -> [i16; 16] {
    let mut own = [0; 16];
    for x in 0..row.len().min(16) {
        own[x] = row[x];
    }
    own
}

// Adds to the sums the upper 16 bits of the products of numbers and a factor.
#[inline(always)]
fn add_products(sums: &mut [i16; 16], numbers: &[i16; 16], factor: i16, lanes: usize) {
    for k in 0..lanes.min(16) {
        let product = i32::from(numbers[k]).wrapping_mul(i32::from(factor)) >> 16;
        sums[k] = sums[k].wrapping_add(product as i16);
    }
}

// Adds to the sums the numbers times `sixteenths` / 64.
#[inline(always)]
fn add_shares(sums: &mut [i16; 16], numbers: &[i16; 16], sixteenths: i16, lanes: usize) {
    let factor = sixteenths.wrapping_mul(1024);
    for x in 0..lanes.min(16) {
        let share = i32::from(numbers[x]).wrapping_mul(i32::from(factor)) >> 16;
        sums[x] = sums[x].wrapping_add(share as i16);
    }
}

// A number times `sixteenths` / 16.
#[inline(always)]
fn share_of(number: i16, sixteenths: i16) -> i32 {
    i32::from(number).wrapping_mul(i32::from(sixteenths)) >> 4
}

#[inline(always)]
fn clear(sums: &mut [i32; 16], lanes: usize) {
    for y in 0..lanes.min(16) {
        sums[y] = 0;
    }
}

// Adds to the sums the first `lanes` numbers of a column times `1 - sixteenths / 16`.
#[inline(always)]
fn add_rests(sums: &mut [i32; 16], column: &[i16; 16], sixteenths: i16, lanes: usize) {
    for y in 0..lanes.min(16) {
        let rest = i32::from(column[y]).wrapping_sub(share_of(column[y], sixteenths));
        sums[y] = sums[y].wrapping_add(rest);
    }
}

// Adds to the sums the first `lanes` numbers of a column times `sixteenths / 16`.
#[inline(always)]
fn add_sixteenths(sums: &mut [i32; 16], column: &[i16; 16], sixteenths: i16, lanes: usize) {
    for y in 0..lanes.min(16) {
        sums[y] = sums[y].wrapping_add(share_of(column[y], sixteenths));
    }
}

impl WeightGrid {
    /// Returns a grid of `across` columns and `down` rows of points, 2 to 12 each, over a block of
    /// `W` by `H` texels.
    pub fn of<const W: usize, const H: usize>(across: u8, down: u8) -> WeightGrid {
        let mut grid = WeightGrid {
            across,
            down,
            columns: GridAxis::of(W, across),
            rows: GridAxis::of(H, down),
            shares: [[0; 16]; 16],
        };
        for c in 0..grid.width() {
            let mut sums = [0; 16];
            grid.put_even(&mut sums, c);
            put_shares(&mut grid.shares[c], &sums, usize::from(down));
        }
        grid
    }

    /// Returns the number of columns of points, at most 12.
    #[inline]
    pub fn width(&self) -> usize
        ensures { result ≤ 12 }
    {
        usize::from(self.across).min(12)
    }

    /// Returns the number of rows of points, at most 12.
    #[inline]
    pub fn height(&self) -> usize
        ensures { result ≤ 12 }
    {
        usize::from(self.down).min(12)
    }

    /// Returns whether a column of points fits into eight lanes.
    #[inline(always)]
    pub fn is_low<const H: usize>(&self) -> bool {
        H <= 8 || self.down <= 8
    }

    // Computes the sums of the sensitivities of a column of points if each texel has 16.
    fn put_even(&self, sums: &mut [i32; 16], column: usize) {
        let own = self.columns.shares[column & 15].wrapping_mul(2);
        for r in 0..16 {
            sums[r] = own.wrapping_mul(self.rows.shares[r]);
        }
    }

    /// Computes how much the squared deviation of each point of a column counts: the sum of the
    /// squares of its factors, in 1/256, reduced if the texels around the point have low
    /// sensitivities; 0 after the last row.
    #[inline(always)]
    pub fn put_gains(&self, gains: &mut [i32; 16], column: usize, own: Option<&Totals>) {
        let squares = self.columns.squares[column & 15];
        for r in 0..16 {
            gains[r] = squares.wrapping_mul(self.rows.squares[r]) >> 8;
        }
        if let Some(totals) = own {
            let (sums, shares) = (&totals.sums[column & 15], &self.shares[column & 15]);
            for r in 0..16 {
                let share = sums[r].wrapping_mul(shares[r]) >> 10;
                gains[r] = gains[r].wrapping_mul(share) >> 10;
            }
        }
    }

    /// Sets the sums of the sensitivities from the gathered ones.
    pub fn put_totals(&self, totals: &mut Totals, gathered: &PointSums) {
        for c in 0..self.width() {
            put_quarters(&mut totals.sums[c], &gathered[c]);
            put_shares(&mut totals.shares[c], &totals.sums[c], self.height());
        }
    }

    // Computes the projection of the rows of texels onto the columns of points.
    #[inline(always)]
    fn put_projection<const W: usize, const H: usize>(
        &self,
        projection: &mut ColumnNumbers,
        texels: &ColumnNumbers,
    ) {
        for c in 0..self.width() {
            let mut sums = self.columns.lost;
            for x in 0..W.min(12) {
                let numbers = texels[x];
                add_products(&mut sums, &numbers, self.columns.inverse[x][c], wide::<H>());
            }
            projection[c] = sums;
        }
    }

    // Computes points, 0 to 1024, by a projection of the columns of texels onto the rows of points.
    #[inline(always)]
    fn put_points<const H: usize, const EIGHTS: usize>(
        &self,
        points: &mut GridPoints,
        projection: &ColumnNumbers,
    ) {
        for c in 0..self.width() {
            let (column, mut sums) = (projection[c], self.rows.lost);
            for y in 0..H.min(12) {
                let factor = column[y].clamp(-2048, 2047).wrapping_mul(16);
                add_products(&mut sums, &self.rows.inverse[y], factor, tall::<EIGHTS>());
            }
            for r in 0..tall::<EIGHTS>() {
                sums[r] = sums[r].clamp(0, 1024);
            }
            points[c] = sums;
        }
    }

    // Interpolates between columns of points: computes a number for each column of texels and row
    // of points.
    #[inline(always)]
    fn put_columns<const W: usize, const EIGHTS: usize>(
        &self,
        columns: &mut GridPoints,
        points: &GridPoints,
    ) {
        for x in 0..W.min(12) {
            let place = usize::from(self.columns.before[x] & 15);
            let next = place.wrapping_add(1) & 15;
            let ends = [&points[place], &points[next]];
            put_between(
                &mut columns[x],
                ends,
                self.columns.beyond[x],
                tall::<EIGHTS>(),
            );
        }
    }

    // Transposes columns to rows of points.
    #[inline(always)]
    fn put_rows<const W: usize>(&self, rows: &mut GridPoints, columns: &GridPoints) {
        for at in 0..self.height() {
            put_across(&mut rows[at], columns, at, wide::<W>());
        }
    }

    /// Computes 16 times the number that the points, 0 to 1024, give to each texel. `EIGHTS` is the
    /// number of groups of eight that hold a column of points. The entries after the last texel
    /// have no meaning.
    #[inline(always)]
    pub fn infill<const W: usize, const H: usize, const EIGHTS: usize>(
        &self,
        lanes: &mut Lanes,
        points: &GridPoints,
        interim: &mut Interim,
    ) {
        self.put_columns::<W, EIGHTS>(&mut interim.columns, points);
        self.put_rows::<W>(&mut interim.rows, &interim.columns);
        let rows = &interim.rows;
        for y in 0..H.min(12) {
            let place = usize::from(self.rows.before[y] & 15);
            let next = place.wrapping_add(1) & 15;
            let first = y.wrapping_mul(W);
            if let Some(row) = lanes.get_mut(first..first.wrapping_add(wide::<W>())) {
                set_between(row, &rows[place], &rows[next], self.rows.beyond[y]);
            }
        }
    }

    // Adds the numbers of the texels, times their factors / 4, to the sums of the rows of points.
    #[inline(always)]
    fn add_rows<const W: usize, const H: usize>(
        &self,
        sums: &mut [[i16; 16]; 16],
        numbers: &Lanes,
    ) {
        for y in 0..H.min(12) {
            let place = usize::from(self.rows.before[y] & 15);
            let beyond = self.rows.beyond[y];
            let first = y.wrapping_mul(W);
            if let Some(row) = numbers.get(first..first.wrapping_add(wide::<W>())) {
                let (row, next) = (held(row), place.wrapping_add(1) & 15);
                add_shares(
                    &mut sums[place],
                    &row,
                    16i16.wrapping_sub(beyond),
                    wide::<W>(),
                );
                add_shares(&mut sums[next], &row, beyond, wide::<W>());
            }
        }
    }

    // Adds the numbers of the columns of texels, times their factors, to the sums of the points.
    #[inline(always)]
    fn add_columns<const W: usize, const EIGHTS: usize>(
        &self,
        sums: &mut PointSums,
        rows: &GridPoints,
    ) {
        for x in 0..W.min(12) {
            let mut column = [0; 16];
            put_across(&mut column, rows, x, tall::<EIGHTS>());
            let place = usize::from(self.columns.before[x] & 15);
            let beyond = self.columns.beyond[x];
            add_rests(&mut sums[place], &column, beyond, tall::<EIGHTS>());
            let next = place.wrapping_add(1) & 15;
            add_sixteenths(&mut sums[next], &column, beyond, tall::<EIGHTS>());
        }
    }

    /// Computes for each point a quarter of the sum of the texels' numbers (at most 8192), each
    /// times the point's factor in the texel, 0 to 1.
    #[inline(always)]
    pub fn gather<const W: usize, const H: usize, const EIGHTS: usize>(
        &self,
        sums: &mut PointSums,
        numbers: &Lanes,
        interim: &mut Interim,
    ) {
        let rows = &mut interim.rows;
        for r in 0..self.height().wrapping_add(1).min(16) {
            rows[r] = [0; 16];
        }
        self.add_rows::<W, H>(rows, numbers);
        for c in 0..self.width().wrapping_add(1).min(16) {
            clear(&mut sums[c], tall::<EIGHTS>());
        }
        self.add_columns::<W, EIGHTS>(sums, rows);
    }
}

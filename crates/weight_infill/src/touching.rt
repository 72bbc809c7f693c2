// The texels whose weight depends on a given grid point.
ghost use Rattle.std.specs.Prelude.{nat_lt, ◌≡◌, ℕ, ◌+◌, ◌/◌, ◌%◌, ◌<◌, ◌≤◌, ◌++◌, IsTrue, length, slice_index_or};
ghost use Rattle.std.specs.List.{All};
ghost use Rattle.astc_model.specs.Footprints.{is_footprint};
ghost use Rattle.weight_infill.specs.Touched.{share_of, near_factor, far_factor, factor_between, IsOfSixteenths, row_touched, touched};
ghost use Rattle.weight_infill.specs.declared.touching.Share.TheVariants.{Apart};

use crate::grid_points::{grid_position, last_factor};
use arrayvec::ArrayVec;

/// The position of a texel along one side, relative to a column or row of grid points, in
/// sixteenths of the distance between two points.
#[derive(Clone, Copy)]
pub enum Share {
    /// The texel lies neither between this column or row and the next nor between the previous one
    /// and this.
    Apart,
    /// The texel lies this distance after this column or row, before the next one.
    Near(u32),
    /// The texel lies this distance after the previous column or row, before this one.
    Far(u32),
}

// The position of a texel relative to a column or row `point`.
#[inline(always)]
fn share_of(side: u32, points: u32, point: u32, texel: u32) -> Share
    requires least { 4 ≤ side }
    requires most { side ≤ 12 }
    requires some { 2 ≤ points }
    requires points { points ≤ side }
    requires texel { texel < side }
    ensures exact { result ≡ share_of side points point texel }
    ensures sixteenths { IsOfSixteenths result }
{
    let position = grid_position(side, points, texel);
    if position / 16 == point {
        Share::Near(position % 16)
    } else if position / 16 + 1 == point {
        Share::Far(position % 16)
    } else {
        Share::Apart
    }
}

// The factor of a grid point if the texel is `across` sixteenths after the point's column.
#[inline(always)]
fn near_factor(across: u32, down: Share) -> u32
    requires across { across < 16 }
    requires down { IsOfSixteenths down }
    ensures { result ≡ near_factor across down }
{
    match down {
        Share::Apart => 0,
        Share::Near(down) => 16 + last_factor(across, down) - across - down,
        Share::Far(down) => down - last_factor(across, down),
    }
}

// The factor of a grid point if the texel is `across` sixteenths after the previous column.
#[inline(always)]
fn far_factor(across: u32, down: Share) -> u32
    requires across { across < 16 }
    requires down { IsOfSixteenths down }
    ensures { result ≡ far_factor across down }
{
    match down {
        Share::Apart => 0,
        Share::Near(down) => across - last_factor(across, down),
        Share::Far(down) => last_factor(across, down),
    }
}

// The factor, 0 to 16, of a grid point in the weight of a texel, from the texel's positions
// relative to the point's column and row.
#[inline(always)]
fn factor_between(across: Share, down: Share) -> u32
    requires across { IsOfSixteenths across }
    requires down { IsOfSixteenths down }
    ensures { result ≡ factor_between across down }
{
    match across {
        Share::Apart => 0,
        Share::Near(across) => near_factor(across, down),
        Share::Far(across) => far_factor(across, down),
    }
}

// The positions of all texels of a row relative to a column of grid points.
fn shares_of(side: u32, points: u32, point: u32) -> [Share; 12]
    requires least { 4 ≤ side }
    requires most { side ≤ 12 }
    requires some { 2 ≤ points }
    requires points { points ≤ side }
    ensures exact { (x : ℕ) → x < side → slice_index_or result x Apart
        ≡ share_of side points point x }
    ensures sixteenths { All IsOfSixteenths result }
    ensures all { length result ≡ 12 }
{
    let mut shares = [Share::Apart; 12];
    for x in 0..side {
        shares[x as usize] = share_of(side, points, point, x);
    }
    shares
}

// Whether the texel's weight does not depend on the column or row of grid points.
#[inline(always)]
fn is_apart(share: Share) -> bool
    ensures { IsTrue result → share ≡ Apart }
{
    matches!(share, Share::Apart)
}

// Whether the weight of a texel depends on a grid point: its factor is over 0.
#[inline(always)]
fn is_over_0(across: Share, down: Share) -> bool
    requires across { IsOfSixteenths across }
    requires down { IsOfSixteenths down }
    ensures { result ≡ nat_lt 0 (factor_between across down) }
{
    factor_between(across, down) > 0
}

// Appends the texels of row `y` whose weight depends on the grid point.
fn push_row<const W: usize>(
    touched: &mut ArrayVec<(u8, u8), 144>,
    across: &[Share; 12],
    down: Share,
    y: u8,
)
    requires width { W ≤ 12 }
    requires room { length touched.old.items + W ≤ 144 }
    requires across { All IsOfSixteenths across.now }
    requires all { length across.now ≡ 12 }
    requires down { IsOfSixteenths down }
    ensures row { touched.new.items ≡ touched.old.items ++ row_touched across.now down y W }
    ensures few { length touched.new.items ≤ length touched.old.items + W }
{
    if is_apart(down) {
        return;
    }
    for x in 0..W {
        if is_over_0(across[x], down) {
            touched.push((x as u8, y));
        }
    }
}

/// Returns the column and row of each texel of a block of `W` by `H` texels whose weight depends on
/// the grid point with index `point` in a grid of `n` columns and `m` rows (the factor of the point
/// is over 0). The texels are in rows from the top (Khronos Data Format Specification, ASTC,
/// "Weight Infill").
pub fn touched<const W: usize, const H: usize>(n: u8, m: u8, point: u8) -> ArrayVec<(u8, u8), 144>
    requires footprint { IsTrue (is_footprint W H) }
    requires some_columns { 2 ≤ n }
    requires columns { n ≤ W }
    requires some_rows { 2 ≤ m }
    requires rows { m ≤ H }
    ensures exact { result.items ≡ touched W H n m point }
    ensures columns { All (λ texel. texel.0 < W) result.items }
    ensures rows { All (λ texel. texel.1 < H) result.items }
{
    let across = shares_of(W as u32, u32::from(n), u32::from(point % n));
    let row = u32::from(point / n);
    let mut touched = ArrayVec::new();
    for y in 0..H {
        let down = share_of(H as u32, u32::from(m), row, y as u32);
        push_row::<W>(&mut touched, &across, down, y as u8);
    }
    touched
}

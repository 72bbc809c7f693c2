// The four points of the weight grid around a texel, and their factors in its weight.
ghost use Rattle.std.specs.Prelude.{◌≡◌, ◌+◌, ◌-◌, ◌*◌, ◌<◌, ◌≤◌, IsTrue, map};
ghost use Rattle.std.specs.List.{All, sum_by};
ghost use Rattle.astc_model.specs.Footprints.{is_footprint};
ghost use Rattle.astc_model.specs.Infill.{corners, factors, grid_position, last_factor, placed, corners_at, IsZeroOutside};

/// The position of a texel along one side of the block, in sixteenths of the distance between two
/// grid points. `side` is the length of the side in texels, `points` the number of grid points
/// along it.
#[inline(always)]
#[tactic(auto, unfolding(astc_model::specs::Infill::grid_position))]
pub(crate) fn grid_position(side: u32, points: u32, texel: u32) -> u32
    requires least { 4 ≤ side }
    requires most { side ≤ 12 }
    requires some { 2 ≤ points }
    requires points { points ≤ side }
    requires texel { texel < side }
    ensures position { result ≡ grid_position side points texel }
    ensures within { result ≤ 16 * (points - 1) }
{
    let scale = (1024 + side / 2) / (side - 1);
    (scale * texel * (points - 1) + 32) / 64
}

/// The factor of the fourth point (p11), which follows the texel in both directions; `across` and
/// `down` are the distances from the first point, in sixteenths.
#[inline(always)]
pub(crate) fn last_factor(across: u32, down: u32) -> u32
    requires across { across < 16 }
    requires down { down < 16 }
    ensures factor { result ≡ last_factor across down }
    ensures at_most_across { result ≤ across }
    ensures at_most_down { result ≤ down }
    ensures both { across + down ≤ 16 + result }
{
    (across * down + 8) / 16
}

/// The index of a grid point and its factor. Points with the factor 0 get index 0, since they may
/// lie outside the grid.
#[inline(always)]
fn placed(columns: u32, column: u32, row: u32, factor: u32) -> (u8, u8)
    requires columns { columns ≤ 12 }
    requires column { column ≤ 12 }
    requires row { row ≤ 12 }
    requires factor { factor ≤ 16 }
    ensures { result ≡ placed columns (record { column = column; row = row; factor = factor }) }
{
    if factor == 0 {
        (0, 0)
    } else {
        ((row * columns + column) as u8, factor as u8)
    }
}

/// The four points around a texel that is `across` sixteenths to the right of and `down` sixteenths
/// below the grid point at this column and row.
#[inline(always)]
fn points_at(columns: u32, column: u32, row: u32, across: u32, down: u32) -> [(u8, u8); 4]
    requires columns { columns ≤ 12 }
    requires column { column < 12 }
    requires row { row < 12 }
    requires across { across < 16 }
    requires down { down < 16 }
    ensures { result ≡ map (placed columns) (corners_at column row across down) }
{
    let last = last_factor(across, down);
    [
        placed(columns, column, row, 16 + last - across - down),
        placed(columns, column + 1, row, across - last),
        placed(columns, column, row + 1, down - last),
        placed(columns, column + 1, row + 1, last),
    ]
}

/// Returns the four grid points around the texel (s, t) of a block of `W` by `H` texels, in a grid
/// of `n` columns and `m` rows: for p00, p01, p10 and p11 the index in the grid and the factor, 0
/// to 16. The factors have the sum 16; a point with the factor 0 has index 0 (Khronos Data Format
/// Specification, ASTC, "Weight Infill").
pub fn factors<const W: usize, const H: usize>(n: u8, m: u8, s: u8, t: u8) -> [(u8, u8); 4]
    requires footprint { IsTrue (is_footprint W H) }
    requires some_columns { 2 ≤ n }
    requires columns { n ≤ W }
    requires some_rows { 2 ≤ m }
    requires rows { m ≤ H }
    requires across { s < W }
    requires down { t < H }
    ensures points { result ≡ factors W H n m s t }
    ensures in_grid { All (λ point. point.0 < n * m) result }
    ensures small { All (λ point. point.1 ≤ 16) result }
    ensures total { sum_by (λ point. point.1) result ≡ 16 }
    ensures none_outside { All (IsZeroOutside n m) (corners W H n m s t) }
{
    let columns = u32::from(n);
    let x = grid_position(W as u32, columns, u32::from(s));
    let y = grid_position(H as u32, u32::from(m), u32::from(t));
    points_at(columns, x / 16, y / 16, x % 16, y % 16)
}

// The place closest to each grid point in a block that lies inside the image with all its texels.
// Columns and rows can be searched separately in such a block.
ghost use Rattle.std.specs.Prelude.{◌≡◌, ◌<◌, ◌≤◌, ◌*◌, IsTrue, length};
ghost use Rattle.astc_model.specs.Footprints.{is_footprint};
ghost use Rattle.candidates.specs.Sides.{AreSides, IsGridSize, side_distance, nearest_on_side, side_places, place_of_sides, grid_of_sides};

use crate::targets::squared_apart;
use arrayvec::ArrayVec;

/// Returns the squared distance of place `x` from grid point `at` along one side of the block,
/// scaled so that distances along both sides can be added. `side` is the number of places along
/// this side, `points` the number of grid points along it, `others` the number along the other
/// side.
#[tactic(auto, unfolding(crate::specs::Sides::side_distance))]
pub fn side_distance(side: u8, points: u8, others: u8, at: u8, x: u8) -> u32
    requires sides { AreSides side points others }
    requires at { at < points }
    requires x { x < side }
    ensures exact { result ≡ side_distance side points others at x }
    ensures small { result ≤ 7868025 }
{
    let other = u32::from(others - 1);
    squared_apart(u32::from(x * (points - 1)), u32::from(at * (side - 1))) * (other * other)
}

// The place closest to a grid point along a side; the first one at a tie.
#[tactic(auto, unfolding(crate::specs::Sides::nearest_on_side), using(crate::proofs::SideLaws::first_least_more))]
fn nearest_on_side(side: u8, points: u8, others: u8, at: u8) -> u8
    requires sides { AreSides side points others }
    requires at { at < points }
    ensures { result ≡ nearest_on_side side points others at }
{
    let mut best = 0;
    for x in 0..side {
        if side_distance(side, points, others, at, x)
            < side_distance(side, points, others, at, best)
        {
            best = x;
        }
    }
    best
}

// The closest place to each grid point along a side.
#[tactic(auto, unfolding(crate::specs::Sides::side_places), using(crate::proofs::LoopLaws::map_range_more))]
fn side_places(side: u8, points: u8, others: u8) -> ArrayVec<u8, 12>
    requires sides { AreSides side points others }
    ensures places { result.items ≡ side_places side points others }
    ensures count { length result.items ≡ points }
{
    let mut nearest = ArrayVec::new();
    for at in 0..points {
        nearest.push(nearest_on_side(side, points, others, at));
    }
    nearest
}

// The place closest to point `k` of a grid of `n` by `m`, from the closest columns and rows.
#[tactic(auto, unfolding(crate::specs::Sides::place_of_sides))]
fn place_of_sides<const W: usize, const H: usize>(
    n: u8,
    m: u8,
    columns: &[u8],
    rows: &[u8],
    k: u8,
) -> usize
    requires footprint { IsTrue (is_footprint W H) }
    requires some_columns { 1 ≤ n }
    requires point { k < n * m }
    requires columns { columns.now ≡ side_places W n m }
    requires rows { rows.now ≡ side_places H m n }
    requires column_count { length columns.now ≡ n }
    requires row_count { length rows.now ≡ m }
    ensures place { result ≡ place_of_sides W H n m k }
    ensures within { result < 144 }
{
    usize::from(rows[usize::from(k / n)]) * W + usize::from(columns[usize::from(k % n)])
}

/// Returns the place closest to each point of a grid of `n` by `m`, for a block whose places are
/// all inside the image.
#[tactic(auto, unfolding(crate::specs::Sides::grid_of_sides), using(crate::proofs::LoopLaws::map_range_more))]
pub fn grid_of_sides<const W: usize, const H: usize>(n: u8, m: u8) -> ArrayVec<Option<u8>, 64>
    requires footprint { IsTrue (is_footprint W H) }
    requires grid { IsGridSize n m }
    ensures { result.items ≡ grid_of_sides W H n m }
{
    let columns = side_places(W as u8, n, m);
    let rows = side_places(H as u8, m, n);
    let mut grid = ArrayVec::new();
    for k in 0..n * m {
        let place = place_of_sides::<W, H>(n, m, &columns, &rows, k);
        grid.push(Some(place as u8));
    }
    grid
}

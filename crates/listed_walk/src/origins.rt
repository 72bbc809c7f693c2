// The origins of the weights of texels in a grid.
ghost use Rattle.std.specs.Prelude.{◌≡◌, ℕ, ◌+◌, ◌*◌, ◌/◌, ◌%◌, ◌<◌, ◌≤◌, IfSome, IsTrue, [], ◌∷◌, length, map, slice_index};
ghost use Rattle.std.specs.List.{All};
ghost use Rattle.astc_model.specs.Footprints.{is_footprint};
ghost use Rattle.astc_model.specs.Infill.{factors};
ghost use Rattle.listed_walk.specs.Origins.{AreGroupOrigins, AreOriginsTo, ArePlaceOrigins, origin};

use texel_error::{GroupOrigins, put_texel};
use weight_infill::Surroundings;

/// The places that the weights of each group of four texels come from in a grid, with their factors
/// in sixteenths.
#[derive(Drop)]
pub struct GridOrigins {
    /// By the numbers of the groups, in rows from the top.
    pub groups: [GroupOrigins; 36],
}

impl Default for GridOrigins {
    fn default() -> Self {
        GridOrigins {
            groups: [GroupOrigins::of([0; 16], [0; 16]); 36],
        }
    }
}

// The place of a point, with its factor; a point without a place adds nothing.
fn origin(grid: &[Option<u8>], point: (u8, u8)) -> (u8, u8)
    requires { point.0 < length grid.now }
    ensures { result ≡ origin grid.now point }
{
    match grid[usize::from(point.0)] {
        None => (0, 0),
        Some(place) => (place, point.1),
    }
}

// The origins for the points around a texel.
fn origins_around(grid: &[Option<u8>], around: [(u8, u8); 4]) -> [(u8, u8); 4]
    requires { All (λ point. point.0 < length grid.now) around }
    ensures { result ≡ map (origin grid.now) around }
{
    let [first, second, third, fourth] = around;
    [
        origin(grid, first),
        origin(grid, second),
        origin(grid, third),
        origin(grid, fourth),
    ]
}

// The places that the weight of place `p` comes from, and their factors; past the end none counts.
fn origins_of<const W: usize, const H: usize>(
    around: &Surroundings<W, H>,
    grid: &[Option<u8>],
    p: usize,
) -> ([u8; 4], [u8; 4])
    requires footprint { IsTrue (is_footprint W H) }
    requires points { length grid.now ≡ around.now.columns * around.now.rows }
    requires within { All (λ place. IfSome place (λ p. p < W * H)) grid.now }
    ensures { ArePlaceOrigins W H around.now.columns around.now.rows grid.now p result.0 result.1 }
{
    if p < W * H {
        let [first, second, third, fourth] = origins_around(grid, around.at(p));
        (
            [first.0, second.0, third.0, fourth.0],
            [first.1, second.1, third.1, fourth.1],
        )
    } else {
        ([0; 4], [0; 4])
    }
}

// The places that the weights of a group come from, in two runs if that is required and two runs
// have them.
fn group_of<const W: usize, const H: usize>(
    around: &Surroundings<W, H>,
    grid: &[Option<u8>],
    g: usize,
    in_runs: bool,
) -> GroupOrigins
    requires footprint { IsTrue (is_footprint W H) }
    requires points { length grid.now ≡ around.now.columns * around.now.rows }
    requires within { All (λ place. IfSome place (λ p. p < W * H)) grid.now }
    requires group { g < 36 }
    ensures { AreGroupOrigins W H around.now.columns around.now.rows grid.now g result }
{
    let (mut places, mut factors) = ([0; 16], [0; 16]);
    for t in 0..4 {
        let (own, own_factors) = origins_of(around, grid, 4 * g + t);
        put_texel(&mut places, t, own);
        put_texel(&mut factors, t, own_factors);
    }
    if in_runs {
        GroupOrigins::in_runs::<W, H>(places, factors)
    } else {
        GroupOrigins::of(places, factors)
    }
}

impl GridOrigins {
    /// Those in a grid that has these points around the texels, and these places of its points. A
    /// table of many grids keeps them in runs; for one candidate that would take longer than it
    /// saves.
    #[inline(never)]
    pub fn of<const W: usize, const H: usize>(
        around: &Surroundings<W, H>,
        grid: &[Option<u8>],
        in_runs: bool,
    ) -> GridOrigins
        requires footprint { IsTrue (is_footprint W H) }
        requires points { length grid.now ≡ around.now.columns * around.now.rows }
        requires within { All (λ place. IfSome place (λ p. p < W * H)) grid.now }
        ensures { AreOriginsTo W H around.now.columns around.now.rows grid.now
            ((W * H + 3) / 4) result.groups }
    {
        let mut groups = [GroupOrigins::of([0; 16], [0; 16]); 36];
        for g in 0..(W * H + 3) / 4 {
            let own = group_of(around, grid, g, in_runs);
            groups[g] = own;
        }
        GridOrigins { groups }
    }
}

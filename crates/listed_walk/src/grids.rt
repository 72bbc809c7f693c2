// The places of the points of grids, and where weights come from in these.
ghost use Rattle.std.specs.Prelude.{◌≡◌, ℕ, ◌+◌, ◌-◌, ◌*◌, ◌/◌, ◌%◌, ◌<◌, IsTrue, IfSome, List, Option, None, length, slice_index_or};
ghost use Rattle.std.specs.List.{All};
ghost use Rattle.astc_model.specs.Places.{Texel};
ghost use Rattle.astc_model.specs.Modes.{IsInModeRange};
ghost use Rattle.astc_model.specs.Shapes.{grid_fault};
ghost use Rattle.astc_model.specs.Footprints.{is_footprint};
ghost use Rattle.candidates.specs.Pieces.{grid_places};
ghost use Rattle.listed_walk.specs.GridTables.{AreGridsTo, AreOriginsIn, IsGridAt, columns_at, grid_at, rows_at};
ghost use Rattle.listed_walk.specs.Grids.{AreGrids, AreOriginsOf};

use crate::origins::GridOrigins;
use arrayvec::ArrayVec;
use astc_model::Mode;
use candidates::grid_places;
use weight_infill::Surroundings;

/// The places of the points of each grid of 2 to 12 columns and rows that blocks of a footprint can
/// have, by columns and then rows.
pub type GridTable = ArrayVec<ArrayVec<Option<u8>, 64>, 121>;

/// The grids of a source, with any owner.
#[derive(Clone, Copy)]
pub struct Grids<'a> {
    /// The places of their points, by columns and then rows.
    pub by_sides: &'a [ArrayVec<Option<u8>, 64>],
    /// The origins of the weights of texels, by the same index. A grid past the end of the list
    /// gets its origins when they are needed.
    pub origins: &'a [GridOrigins],
}

impl<'a> Grids<'a> {
    /// The origins of weights in a mode's grid, if they are kept.
    #[inline(always)]
    pub fn origins(&self, mode: &Mode) -> Option<&'a GridOrigins>
        requires { IsInModeRange mode.now }
        ensures { IfSome result
            (λ found. AreOriginsOf mode.now self.now.by_sides.now self.now.origins.now
            found.now) }
    {
        kept_at(self.origins, grid_place(mode))
    }

    /// The places of the points of a mode's grid.
    pub fn grid(&self, mode: &Mode) -> &'a [Option<u8>]
        requires { IsInModeRange mode.now }
        ensures { (w h : ℕ) (places : List (Option Texel)) → grid_fault w h mode.now ≡ None
            → AreGrids w h places self.now.by_sides.now self.now.origins.now
            → result.now ≡ grid_places w h mode.now.across mode.now.down places }
    {
        let place = grid_place(mode);
        if place < self.by_sides.len() {
            self.by_sides[place].as_slice()
        } else {
            &[]
        }
    }
}

/// The place of the grid of a mode in a table by the columns of grids and then their rows.
fn grid_place(mode: &Mode) -> usize
    requires { IsInModeRange mode.now }
    ensures exact { result ≡ (mode.now.across - 2) * 11 + (mode.now.down - 2) }
    ensures below { result < 121 }
{
    usize::from(mode.across - 2) * 11 + usize::from(mode.down - 2)
}

// The entry of a table at this place, if it has one.
#[inline(always)]
fn kept_at(table: &[GridOrigins], k: usize) -> Option<&GridOrigins>
    ensures { IfSome result (λ found. (k < length table.now)
        × (found.now ≡ slice_index_or table.now k found.now)) }
{
    if k < table.len() {
        Some(&table[k])
    } else {
        None
    }
}

// The places of the points of the grid at this index of the table, none if no block has it.
fn grid_of<const W: usize, const H: usize>(
    k: u8,
    places: &[Option<[u8; 4]>],
) -> ArrayVec<Option<u8>, 64>
    requires footprint { IsTrue (is_footprint W H) }
    requires place { k < 121 }
    requires places { length places.now ≡ W * H }
    ensures { IsGridAt W H k → result.items ≡ grid_places W H (columns_at k)
        (rows_at k) places.now }
{
    let (columns, rows) = (k / 11 + 2, k % 11 + 2);
    if usize::from(columns) <= W && usize::from(rows) <= H && columns * rows <= 64 {
        grid_places::<W, H>(columns, rows, places)
    } else {
        ArrayVec::new()
    }
}

/// The places of the points of each grid.
#[inline(never)]
pub fn grids_by_sides<const W: usize, const H: usize>(places: &[Option<[u8; 4]>]) -> GridTable
    requires footprint { IsTrue (is_footprint W H) }
    requires places { length places.now ≡ W * H }
    ensures { AreGridsTo W H places.now 121 result.items }
{
    let mut by_sides = ArrayVec::new();
    for k in 0..121u8 {
        by_sides.push(grid_of::<W, H>(k, places));
    }
    by_sides
}

/// The origins of weights in the grid at this index of the table, from the places of its points;
/// from none if no block has it.
pub fn origins_in<const W: usize, const H: usize>(k: u8, grid: &[Option<u8>]) -> GridOrigins
    requires footprint { IsTrue (is_footprint W H) }
    requires place { k < 121 }
    requires points { IsGridAt W H k → length grid.now ≡ columns_at k * rows_at k }
    requires within { IsGridAt W H k → All (λ place. IfSome place (λ p. p < W * H)) grid.now }
    ensures { AreOriginsIn W H k grid.now result }
{
    let (columns, rows) = (k / 11 + 2, k % 11 + 2);
    if usize::from(columns) <= W && usize::from(rows) <= H && columns * rows <= 64 {
        GridOrigins::of(&Surroundings::<W, H>::of(columns, rows), grid, true)
    } else {
        GridOrigins::default()
    }
}

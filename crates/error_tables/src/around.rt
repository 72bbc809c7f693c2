// The points of the weight grid around each place inside.
ghost use Rattle.std.specs.Prelude.{◌≡◌, ℕ, ◌+◌, List, Option, ◌*◌, ◌/◌, ◌%◌, ◌<◌, ◌≤◌, ◌==◌, if◌then◌else◌, length, slice_index, slice_index_or, is_some, IsTrue};
ghost use Rattle.std.specs.List.{All};
ghost use Rattle.astc_model.specs.Footprints.{is_footprint};
ghost use Rattle.astc_model.specs.Places.{Texel};
ghost use Rattle.astc_model.specs.declared.mode.Mode.{Mode as AnyMode};
ghost use Rattle.error_tables.specs.Arounds.{corner_at, IsCorner, AreCorners};

use astc_model::Mode;
use weight_infill::factors;

/// One of the four points around each place, with its factor, which is 0 outside.
#[derive(Clone, Copy)]
pub struct AroundPoint {
    pub points: [u8; 144],
    pub factors: [u8; 144],
}

/// The four points around each place.
#[derive(Clone, Copy)]
pub struct Around {
    pub first: AroundPoint,
    pub second: AroundPoint,
    pub third: AroundPoint,
    pub fourth: AroundPoint,
}

/// The factor of a point at a place, if it is this corner.
#[inline(always)]
pub fn own_factor(corner: &AroundPoint, point: u8, p: usize) -> u8
    requires small { All (λ factor. factor ≤ 16) corner.now.factors }
    requires all_points { length corner.now.points ≡ 144 }
    requires all_factors { length corner.now.factors ≡ 144 }
    requires place { p < 144 }
    ensures own { result ≡ (if slice_index corner.now.points p == point then slice_index
        corner.now.factors p else 0) }
    ensures small { result ≤ 16 }
{
    let factor = corner.factors[p];
    if corner.points[p] == point { factor } else { 0 }
}

// The corners of a place with their factors.
fn corners_at<const W: usize, const H: usize>(mode: &Mode, p: usize) -> [(u8, u8); 4]
    requires footprint { IsTrue (is_footprint W H) }
    requires some_columns { 2 ≤ mode.now.across }
    requires columns { mode.now.across ≤ W }
    requires some_rows { 2 ≤ mode.now.down }
    requires rows { mode.now.down ≤ H }
    requires place { p < W * H }
    ensures exact { (corner : ℕ) → slice_index_or result corner (0, 0) ≡ corner_at W H mode.now
        corner p }
    ensures small { All (λ point. point.1 ≤ 16) result }
    ensures four { length result ≡ 4 }
{
    factors::<W, H>(mode.across, mode.down, (p % W) as u8, (p / W) as u8)
}

// A factor that counts inside alone.
#[inline(always)]
fn inside_factor(place: &Option<[u8; 4]>, factor: u8) -> u8
    requires { factor ≤ 16 }
    ensures exact { result ≡ (if is_some place.now then factor else 0) }
    ensures small { result ≤ 16 }
{
    if place.is_some() { factor } else { 0 }
}

// A corner of no place.
fn no_corner() -> AroundPoint
    ensures { (w h corner : ℕ) (mode : AnyMode) (places : List (Option Texel))
        → IsCorner w h mode places corner 0 result.points result.factors }
{
    AroundPoint {
        points: [0; 144],
        factors: [0; 144],
    }
}

// Puts the corner of one place more.
fn put_corner<const W: usize, const H: usize>(
    around: &mut AroundPoint,
    places: &[Option<[u8; 4]>],
    p: usize,
    point: (u8, u8),
)
    requires place { p < length places.now }
    requires few { length places.now ≤ 144 }
    requires small { point.1 ≤ 16 }
    requires all_points { length around.old.points ≡ 144 }
    requires all_factors { length around.old.factors ≡ 144 }
    ensures { (corner : ℕ) (mode : AnyMode) → point ≡ corner_at W H mode corner p
        → IsCorner W H mode places.now corner p around.old.points around.old.factors
        → IsCorner W H mode places.now corner (p + 1) around.new.points around.new.factors }
{
    let own = inside_factor(&places[p], point.1);
    around.points[p] = point.0;
    around.factors[p] = own;
}

/// The four points around each place.
pub fn around_of<const W: usize, const H: usize>(mode: &Mode, places: &[Option<[u8; 4]>]) -> Around
    requires footprint { IsTrue (is_footprint W H) }
    requires some_columns { 2 ≤ mode.now.across }
    requires columns { mode.now.across ≤ W }
    requires some_rows { 2 ≤ mode.now.down }
    requires rows { mode.now.down ≤ H }
    requires all { length places.now ≡ W * H }
    requires few { length places.now ≤ 144 }
    ensures { AreCorners W H mode.now places.now result }
{
    let mut first = no_corner();
    let mut second = no_corner();
    let mut third = no_corner();
    let mut fourth = no_corner();
    for p in 0..places.len() {
        let corners = corners_at::<W, H>(mode, p);
        put_corner::<W, H>(&mut first, places, p, corners[0]);
        put_corner::<W, H>(&mut second, places, p, corners[1]);
        put_corner::<W, H>(&mut third, places, p, corners[2]);
        put_corner::<W, H>(&mut fourth, places, p, corners[3]);
    }
    Around {
        first,
        second,
        third,
        fourth,
    }
}

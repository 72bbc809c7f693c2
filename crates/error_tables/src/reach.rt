// The places that a change of one integer reaches.
ghost use Rattle.std.specs.Prelude.{map, is_some, nat_lt, ℕ, ◌&&◌, ◌≡◌, ◌+◌, ◌*◌, ◌/◌, ◌%◌, ◌<◌, ◌≤◌, ◌==◌, if◌then◌else◌, length, slice_index, IsTrue};
ghost use Rattle.astc_model.specs.Footprints.{is_footprint};
ghost use Rattle.astc_model.specs.Partitions.{part_of};
ghost use Rattle.weight_infill.specs.Touched.{factor_among};
ghost use Rattle.weight_infill.specs.Surrounded.{AreAround};
ghost use Rattle.std.specs.List.{All};
ghost use Rattle.error_tables.specs.Reached.{IsPartReach};
ghost use Rattle.error_tables.specs.PartReaches.{ArePartReaches};

use arrayvec::ArrayVec;
use astc_model::{Coded, Mode};
use weight_infill::factors;

/// The places of a reach, without their factors.
pub fn places_of(reach: &[(u8, u8)]) -> ArrayVec<u8, 144>
    requires { length reach.now ≤ 144 }
    ensures { result.items ≡ map (λ touch. touch.0) reach.now }
{
    let mut places = ArrayVec::new();
    for touch in reach {
        places.push(touch.0);
    }
    places
}

// Whether a place is inside and of the part.
#[inline(always)]
fn is_own(place: &Option<[u8; 4]>, own: u8, part: u8) -> bool
    ensures same { result ≡ (is_some place.now && (own == part)) }
    ensures own { IsTrue result → own ≡ part }
{
    place.is_some() && own == part
}

/// The places inside of a part.
pub fn part_places<const W: usize, const H: usize>(
    block: &Coded,
    parts: &[u8; 144],
    part: u8,
    places: &[Option<[u8; 4]>],
) -> ArrayVec<u8, 144>
    requires parts { (p : ℕ) → p < W * H → slice_index parts.now p
        ≡ part_of W H block.now.parts block.now.seed (p % W) (p / W) }
    requires all { length places.now ≡ W * H }
    requires few { length places.now ≤ 144 }
    ensures { IsPartReach W H block.now part places.now result.items }
{
    let mut reach = ArrayVec::new();
    for p in 0..places.len() {
        if is_own(&places[p], parts[p], part) {
            reach.push(p as u8);
        }
    }
    reach
}

/// The places inside of each part, and none of parts that the block lacks.
pub fn reaches_of_parts<const W: usize, const H: usize>(
    block: &Coded,
    parts: &[u8; 144],
    places: &[Option<[u8; 4]>],
) -> [ArrayVec<u8, 144>; 4]
    requires parts { (p : ℕ) → p < W * H → slice_index parts.now p
        ≡ part_of W H block.now.parts block.now.seed (p % W) (p / W) }
    requires all { length places.now ≡ W * H }
    requires few { length places.now ≤ 144 }
    ensures { ArePartReaches W H block.now places.now result }
{
    let first = part_places::<W, H>(block, parts, 0, places);
    let second = part_places::<W, H>(block, parts, 1, places);
    let third = part_places::<W, H>(block, parts, 2, places);
    let fourth = part_places::<W, H>(block, parts, 3, places);
    [first, second, third, fourth]
}

// The partition of each place, and the bounds of the texels of each partition.
ghost use Rattle.std.specs.Prelude.{◌≡◌, ℕ, ◌*◌, ◌<◌, ◌≤◌, ◌%◌, ◌/◌, IsTrue, length, take, slice_index, slice_index_or, min, max};
ghost use Rattle.astc_model.specs.Footprints.{is_footprint};
ghost use Rattle.candidates.specs.PartBounds.{AreBounds};
ghost use Rattle.candidates.specs.Pieces.{bounds_by_part, no_bounds};
ghost use Rattle.astc_model.specs.Bounds.{part_map, texel_in, by_channel, widened_by, or_zero, bounds_of};

use arrayvec::ArrayVec;
use astc_model::Box8;
use partition_hash::part_of;

/// Returns the partition of each of the `W * H` places of a block, in rows from the top; later
/// entries have no meaning. All recipes with this number of partitions and seed share the map.
#[tactic(auto, unfolding(astc_model::specs::Bounds::part_map))]
pub fn part_map<const W: usize, const H: usize>(parts: u8, seed: u16) -> [u8; 144]
    requires footprint { IsTrue (is_footprint W H) }
    requires some { 1 ≤ parts }
    requires few { parts ≤ 4 }
    requires seed { seed < 1024 }
    ensures parts { take (W * H) result ≡ part_map W H parts seed }
    ensures within { (p : ℕ) → p < W * H → slice_index result p < parts }
{
    let mut map = [0; 144];
    for p in 0..W * H {
        map[p] = part_of::<W, H>(parts, seed, (p % W) as u8, (p / W) as u8);
    }
    map
}

// The texel of a place if it is inside the image and belongs to partition `part`.
#[tactic(auto, unfolding(astc_model::specs::Bounds::texel_in))]
fn texel_in(parts: &[u8], part: u8, places: &[Option<[u8; 4]>], p: usize) -> Option<[u8; 4]>
    requires map { p < length parts.now }
    requires place { p < length places.now }
    ensures { result ≡ texel_in parts.now part places.now p }
{
    if parts[p] == part { places[p] } else { None }
}

fn lesser(a: [u8; 4], b: [u8; 4]) -> [u8; 4]
    ensures { result ≡ by_channel min a b }
{
    [
        a[0].min(b[0]),
        a[1].min(b[1]),
        a[2].min(b[2]),
        a[3].min(b[3]),
    ]
}

fn greater(a: [u8; 4], b: [u8; 4]) -> [u8; 4]
    ensures { result ≡ by_channel max a b }
{
    [
        a[0].max(b[0]),
        a[1].max(b[1]),
        a[2].max(b[2]),
        a[3].max(b[3]),
    ]
}

// The bounds extended by one more texel.
fn widened_by(texel: Option<[u8; 4]>, bounds: Option<Box8>) -> Option<Box8>
    ensures { result ≡ widened_by texel bounds }
{
    match texel {
        None => bounds,
        Some(texel) => match bounds {
            None => Some(Box8 {
                lo: texel,
                hi: texel,
            }),
            Some(bounds) => Some(Box8 {
                lo: lesser(bounds.lo, texel),
                hi: greater(bounds.hi, texel),
            }),
        },
    }
}

fn or_zero(bounds: Option<Box8>) -> Box8
    ensures { result ≡ or_zero bounds }
{
    match bounds {
        None => Box8 {
            lo: [0; 4],
            hi: [0; 4],
        },
        Some(bounds) => bounds,
    }
}

// The bounds of the inside texels of a partition; all 0 if it has none.
#[tactic(auto, using(crate::proofs::BoundsLaws::bounds_below_more))]
fn bounds_of(parts: &[u8], part: u8, places: &[Option<[u8; 4]>]) -> Box8
    requires { length parts.now ≡ length places.now }
    ensures { result ≡ bounds_of parts.now part places.now (length places.now) }
{
    let mut bounds = None;
    for p in 0..places.len() {
        bounds = widened_by(texel_in(parts, part, places, p), bounds);
    }
    or_zero(bounds)
}

/// Returns the bounds of each of the first `count` partitions, at most four: the least and the
/// greatest value of each channel over the inside texels of the partition, all 0 if it has none.
/// All recipes with this number of partitions and seed share the bounds.
#[tactic(auto, unfolding(crate::specs::Pieces::bounds_by_part), using(crate::proofs::LoopLaws::map_range_more))]
pub fn bounds_by_part(parts: &[u8], count: u8, places: &[Option<[u8; 4]>]) -> ArrayVec<Box8, 4>
    requires map { length parts.now ≡ length places.now }
    requires few { count ≤ 4 }
    ensures bounds { result.items ≡ bounds_by_part parts.now count places.now (length places.now) }
    ensures least_and_greatest { (part : ℕ) → part < count → AreBounds parts.now part places.now
        (slice_index_or result.items part no_bounds) }
    ensures count { length result.items ≡ count }
{
    let mut bounds = ArrayVec::new();
    for part in 0..count {
        bounds.push(bounds_of(parts, part, places));
    }
    bounds
}

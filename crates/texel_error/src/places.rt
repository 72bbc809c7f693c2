// The coordinates and the partition of each place.
ghost use Rattle.std.specs.Prelude.{◌≡◌, ℕ, ◌*◌, ◌/◌, ◌%◌, ◌<◌, ◌≤◌, length, slice_index, IsTrue};
ghost use Rattle.std.specs.List.{All};
ghost use Rattle.astc_model.specs.Footprints.{is_footprint};
ghost use Rattle.astc_model.specs.Partitions.{part_of};

use partition_hash::part_of;

/// Returns the column and the row of the place `p` of a block of `W` by `H` texels; places are
/// counted in rows from the top.
#[inline(always)]
pub fn place_at<const W: usize, const H: usize>(p: usize) -> (u8, u8)
    requires footprint { IsTrue (is_footprint W H) }
    requires place { p < W * H }
    ensures column { result.0 ≡ p % W }
    ensures row { result.1 ≡ p / W }
    ensures in_columns { result.0 < W }
    ensures in_rows { result.1 < H }
{
    ((p % W) as u8, (p / W) as u8)
}

/// Returns the partition, 0 to 3, of each of the first `W * H` places of a block with this number
/// of partitions and this partition index; later entries are 0 (Khronos Data Format Specification,
/// ASTC, "Partition Pattern Generation").
pub fn parts_of<const W: usize, const H: usize>(parts: u8, seed: u16) -> [u8; 144]
    requires footprint { IsTrue (is_footprint W H) }
    requires some { 1 ≤ parts }
    requires few { parts ≤ 4 }
    requires seed { seed < 1024 }
    ensures parts { (p : ℕ) → p < W * H → slice_index result p ≡ part_of W H parts seed (p % W)
        (p / W) }
    ensures small { All (λ part. part < 4) result }
    ensures all { length result ≡ 144 }
{
    let mut all = [0u8; 144];
    for p in 0..W * H {
        let (x, y) = place_at::<W, H>(p);
        all[p] = part_of::<W, H>(parts, seed, x, y);
    }
    all
}

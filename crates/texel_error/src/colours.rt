// The endpoints of each place of a block, in arrays for vectors: four bytes (red, green, blue,
// alpha) for each place.
ghost use Rattle.std.specs.Prelude.{◌≡◌, ℕ, ◌+◌, ◌*◌, ◌/◌, ◌<◌, ◌≤◌, IsTrue, List, length, slice_index};
ghost use Rattle.astc_model.specs.Footprints.{is_footprint};
ghost use Rattle.texel_error.specs.Shown.{Ends};
ghost use Rattle.texel_error.specs.Colours.{with_texel};
ghost use Rattle.texel_error.specs.PlaceColours.{AreColoursTo, AreEndTables, ArePartitionLanes, ArePartitionLanesTo, ArePicked};

use texel_lanes::{four_texels_at, lanes_of, picked, put_four_texels};

/// For each place the indices of the four bytes of its partition in a table with four bytes for
/// each partition: with partition k, these are 4 * k to 4 * k + 3.
#[derive(Drop)]
pub struct PartitionLanes {
    pub lanes: [u8; 576],
}

/// The two endpoints of up to four partitions, four bytes for each partition.
#[derive(Drop)]
pub struct EndTables {
    pub firsts: [u8; 16],
    pub seconds: [u8; 16],
}

/// The two endpoints of the partition of each place, four bytes for each place.
#[derive(Drop)]
pub struct PlaceColours {
    pub first: [u8; 576],
    pub second: [u8; 576],
}

impl PartitionLanes {
    /// Returns the indices for a block whose places have the partitions `parts`.
    pub fn of<const W: usize, const H: usize>(parts: &[u8]) -> PartitionLanes
        requires footprint { IsTrue (is_footprint W H) }
        requires all { length parts.now ≡ W * H }
        requires few { (p : ℕ) → p < W * H → slice_index parts.now p < 4 }
        ensures { ArePartitionLanes W H parts.now result }
    {
        let mut lanes = [0; 576];
        put_partitions::<W, H>(&mut lanes, parts);
        PartitionLanes { lanes }
    }
}

impl EndTables {
    /// Returns the tables of the endpoints of the partitions.
    #[inline(always)]
    pub fn of(ends: &[([u8; 4], [u8; 4])]) -> EndTables
        requires { length ends.now ≤ 4 }
        ensures { AreEndTables ends.now (length ends.now) result }
    {
        let (mut firsts, mut seconds) = ([0; 16], [0; 16]);
        for part in 0..ends.len() {
            let (first, second) = ends[part];
            put_texel(&mut firsts, part, first);
            put_texel(&mut seconds, part, second);
        }
        EndTables { firsts, seconds }
    }
}

impl PlaceColours {
    /// Returns an array with all bytes 0.
    pub fn new() -> PlaceColours {
        PlaceColours {
            first: [0; 576],
            second: [0; 576],
        }
    }

    /// Stores at each place the two endpoints of its partition.
    #[inline(always)]
    pub fn put<const W: usize, const H: usize>(
        &mut self,
        partitions: &PartitionLanes,
        tables: &EndTables,
    )
        requires footprint { IsTrue (is_footprint W H) }
        requires small { (k : ℕ) → slice_index partitions.now.lanes k < 16 }
        ensures { (parts : List ℕ) (ends : List Ends)
            → ArePartitionLanes W H parts partitions.now
            → AreEndTables ends (length ends) tables.now
            → ((p : ℕ) → p < W * H → slice_index parts p < length ends)
            → AreColoursTo parts ends (W * H) self.new }
    {
        put_picked::<W, H>(&mut self.first, &tables.firsts, &partitions.lanes);
        put_picked::<W, H>(&mut self.second, &tables.seconds, &partitions.lanes);
    }
}

// The partition of a place; 0 past the end.
fn part_at(parts: &[u8], p: usize) -> u8
    requires { (p : ℕ) → p < length parts.now → slice_index parts.now p < 4 }
    ensures exact { result ≡ slice_index parts.now p }
    ensures few { result < 4 }
{
    if p < parts.len() { parts[p] } else { 0 }
}

// Stores the indices of each place, and those of partition 0 for places that fill up the last group
// of four.
fn put_partitions<const W: usize, const H: usize>(lanes: &mut [u8; 576], parts: &[u8])
    requires footprint { IsTrue (is_footprint W H) }
    requires all { length parts.now ≡ W * H }
    requires few { (p : ℕ) → p < W * H → slice_index parts.now p < 4 }
    requires none { (k : ℕ) → slice_index lanes.old k ≡ 0 }
    ensures { ArePartitionLanesTo parts.now (4 * ((W * H + 3) / 4)) lanes.new }
{
    for p in 0..4 * ((W * H + 3) / 4) {
        let entry = 4 * part_at(parts, p);
        put_texel(lanes, p, [entry, entry + 1, entry + 2, entry + 3]);
    }
}

// Stores for each lane the table entry at the lane's index.
fn put_picked<const W: usize, const H: usize>(
    bytes: &mut [u8; 576],
    table: &[u8; 16],
    lanes: &[u8; 576],
)
    requires footprint { IsTrue (is_footprint W H) }
    requires small { (k : ℕ) → slice_index lanes.now k < 16 }
    ensures { ArePicked ((W * H + 3) / 4) table.now lanes.now bytes.new }
{
    let entries = lanes_of(table);
    for g in 0..(W * H + 3) / 4 {
        let own = four_texels_at(lanes, 16 * g);
        put_four_texels(bytes, 16 * g, picked(entries, own));
    }
}

/// Stores the four bytes of a texel at a place.
#[inline(always)]
pub fn put_texel(lanes: &mut [u8], p: usize, texel: [u8; 4])
    requires { 4 * p + 3 < length lanes.old }
    ensures { lanes.new ≡ with_texel lanes.old p texel }
{
    let [red, green, blue, alpha] = texel;
    lanes[4 * p] = red;
    lanes[4 * p + 1] = green;
    lanes[4 * p + 2] = blue;
    lanes[4 * p + 3] = alpha;
}

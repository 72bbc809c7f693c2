// Sums over the texels of each partition of a source.
ghost use Rattle.std.specs.List.{All};
ghost use Rattle.line_floors.specs.Sums.{AreSumsWithin};

use crate::part_sums::PartitionSums;

/// The sums over the inside texels of up to four partitions.
#[derive(Clone, Copy)]
pub struct BlockSums {
    pub parts: [PartitionSums; 4],
    /// Whether all inside texels are opaque. The bounds leave alpha out then.
    pub is_opaque: bool,
    ghost small: { All (AreSumsWithin 144) parts },
}

//! The partition of each texel of a block with several partitions (Khronos Data Format
//! Specification, ASTC, "Partition Pattern Generation").
#![tactic(auto)]

mod hash;
mod part;

pub use hash::hash52;
pub use part::part_of;

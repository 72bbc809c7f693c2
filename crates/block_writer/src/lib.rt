//! Encodes a legal block as 16 bytes, from which `block_reader` decodes an equal block (Khronos
//! Data Format Specification, ASTC, "Block Layout").
#![tactic(auto)]

mod block;
mod coded;
mod constant;
mod packing;
mod partitions;
mod weights;

pub use block::write_block;

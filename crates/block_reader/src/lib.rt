//! Decodes a block from its 16 bytes, or finds the first fault of an illegal encoding (Khronos Data
//! Format Specification, ASTC, "Block Layout" and "Illegal Encodings").
#![tactic(auto)]

mod block;
mod coded;
mod constant;
mod laws;
mod partitions;
mod sequences;

pub use block::read_block;
pub use laws::blocks_read_are_legal;

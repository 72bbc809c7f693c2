//! Fields of a block and integer sequences
//! (Khronos Data Format Specification, ASTC, "Integer Sequence Encoding").
#![tactic(auto)]

mod fields;
mod reading;
mod tables;
mod writing;

pub use fields::{bits_of_bytes, bytes_of_bits, field, reversed, set_field};
pub use reading::read_sequence;
pub use writing::write_sequence;

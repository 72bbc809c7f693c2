//! Block modes and the shape of coded blocks: decodes block modes, computes how many weights and
//! colour integers a block has and at which levels, and tests whether a block is legal (Khronos
//! Data Format Specification, ASTC, "Block Mode" and "Illegal Encodings").
#![tactic(auto)]

mod colours;
mod laws;
mod legal;
mod modes;
mod shape;
mod weights;

pub use astc_model::Mode;
pub use colours::{
    colour_count, colour_level, colour_shape, colour_start, high_mode_bits, plane_bits,
};
pub use laws::changed_blocks_are_legal;
pub use legal::{is_extent_ordered, is_legal};
pub use modes::mode_of;
pub use shape::shape_fault;
pub use weights::{grid_fault, weight_bits, weight_count};

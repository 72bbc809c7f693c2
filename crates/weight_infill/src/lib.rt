//! The weight of a texel, from the points of the weight grid around it
//! (Khronos Data Format Specification, ASTC, "Weight Infill").
#![tactic(auto)]

mod grid_points;
mod surroundings;
mod texel_weight;
mod touching;

pub use grid_points::factors;
pub use surroundings::Surroundings;
pub use texel_weight::infill;
pub use touching::touched;

//! Unquantization of colour integers and weight integers, and its inverse: the integer whose value
//! is closest to a given number. All are look-ups in tables that are proved equal to the standard's
//! formulas.
#![tactic(auto)]

mod colour_values;
mod nearest_colours;
mod nearest_weights;
mod values_near_bytes;
mod values_near_weights;
mod weight_values;

pub use colour_values::colour_value;
pub use nearest_colours::nearest_colour;
pub use nearest_weights::nearest_weight;
pub use values_near_bytes::nearest_colour_values;
pub use values_near_weights::nearest_weight_values;
pub use weight_values::weight_value;

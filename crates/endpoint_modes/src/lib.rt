//! The colour endpoint modes of the LDR profile: the two endpoints of a partition from its colour
//! values, and the colour values for given bounds.
#![tactic(auto)]

mod channel;
mod colour;
mod decoding;
mod ideal_values;
mod mode;

pub use channel::{base_at, base_with_offset_at, clamp_byte_of, half_way, offsets_rise, scaled};
pub use decoding::endpoints;
pub use ideal_values::ideal;
pub use mode::EndpointMode;

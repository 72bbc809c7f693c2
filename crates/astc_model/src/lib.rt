//! The types and the definitions of ASTC that every other crate uses: footprints, levels, sources,
//! blocks, errors, and what a settled block is.
#![tactic(auto)]

mod block;
mod bounds;
mod constant;
mod errors;
mod flavour;
mod footprint;
mod footprint_name;
mod level;
mod mean;
mod mip_levels;
mod mode;
mod preset;
mod recipe;
mod source;
mod weights;

pub use block::{Block, BlockFault, Coded, Constant};
pub use bounds::Box8;
pub use constant::constant_bytes;
pub use errors::texel_error;
pub use flavour::Flavour;
pub use footprint::Footprint;
pub use footprint_name::FootprintName;
pub use level::{Digit, Level};
pub use mean::{constant_error, mean_constant};
pub use mip_levels::{full_levels, side_at_level};
pub use mode::Mode;
pub use preset::Preset;
pub use recipe::Recipe;
pub use source::Source;
pub use weights::ChannelWeights;

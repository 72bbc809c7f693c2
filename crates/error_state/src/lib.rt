//! The error of a block that changes by one integer at a time (Khronos Data Format Specification,
//! ASTC, "Weight Application").
#![tactic(auto)]

mod colour_scan;
mod kept_parts;
mod kinds;
mod pairs;
mod scans;
mod state;
mod weight_scan;

pub use kinds::CodedKind;
pub use pairs::BetterPair;
pub use scans::Better;
pub use state::ErrorState;

//! The ends of commands: the outcomes, and the state after each.
#![tactic(auto)]

mod loading;
mod outcome;
mod storing;

pub use loading::{load_images, load_ktx};
pub use outcome::{Outcome, after_report, after_write, status};
pub use storing::store;

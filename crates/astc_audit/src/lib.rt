//! The command audit: whether the blocks of a texture are settled for the images that it was made
//! of.
#![tactic(auto)]

mod audit;
mod findings;
mod gathering;
mod reporting;
mod verdict;
mod wanted;

pub use audit::audit_files;
pub use findings::{Findings, audit_image};
pub use gathering::settings_for;
pub use verdict::audit_block;
pub use wanted::want_of;

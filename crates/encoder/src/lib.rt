//! The compressor of the blocks of a picture, with all that they share.
#![tactic(auto)]

mod encoder;
mod settings;
mod shown;
mod tables;
mod verdict;

pub use descent::{FitScratch, SearchView};
pub use encoder::Encoder;
pub use settings::Settings;
pub use shown::shown_block;
pub use tables::tables_for;
pub use verdict::Verdict;

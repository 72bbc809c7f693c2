//! Blocks, sources and advisers as rows of tables write them.
#![tactic(auto)]

mod advisers;
mod blocks;
mod judging;
mod sources;

pub use advisers::{Notes, Noting, adviser_of, block_and_error, new_notes, pool_step};
pub use blocks::{block_of_fields, told_block};
pub use judging::{Judging, flavour_of, judged_words};
pub use sources::source_of;

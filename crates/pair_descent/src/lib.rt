//! Settled blocks for which no change of both integers of a pair has a smaller error either.
#![tactic(auto)]

mod least;
mod settle;

pub use least::pair_least;
pub use settle::{packed_block, settle_pairs};

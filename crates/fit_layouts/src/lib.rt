//! Estimates which layouts (partitionings and second planes) of a block have the smallest errors,
//! before any block is fitted: one partition, a second plane, and the best of the partitionings of
//! all seeds. Arithmetic wraps. The quality of the estimates is measured, not proved.
#![tactic(auto)]

mod best_seeds;
mod choices;
mod cutoffs;
mod partitioning;
mod partitionings;
mod positions;
mod prefixes;
mod ranking;
mod ranks;
mod search;
mod spread;

pub use partitionings::{PartitioningArrays, PartitioningTables, PartitioningView};
pub use ranking::Ranked;
pub use search::{FitReach, LayoutScratch};

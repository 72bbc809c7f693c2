//! Settled blocks: no listed block, no proposal and no change of one integer has a smaller error.
#![tactic(auto)]

/// Makes room for the fits of blocks as `fit_scratch!(name);`, in the frame of the function that
/// has this line, some 90 KB. Tables that take much stack while they are made are made before, by
/// another function.
#[macro_export]
macro_rules! fit_scratch {
    ($scratch:ident) => {
        let mut layouts = $crate::LayoutScratch::new();
        let mut kinds = $crate::EstimateRoom::new();
        let mut work = $crate::FitWork::new();
        let $scratch = &mut $crate::FitScratch {
            layouts: &mut layouts,
            kinds: &mut kinds,
            work: &mut work,
        };
    };
}

mod circle;
mod encode;
mod fits;
mod least;
mod proposals;
mod search;
mod settling;
mod tables;

pub use block_fit::{EstimateRoom, FitScratch, FitWork, LayoutScratch};
pub use encode::{bytes_of, encode_block, settled_best};
pub use least::is_least;
pub use search::{Search, is_none_under};
pub use settling::settle;
pub use tables::{SearchArrays, SearchTables, SearchView};

//! Fitted blocks: legal blocks close to a source, by least squares in whole numbers, as starts for
//! a search. The distance of these blocks from the source is measured; no clause states it.
#![tactic(auto)]

mod best_colours;
mod drawing;
mod effort;
mod estimates;
mod fitting;
mod grid_fits;
mod levels;
mod modes;
mod refining;
mod tables;

pub use effort::Effort;
pub use estimates::EstimateRoom;
pub use fit_layouts::LayoutScratch;
pub use fitting::{FitScratch, FitWork, FittedBlock, FittedBlocks, fitted};
pub use tables::{FitArrays, FitTables, FitView};

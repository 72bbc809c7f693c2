//! A shelf that reports the growth of its output to a watcher, the length of a KTX file by its
//! first bytes, a line on standard error that shows both, and a report whose total is noted.
#![tactic(auto)]

mod estimate;
mod growth;
mod laws;
mod length;
mod report;
mod shelf;
mod standard_error;
mod watcher;

pub use estimate::{Grouped, RestEstimate};
pub use laws::lengths_are_those_of_files;
pub use length::{file_length, length_in};
pub use report::NotedReport;
pub use shelf::WatchedShelf;
pub use standard_error::StandardErrorLine;
pub use watcher::Watcher;

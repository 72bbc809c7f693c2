//! Files and reports as traits, with objects that implement them in memory, over real files and
//! over standard output.
#![tactic(auto)]

mod buffer;
mod edge;
mod failures;
mod file_shelf;
mod folder;
mod growing;
mod memory_report;
mod memory_shelf;
mod pieces;
mod report;
mod shelf;
mod steady_shelf;
mod stop;
mod stream_report;
mod transfer;

pub use edge::{read_through, write_some};
pub use file_shelf::FileShelf;
pub use growing::take_growing;
pub use memory_report::MemoryReport;
pub use memory_shelf::MemoryShelf;
pub use pieces::{PieceFault, is_at_end, read_pieces, skip, take_pieces};
pub use report::Report;
pub use shelf::Shelf;
pub use steady_shelf::SteadyShelf;
pub use stop::{NoMemory, ShelfStop, Stop};
pub use stream_report::StreamReport;
pub use transfer::{put_all, take_full};

//! The kinds that files seem to have, by a look at each that changes none, and the system's message
//! for a failed write.
#![tactic(auto)]

mod file_looker;
mod front;
mod noted_files;
mod sight;

pub use file_looker::FileLooker;
pub use front::{FileKind, kind_of};
pub use noted_files::{NotedFile, NotedFiles};
pub use sight::{Look, Looker, Sight};

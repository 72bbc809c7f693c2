//! Part files: the blocks of one part of a KTX file with their errors, after the header of the
//! whole file and the mark of their job, and their reader, so that parts can be settled apart and
//! joined.
#![tactic(auto)]

mod fault;
mod front;
mod laws;
mod mark;
mod part;
mod piece;
mod range;
mod reading;

pub use fault::{PartFault, PartStop};
pub use front::{Front, part_header};
pub use laws::{parts_meet, parts_read_back, pieces_read_back};
pub use mark::JobMark;
pub use part::Part;
pub use piece::{block_of, error_of, piece_of};
pub use range::part_range;
pub use reading::read_part;

//! The settled blocks of a texture: row by row as in a pack, with queries to the advisers before
//! each, or the blocks of a range, for each of which a block of another texture may be a proposal.
//! The crate writes a texture as a KTX file while its blocks are settled, or from existing blocks,
//! and the report of their errors.
#![tactic(auto)]

mod options;
mod packer;
mod range_sums;
mod reporting;
mod rows;
mod settling;
mod stored_texture;
mod storing;
mod sums;
mod writing;

pub use options::PackOptions;
pub use reporting::report_range;
pub use settling::{BlockRange, SettledBlocks, settle_range};
pub use storing::store;
pub use writing::write_texture;

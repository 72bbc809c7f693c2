//! The commands over parts: `part` settles some of the blocks of a texture, and `join` makes the
//! texture of all its parts.
#![tactic(auto)]

mod blocks;
mod fault;
mod gathering;
mod joining;
mod laws;
mod part;
mod pieces;

pub use fault::JoinFault;
pub use joining::{JoinEnd, join_parts};
pub use laws::{parts_agree, parts_pack};
pub use part::pack_part;

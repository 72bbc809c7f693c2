//! Images of one size as a value: their texels, the sources of their blocks, their mip chains, and
//! a digest.
#![tactic(auto)]

mod chains;
mod digests;
mod images;
mod laws;
mod sources;

pub use chains::chain;
pub use digests::digest_of;
pub use images::Images;
pub use laws::{digests_are_published, levels_are_halved};
pub use sources::source_at;

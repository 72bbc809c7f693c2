//! The command polish: improve each block of a texture from any encoder for its images, or leave
//! the block unchanged.
#![tactic(auto)]

mod polish;
mod settling;

pub use polish::polish_file;

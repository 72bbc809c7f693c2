//! Plain `.astc` files, one image of ASTC blocks each: 16 bytes of header, the blocks, and their
//! reader.
#![tactic(auto)]

mod counting;
mod fault;
mod header;
mod image;
mod laws;
mod reading;

pub use fault::{AstcFault, AstcStop};
pub use header::astc_header;
pub use image::AstcImage;
pub use laws::astc_reads_back;
pub use reading::read_astc;

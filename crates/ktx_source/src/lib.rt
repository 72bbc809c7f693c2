//! Uncompressed files in the KTX format, version 1 (Khronos KTX file format), as sources of
//! pictures with stored mip levels: texels of three or four channels of eight bits.
#![tactic(auto)]

mod fault;
mod format;
mod front;
mod levels;
mod raster;
mod reading;
mod sizes;
mod source;

pub use fault::{SourceFault, SourceStop};
pub use reading::read_source;
pub use source::SourceKtx;

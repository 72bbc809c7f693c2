//! Files in the KTX format, version 1, with ASTC blocks (Khronos KTX file format): their framing
//! around blocks of 16 bytes, and their reader.
#![tactic(auto)]

mod fault;
mod framing;
mod front;
mod ktx;
mod laws;
mod levels;
mod reading;

pub use fault::{KtxFault, KtxStop};
pub use framing::{columns, header, level_size, place, rows};
pub use front::{KtxHeader, header_in};
pub use ktx::Ktx;
pub use laws::files_read_back;
pub use reading::read_file;
pub use texture::Shape;

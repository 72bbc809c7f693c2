//! The command unpack: decode a texture of blocks to PAM images of the texels that it shows.
#![tactic(auto)]

mod bands;
mod reporting;
mod storing;
mod sums;
mod unpack;
mod unpacked_image;

pub use unpack::unpack_file;
pub use unpacked_image::UnpackedImage;

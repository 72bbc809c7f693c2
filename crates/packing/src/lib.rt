//! The commands that pack: `pack` makes a texture of images, `packktx` of the stored mip levels of
//! an uncompressed texture, and `trial` of a picture that is made of a seed.
#![tactic(auto)]

mod command;
mod levels;
mod picture;
mod shape;
mod source;
mod trying;

pub use command::pack;
pub use levels::pack_levels;
pub use picture::trial_images;
pub use shape::{layout_of, options_of, settings_of, want_of};
pub use source::pack_source;
pub use trying::trial;

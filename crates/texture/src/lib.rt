//! A texture of ASTC blocks in any file: its shape, the number and the places of its blocks, and
//! its rows of blocks in order: level by level, element by element, face by face, row by row.
#![tactic(auto)]

mod cover;
mod extent;
mod layout;
mod places;
mod rows;
mod shape;

pub use cover::covering;
pub use extent::Extent;
pub use layout::Layout;
pub use places::{BlockPlace, ImagePlace};
pub use rows::{BlockRow, BlockRows};
pub use shape::Shape;

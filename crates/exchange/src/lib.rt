//! The commands import and export: convert a plain `.astc` file to a texture, and an image of a
//! texture to such a file.
#![tactic(auto)]

mod export;
mod import;
mod reporting;

pub use export::export_file;
pub use import::import_file;

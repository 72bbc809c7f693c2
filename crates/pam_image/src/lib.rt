//! Images in the PAM format (Netpbm PAM manual), read from a shelf.
#![tactic(auto)]

mod fits;
mod front;
mod laws;
mod raster;
mod reading;
mod series;
mod want;
mod widening;

pub use astc_model::full_levels;
pub use images::{Images, chain, source_at};
pub use laws::written_images_read_back;
pub use pam_header::{HeaderName, ImageFault, ImageStop, pam_header};
pub use reading::read_images;
pub use want::Want;

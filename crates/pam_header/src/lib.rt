//! Headers of PAM images (Netpbm PAM manual): read line by line with the first fault of each, and
//! written.
#![tactic(auto)]

mod fault;
mod header;
mod line;
mod text;
mod written;

pub use fault::{HeaderName, ImageFault, ImageStop};
pub use header::{PamHeader, header_at};
pub use written::pam_header;

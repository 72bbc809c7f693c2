//! Decodes the texels of a block, and computes their error against a source (Khronos Data Format
//! Specification, ASTC, "Weight Application").
#![tactic(auto)]

mod block_texels;
mod colours;
mod decoded;
mod drawn;
mod ends;
mod errors;
mod goal;
mod groups;
mod mixing;
mod order;
mod places;
mod shape;
mod steps;
mod weights;

pub use block_texels::{MAGENTA, texel, texels};
pub use colours::{EndTables, PartitionLanes, PlaceColours, put_texel};
pub use decoded::{Decoded, block_numerators, decode, decode_coded, part_ends};
pub use drawn::{DrawnPoints, Outline, drawn_under};
pub use ends::{ends_of, ends_of_part};
pub use errors::{coded_error_under, error_at, error_of, error_under};
pub use goal::Goal;
pub use groups::GroupOrigins;
pub use mixing::shown;
pub use order::{RankedGroup, SourceLanes};
pub use places::{parts_of, place_at};
pub use shape::shape_of;
pub use steps::Steps;

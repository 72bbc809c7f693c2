//! The values of a colour integer that may reduce the error of a block. Lower bounds on the error,
//! from sums over the texels of the partition, rule out the others without decoding a texel
//! (Khronos Data Format Specification, ASTC, "LDR Endpoint Decoding").
//!
//! The bounds are called forms (`moments`): if the form with a value is at least a number `most`,
//! the error with the value is at least the present one. The place of an integer is its index, 0 to
//! 7, among those of its partition.
#![tactic(auto)]

mod bounds;
mod curves;
mod one_channel;
mod orders;
mod own_walk;
mod part_scan;
mod ranks;
mod three_channels;

pub use bounds::{
    ValueBounds, is_single_channel, single_channel_error_under, value_bounds_of, values_to_try,
};
pub use curves::{Curve, curve_of};
pub use one_channel::{Trend, is_far_by_channel};
pub use orders::WalkOrder;
pub use own_walk::{OwnWalk, integer_on, walk_ends, walk_error_under, walk_of};
pub use part_scan::{PartitionScan, ends_tried, ends_with, place_within, scan_of, value_of};
pub use ranks::{integer_at, rank_of};
pub use three_channels::{ThreeChannels, is_far_by_three_channels};

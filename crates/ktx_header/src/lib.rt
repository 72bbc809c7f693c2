//! The common part of the files in the KTX format, version 1 (Khronos KTX file format): the words
//! of the header and their tests, and the steps after the header: keys, sizes of levels, the end.
#![tactic(auto)]

mod extent;
mod fault;
mod order;
mod steps;
mod words;

pub use extent::extent_of;
pub use fault::{DataFault, HeaderFault};
pub use order::{WordOrder, word};
pub use steps::{end, enough, read_size, skip_keys};
pub use words::{HeaderWords, first_difference, words_of};

//! The words of tables of cases: lines, files by rules, and bytes as short texts. A rule has pieces
//! with `;` between two, each of which adds bytes or changes the bytes so far; [`file_by`] lists
//! them.
#![tactic(auto)]

mod changes;
mod digits;
mod lines;
mod pictures;
mod rules;
mod shelves;
mod tables;
mod texts;

pub use digits::{bad_row, block_of_digits, byte_at, number, numbers, short, small, small_numbers};
pub use rules::file_by;
pub use shelves::{add_file, fail_at, shelf_with};
pub use tables::{Row, Teller, told_table};
pub use texts::{fnv, told, told_texels};

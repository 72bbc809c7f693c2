//! The hints for a person after an end of the program: lines with the fault of a word or a file,
//! and what is expected there.
#![tactic(auto)]

mod ending_line;
mod fault_lines;
mod file_line;
mod form;
mod hint;
mod quality_line;
mod second_look;
mod sentences;
mod text;
mod usage_lines;
mod way_line;
mod words;

pub use hint::{Hint, NO_TEXT};
pub use second_look::{SeenWord, look_again};

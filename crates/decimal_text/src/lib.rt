//! Decimal numbers in texts: file headers and command lines write them alike.
#![tactic(auto)]

mod numbers;

pub use numbers::number_in;

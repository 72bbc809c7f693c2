// Tests of `texel_error`, `error_state` and `line_floors` through their public functions.
#![tactic(auto)]

#[cfg(test)]
mod error_state_tests;
#[cfg(test)]
mod line_floors_tests;

// Tests of `ideal_weights`, `block_fit`, `descent`, `pair_descent` and `encoder` through their
// public functions.
#![tactic(auto)]

#[cfg(test)]
mod block_fit_tests;
#[cfg(test)]
mod descent_tests;
#[cfg(test)]
mod encoder_tests;
#[cfg(test)]
mod pair_descent_tests;
#[cfg(test)]
mod pattern_tests;

// Tests of `watched_shelf`, over its public calls.
#![tactic(auto)]

#[cfg(test)]
mod line_tests;
#[cfg(test)]
mod shelf_tests;

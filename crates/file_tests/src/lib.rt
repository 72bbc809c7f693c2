// Tests of `tex_shelf`: its shelves and reports in memory, on the machine and on standard output.
#![tactic(auto)]

#[cfg(test)]
mod tex_shelf_tests;

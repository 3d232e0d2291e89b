//! A test of `warp_server` by its public names: the call for several uploads, which the program doesn't make. What the program shows stands in `cases`,
//! `tools/listens` and `tools/sweeps` at the top of the repository.
#![tactic(auto)]

#[cfg(test)]
mod answer_tests;
#[cfg(test)]
mod fixtures;

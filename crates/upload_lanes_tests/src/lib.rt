//! Tests of `upload_lanes` by its public names, in a crate of their own: with them inside, it would be proved once more.
#![tactic(auto)]

#[cfg(test)]
mod halt_tests;
#[cfg(test)]
mod made;
#[cfg(test)]
mod silent_tests;

//! Tests of `xpath_child`, `site_hooks`, `visit_replay` and `replay_workers` by their public names, in a crate of their own: with them inside, each
//! library would be proved once more. What an upload and a report can say stands in `cases` at the top of the repository.
#![tactic(auto)]

#[cfg(test)]
mod call_tests;
#[cfg(test)]
mod made;
#[cfg(test)]
mod pool_tests;
#[cfg(test)]
mod visit_tests;

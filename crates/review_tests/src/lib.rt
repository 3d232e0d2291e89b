//! Tests of the libraries of the administrator's page by their public names, against values that were reckoned by hand.
#![tactic(auto)]

#[cfg(test)]
mod request_tests;
#[cfg(test)]
mod text_tests;
#[cfg(test)]
mod tree_tests;

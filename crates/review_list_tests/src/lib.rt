//! Tests of `review_lists` by its public names, on a desk that is opened by hand.
#![tactic(auto)]

#[cfg(test)]
mod list_tests;

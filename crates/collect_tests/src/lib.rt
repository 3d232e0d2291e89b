//! Tests of the collector's libraries, by their public names: what requests are answered, and what stands where a call
//! of a file fails.
#![tactic(auto)]

#[cfg(test)]
mod answer_tests;
#[cfg(test)]
mod disk_tests;
#[cfg(test)]
mod file_tests;
#[cfg(test)]
mod memory_folder;
#[cfg(test)]
mod word_tests;

//! Tests of lines, rows and words, and of the adapters of real files.
#![tactic(auto)]

#[cfg(test)]
mod fixture;
#[cfg(test)]
mod host_tests;
#[cfg(test)]
mod rows_tests;
#[cfg(test)]
mod text_tests;
#[cfg(test)]
mod words_tests;

//! Tests of the lines of a source, and of talks with a desk that echoes.
#![tactic(auto)]

#[cfg(test)]
mod lines_tests;
#[cfg(test)]
mod talk_tests;

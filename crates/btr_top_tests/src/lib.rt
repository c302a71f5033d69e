//! Tests of whole runs of the program, over a device in memory.
#![tactic(auto)]

#[cfg(test)]
mod top_tests;

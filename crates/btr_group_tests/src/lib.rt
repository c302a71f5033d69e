//! Tests of shared buffers with group commit, over a device in memory.
#![tactic(auto)]

#[cfg(test)]
mod fixture;
#[cfg(test)]
mod group_tests;
#[cfg(test)]
mod thread_tests;

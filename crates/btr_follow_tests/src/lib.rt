//! Tests of a follower, of the frames that a store ships, and of a leader and its follower, over devices in memory.
#![tactic(auto)]

#[cfg(test)]
mod fixture;
#[cfg(test)]
mod follow_tests;
#[cfg(test)]
mod frame_tests;
#[cfg(test)]
mod world_tests;

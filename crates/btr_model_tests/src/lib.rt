//! Tests of the model, of devices, sources and sinks in memory, and of the bytes of entries and pages.
#![tactic(auto)]

#[cfg(test)]
mod base_tests;
#[cfg(test)]
mod board_tests;
#[cfg(test)]
mod disk_tests;
#[cfg(test)]
mod entry_tests;
#[cfg(test)]
mod feed_tests;
#[cfg(test)]
mod fixture;
#[cfg(test)]
mod hist_tests;
#[cfg(test)]
mod io_tests;
#[cfg(test)]
mod node_tests;
#[cfg(test)]
mod put_tests;
#[cfg(test)]
mod roll_tests;

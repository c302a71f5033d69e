//! Tests of trees, of the walks over them and over fetched pages, and of what a distiller computes.
#![tactic(auto)]

#[cfg(test)]
mod cell_tests;
#[cfg(test)]
mod damage_tests;
#[cfg(test)]
mod device_tests;
#[cfg(test)]
mod diff_tests;
#[cfg(test)]
mod distil_tests;
#[cfg(test)]
mod fixture;
#[cfg(test)]
mod kernel_tests;
#[cfg(test)]
mod pages_tests;
#[cfg(test)]
mod scan_tests;
#[cfg(test)]
mod shelf;
#[cfg(test)]
mod shelf_tests;
#[cfg(test)]
mod tree_tests;
#[cfg(test)]
mod window_tests;

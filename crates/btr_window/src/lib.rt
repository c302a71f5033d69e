//! Statistics of one version of a stream, read from its tree (BTrDB, FAST 2016).
//!
//! [`aggregate`] returns the number of points of a range, their sum, and the least and the greatest value. [`aligned`]
//! returns the same of each aligned window of `2^p` ns that a range meets (BTrDB's GetStatisticalRange), and
//! [`windows`] of each window of one width from the start of a range on. A slot that lies in one window is not visited:
//! its own aggregate is enough.
//!
//! [`aggregate_from`], [`aligned_from`] and [`windows_from`] return the same of a version whose nodes are fetched from blocks
//! ([`btr_tree::Nodes`]).
#![tactic(auto)]

// ranges and windows
mod accumulate;
mod inside;
mod part;
mod whole_windows;
// walks over a tree
mod range_aggregate;
mod window_walk;

pub use range_aggregate::{aggregate, aggregate_from};
pub use window_walk::{aligned, aligned_from, windows, windows_from};

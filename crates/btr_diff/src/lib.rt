//! The changes between two versions of a stream, found by their trees (BTrDB, FAST 2016).
//!
//! [`changes`] compares two trees and returns the slots of time in which they differ (BTrDB's ComputeDiff). It visits
//! no part of the newer tree that is as old as the older version: that part is equal in both trees. [`changes_with_lead`]
//! returns the same times, and those that follow them for as long as a lead. [`changes_from`] does as `changes` for two roots whose
//! nodes are fetched one at a time. [`compare`] is the walk of all three, over any source of nodes.
#![tactic(auto)]

// two lists of points
mod points;
// two trees
mod comparing;
mod comparison;
mod fetched_changes;
mod gathering;
mod leaf_walk;
mod newer_slot;
mod tree_walk;

pub use comparing::{changes, changes_with_lead, compare};
pub use comparison::{Comparison, Findings};
pub use fetched_changes::changes_from;

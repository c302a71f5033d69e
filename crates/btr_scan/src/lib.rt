//! Raw points of one version of a stream, read from its tree (BTrDB, FAST 2016).
//!
//! [`range`] returns the points of a range of time (BTrDB's GetRange), and [`append_range`] appends them to a list. [`nearest`]
//! returns the point that is nearest to a time in one direction (BTrDB's GetNearestValue). All of them visit only nodes whose
//! spans can hold the answer, and no empty slot.
//!
//! [`range_from`] and [`nearest_from`] return the same of a version whose nodes are fetched from blocks ([`btr_tree::Nodes`]),
//! and hold one page at a time for each height.
//!
//! They are calls of [`append_in_place`] and [`nearest_in_place`], which find the same at a place of any source of nodes
//! ([`btr_tree::NodeSource`]). Whatever the source holds, these are safe, and a refusal has the cause that the source gives it. If
//! it holds the tree of a past, then they find what that past has, and are refused only harmlessly.
#![tactic(auto)]

// the points of a range
mod range_walk;
mod span_walk;
// the point nearest to a time
mod backward;
mod forward;
mod nearest_walk;

pub use nearest_walk::{nearest, nearest_from, nearest_in_place};
pub use range_walk::{append_range, range, range_from};
pub use span_walk::append_in_place;

//! Whether the trees that are stored on a device are those of its entries, and else the first wrong node (BTrDB, FAST 2016).
//!
//! The versions of a stream share nodes, so a page may be in the trees of many versions. [`first_wrong_node`] judges each page once, by
//! the tree of the page's own version, children before parents. Then it knows for each root whether it leads to the tree of its version.
//!
//! The definitions say over nodes and pages in blocks as plain data what a right root is. The laws say that a node is judged at its own
//! version alone: whether its own fields are right, and whether its children are right. From this follows for the root of each version
//! whether it leads to the tree of the version, and else which node is the first wrong one.
#![tactic(auto)]

// the node of a span in a tree, and whether a stored node is that node
mod finding;
mod own;
// the pages of a device
mod reading;
// how a page is judged, and all pages
mod judging;
mod marking;
// the roots of commits, and the way from a root to the first wrong node
mod descending;
mod roots;
// the whole
mod verifying;
// theorems on the definitions
mod laws;

pub use laws::{
    first_wrong_is_one, leaves_are_judged, nodes_are_judged_once, nodes_of_one_version_are_one,
    right_nodes_are_own, roots_are_right, roots_lead_or_are_wrong,
};
pub use verifying::{Made, VerifyFault, first_wrong_node};

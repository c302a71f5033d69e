//! Where the pages of nodes are fetched from: a device, or memory.
//!
//! [`DiskNodes`] reads the page of a node from a device when it is asked for. [`HeldNodes`] has pages in memory. Both are
//! [`btr_tree::Nodes`], over which walks through fetched nodes are generic.
#![tactic(auto)]

mod disk_nodes;
mod held_nodes;

pub use disk_nodes::DiskNodes;
pub use held_nodes::HeldNodes;

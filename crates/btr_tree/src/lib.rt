//! The versioned tree over time of one stream (BTrDB, FAST 2016).
//!
//! A [`Tree`] has the points of one version. [`Tree::apply`] makes the tree of the next version from a cut and added points.
//! A span of time with at most 252 points is a leaf. A span with more is an inner node, which has the aggregate, the version
//! and the child of each of its 64 slots. In memory it keeps only the slots that have a point, or a version other than one
//! that it keeps once. Versions share what a commit does not touch, and any thread can read them.
//!
//! Each node has its block on the device. [`Tree::apply`] reports the nodes that are new with their blocks, children first, and
//! [`Tree::leaf`] and [`Tree::inner`] make trees of nodes that were read, from the leaves up.
//!
//! Links to nodes are opaque: [`visit`] counts each node in a [`Steps`]. Only a call that knows a type with [`Label`] can make a
//! counter. All public calls here are generic in the label, so they count with their caller's counter. [`Tree::apply_shared`]
//! counts what its threads make with forks. A fork that has counted cannot be dropped, but only added to another counter. One call
//! makes nodes, and it counts each. A walk that its caller does not count goes through a tree that is handed in as [`Uncounted`].
//!
//! A walk that is generic in a [`NodeSource`] is proved once for all sources of nodes. [`Memory`] is a tree in memory as a source.
//!
//! The definitions say over a past as plain data which spans are nodes, and the versions of nodes and slots. A past is a base
//! and the commits since. The crate knows no bytes, no device and no other stream.
#![tactic(auto)]

// nodes and their counter
mod new_node;
mod node;
mod packed;
mod root;
mod slots;
mod steps;
// why a commit is not applied
mod fault;
// what is read of nodes
mod aggregate;
mod fetch;
mod fetched;
mod found;
mod link;
mod memory;
mod outside;
mod source;
mod spot;
mod uncounted;
mod walk_fault;
// what a commit writes
mod apply;
mod build;
mod commit;
mod node_count;
mod shared;
mod tree;
mod work;
// trees made of nodes that were read
mod opened;
// theorems on the definitions
mod laws;

pub use commit::TreeCommit;
pub use fault::TreeFault;
pub use fetch::{NodeFault, Nodes, fetch_node, find_root};
pub use fetched::{Fetched, PagePoints, PageSlots};
pub use found::FoundNode;
pub use laws::equal_since_its_version;
pub use link::visit;
pub use memory::Memory;
pub use new_node::{NewNode, NewPoints, NewSlots};
pub use node::{Child, Node, Slot};
pub use root::root_span;
pub use slots::Slots;
pub use source::NodeSource;
pub use spot::{Root, Spot};
pub use steps::{Aside, Label, Steps};
pub use tree::{Applied, Tree};
pub use uncounted::Uncounted;
pub use walk_fault::WalkFault;

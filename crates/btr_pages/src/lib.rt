//! The pages of a stream's nodes in the blocks of a device, children before their parents (the node blocks of BTrDB, FAST 2016).
//!
//! [`fill_page`] writes the page of a node that a commit wrote into its block. [`Trees`] makes the tree of each page, children before
//! their parents, and finds the trees of a page's children by their blocks. It refuses a page that has a child whose tree was not made,
//! or that is not in a lower block, or not the child that the page says.
//!
//! The definitions say over blocks and pages as plain data which nodes of a stream there are, and which pages stand rightly where
//! they stand. The crate knows no device.
#![tactic(auto)]

// the page of a node that a commit wrote
mod new_page;
// the trees that were made of pages, and where they are found
mod known;
mod table;
mod trees;
// how a tree is made of a page
mod children;
mod making;
// the pages that blocks are, and the trees of roots
mod blocks;
mod roots;
// theorems on the definitions
mod laws;

pub use blocks::block_at;
pub use known::Known;
pub use laws::reported_pages_stand;
pub use new_page::fill_page;
pub use trees::Trees;

//! Pages of the tree's nodes as bytes, and back (the node blocks of BTrDB, FAST 2016).
//!
//! A page is a block of 4096 bytes. Numbers are big-endian, signed numbers are two's complement.
//!
//! | offset | field |
//! |---|---|
//! | 0 | ASCII `BTR-LEAF` or `BTR-NODE` |
//! | 8 | the span's start in 8 bytes, signed |
//! | 16 | its height in 4 bytes: 0 to 10 for a leaf, 1 to 10 for an inner node |
//! | 20 | the stream in 4 bytes |
//! | 24 | the version in 8 bytes, 1 to 4294967295 |
//! | 32 | the count in 8 bytes: 1 to 252 for a leaf, 253 to `2^32` for an inner node |
//! | 40 | 24 zeros |
//! | 64 | leaf: 252 places for the time and the value of a point, 8 bytes each. Its points stand first, the rest are zeros |
//! | 64 | inner node: 64 slots of 56 bytes, then 448 zeros |
//!
//! A slot is the count in 8 bytes, the sum in 16 bytes, the least and the greatest value, the version and the child's block in 8
//! bytes each. [`NodePage`] has the table that a page keeps. A page has one spelling: [`decode`] returns a page exactly if the
//! bytes are that of one that keeps the table, so a block is either a page or damaged.
#![tactic(auto)]

mod page;
// the bytes
mod fields;
mod reading;
mod writing;
// the table
mod inner_table;
mod leaf_table;
mod span_table;
// the two directions
mod codec;
// pages that are filled in place
mod filling;
// what the definitions entail
mod laws;

pub use codec::{decode, encode, spell};
pub use filling::{fill_leaf, put_inner_end, put_inner_header};
pub use laws::no_two_pages_have_the_same_bytes;
pub use page::{NodePage, PAGE, PageHeader, PageSlot, SLOTS};
pub use writing::put_slot;

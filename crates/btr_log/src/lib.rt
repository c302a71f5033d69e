//! A log of extents on a block device: each a gate, a body, and then the next gate.
//!
//! An append makes the body durable first, and then opens the gate before it. So a crash at any moment
//! leaves the log as it was, or with the whole body at its end. A reader of the whole log keeps a piece of it,
//! so that one read of the device serves about a mebibyte of extents.
#![tactic(auto)]

mod ahead;
mod append;
mod found;
mod head;
pub mod laws;
mod log;
mod piece;
mod read;

pub use append::AppendFault;
pub use found::{ExtentFault, Found};
pub use head::{HEAD_BYTES, HEAD_MARK, Head, blocks_of_content};
pub use log::Log;
pub use piece::{Piece, READ_AHEAD};
pub use read::find_extent;

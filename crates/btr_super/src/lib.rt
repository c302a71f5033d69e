//! The two superblocks of a device: which store is on it, how an empty store is made, and how the superblock that counts is replaced.
//!
//! Blocks 0 and 1 are gate and body of superblock A (side 0), blocks 2 and 3 those of superblock B
//! (side 1). The body of an open gate says how many blocks the store has, and from which gate its log is
//! read. The log begins at block [`LOG_START`].
#![tactic(auto)]

mod choosing;
mod codec;
mod formatting;
mod gates;
mod laws;
mod replacing;
mod superblock;

pub use choosing::{ChooseFault, choose};
pub use formatting::{FormatFault, format};
pub use laws::formats_are_these;
pub use replacing::{ReplaceFault, replace};
pub use superblock::{FORMAT, LOG_START, MAX_BLOCKS, MIN_BLOCKS, SEALED_FORMAT, SUPER_MARK, Super};

//! A block device with its crash images, and one in memory.
//!
//! The device is the trait [`Disk`]: blocks of 4096 bytes that are read, written and synced.
//! What a crash may leave of it is part of each contract: a block that was written since the last sync
//! that succeeded may hold any bytes, and each other block holds what a read returns.
#![tactic(auto)]

mod block_source;
pub mod bytes;
mod call_record;
mod disk;
mod fuse;
mod gate;
mod held;
mod image;
pub mod laws;
mod memory;
mod parts;
mod putting;
mod torn;

pub use block_source::{BlockSink, BlockSource, Blocks, NoBlocks};
pub use disk::{BLOCK, Disk, Failed};
pub use fuse::FuseDisk;
pub use gate::{GATE_MARK, is_open_gate, open_gate, publish};
pub use held::HeldBlocks;
pub use image::Fill;
pub use memory::{Capacity, MemDisk};
pub use parts::Parts;
pub use putting::{write_alone, write_by_threads};

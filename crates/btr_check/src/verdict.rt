//! What a check of a device returns.

/// What a check says of a device.
#[derive(Clone, Copy, PartialEq, Eq)]
pub enum Verdict {
    /// The device holds a legal history of this many entries.
    Stands { entries: u64 },

    /// This block is the first wrong one of the device.
    Wrong { block: u64 },

    /// Neither superblock has an open gate: the device holds no store.
    NotAStore,

    /// The device failed.
    Fault,

    /// There was not enough memory.
    Want,
}

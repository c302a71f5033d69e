//! Superblocks: what one says, and the limits of its fields.
ghost use Rattle.std.specs.Prelude.{◌≡◌};
ghost use Rattle.btr_super.specs.Super.{has_seal};

/// The format of a superblock that [`format`](crate::format) writes: the least one. [`crate::formats_are_these`] states it as a numeral.
pub const FORMAT: u32 = 1;

/// The greatest format of a superblock: that of a sealed store. [`crate::formats_are_these`] states it as a numeral.
pub const SEALED_FORMAT: u32 = 4;

/// The block at which the log begins: a gate.
pub const LOG_START: u64 = 4;

/// The least number of blocks of a store.
pub const MIN_BLOCKS: u64 = 8;

/// The greatest number of blocks of a store.
pub const MAX_BLOCKS: u64 = 1 << 32;

/// The first eight bytes of a superblock's body: ASCII `BTR-SUPR`.
pub const SUPER_MARK: [u8; 8] = *b"BTR-SUPR";

/// A superblock: which blocks a store has, and from which gate its log is read.
#[derive(Clone, Copy, PartialEq, Eq)]
pub struct Super {
    /// Of two open superblocks the one with the greater number counts. At least 1.
    pub seq: u64,

    /// 0 for superblock A (blocks 0 and 1), 1 for superblock B (blocks 2 and 3).
    pub side: u8,

    /// The number of blocks of the store: [`MIN_BLOCKS`] to [`MAX_BLOCKS`], and at most those of the device.
    pub blocks: u64,

    /// The gate from which the log is read: [`LOG_START`], or the gate after a checkpoint. Less than `blocks`.
    pub tail: u64,

    /// The gate of the checkpoint from which the log is read, less than `tail`, or 0 if there is no checkpoint.
    pub checkpoint: u64,

    /// The format of the device: [`FORMAT`] to [`SEALED_FORMAT`].
    pub format: u32,
}

impl Super {
    /// Returns whether the store is sealed, which its format says. A sealed store takes no more entries.
    pub fn is_sealed(&self) -> bool
        ensures { result ≡ has_seal self.now }
    {
        self.format == SEALED_FORMAT
    }
}

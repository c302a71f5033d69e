//! Frames: the entries of a log as they are shipped.
ghost use Rattle.std.specs.Prelude.{◌≡◌};

use std::alloc::{AllocError, Global};
use std::marker::Model;

/// The first four bytes of a frame: ASCII `BTRF`.
pub const FRAME_MARK: [u8; 4] = *b"BTRF";

/// The bytes of an entry, as a list.
#[derive(Drop)]
pub struct EntryBytes {
    bytes: Vec<u8>,
}

impl Model for EntryBytes {
    ghost use Rattle.std.specs.Prelude.{ℕ, List};

    ghost Value = { List ℕ };

    ghost view = { λ l. l.bytes.items };
}

impl EntryBytes {
    ghost use Rattle.std.specs.Prelude.{◌≡◌, IfOk};

    /// The list of these bytes. It takes no memory.
    pub fn from_bytes(bytes: Vec<u8>) -> EntryBytes
        ensures { result ≡ bytes.items }
    {
        EntryBytes { bytes }
    }

    /// A copy of these bytes. An `Err` means out of memory.
    pub fn copied(alloc: Global, bytes: &[u8]) -> Result<EntryBytes, AllocError>
        ensures { IfOk result (λ l. l ≡ bytes.now) }
    {
        Ok(EntryBytes {
            bytes: Vec::from_slice(alloc, bytes)?,
        })
    }

    /// The bytes, in order.
    pub fn as_slice(&self) -> &[u8]
        ensures { result.now ≡ self.now }
    {
        self.bytes.as_slice()
    }
}

/// An entry of a log as it is shipped: its number, from 1 on, and its bytes. A frame that comes from elsewhere may have any number and
/// any bytes.
#[derive(Drop)]
pub struct Frame {
    pub number: u64,

    /// The bytes of the entry, as `btr_entry` has them.
    pub bytes: EntryBytes,
}

/// Frames, as a list.
#[derive(Drop)]
pub struct FrameList {
    frames: Vec<Frame>,
}

impl Model for FrameList {
    ghost use Rattle.std.specs.Prelude.{List};
    ghost use Rattle.btr_follow.specs.declared.frame.Frame.{Frame};

    ghost Value = { List Frame };

    ghost view = { λ l. l.frames.items };
}

impl FrameList {
    /// The list of these frames. It takes no memory.
    pub fn from_frames(frames: Vec<Frame>) -> FrameList
        ensures { result ≡ frames.items }
    {
        FrameList { frames }
    }

    /// The frames. It takes no memory.
    pub fn into_frames(self) -> Vec<Frame>
        ensures { result.items ≡ self }
    {
        let FrameList { frames } = self;
        frames
    }

    /// The frames, in order.
    pub fn as_slice(&self) -> &[Frame]
        ensures { result.now ≡ self.now }
    {
        self.frames.as_slice()
    }
}

/// The frames that bytes begin with.
#[derive(Drop)]
pub struct Frames {
    /// The whole frames from the start, in order.
    pub frames: FrameList,

    /// The number of bytes after them.
    pub rest: u64,
}

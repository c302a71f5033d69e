//! Writing frames.
ghost use Rattle.std.specs.Prelude.{◌≡◌, ◌++◌, OnOk};
ghost use Rattle.btr_follow.specs.Frames.{frame_bytes, FrameFits};

use crate::frame::FRAME_MARK;
use btr_entry::put_u64;
use std::alloc::AllocError;

/// Appends the frame of the entry with this number and these bytes: 20 bytes and those of the entry. It takes time linear in them. An
/// `Err` means out of memory, and a part of the frame may have been appended.
pub fn append_frame(out: &mut Vec<u8>, number: u64, entry: &[u8]) -> Result<(), AllocError>
    ensures bytes { OnOk result (out.new.items ≡ out.old.items ++ frame_bytes (record { number = number; bytes = entry.now })) }
    ensures fits { OnOk result (FrameFits (record { number = number; bytes = entry.now })) }
{
    out.extend_from_slice(&FRAME_MARK)?;
    put_u64(out, number)?;
    put_u64(out, entry.len() as u64)?;
    out.extend_from_slice(entry)
}

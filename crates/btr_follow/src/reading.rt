//! Reading frames: the whole frames that bytes begin with.
ghost use Rattle.std.specs.Prelude.{◌≡◌, ◌↔◌, ◌<◌, ◌^◌, ◌++◌, length, IfOk, IfSome, IfNone, IsTrue};
ghost use Rattle.btr_follow.specs.Frames.{frame_mark, frame_bytes, BeginsWithNoFrame, AreRead};

use crate::frame::{EntryBytes, FRAME_MARK, Frame, FrameList, Frames};
use btr_entry::read_u64;
use std::alloc::{AllocError, Global};

/// Returns the whole frames that the bytes begin with, and the number of bytes after them. The first bytes that do not begin with a
/// whole frame end them: another mark, or a length that passes the end. Nothing of an entry is tested.
///
/// It takes time linear in the bytes, and memory for a copy of the entries. Each length is compared with the bytes that are left before
/// memory is taken for it. An `Err` means out of memory.
pub fn read_frames(alloc: Global, bytes: &[u8]) -> Result<Frames, AllocError>
    ensures { IfOk result (AreRead bytes.now) }
{
    let mut frames = Vec::new(alloc);
    let mut rest = bytes;
    while let Some((number, entry, after)) = read_frame(rest) {
        let bytes = EntryBytes::copied(alloc, entry)?;
        frames.push(Frame { number, bytes })?;
        rest = after;
    }
    Ok(Frames {
        frames: FrameList::from_frames(frames),
        rest: rest.len() as u64,
    })
}

/// Splits the first frame from the bytes: its number, the bytes of its entry, and the bytes after it. Returns `None` if the bytes begin
/// with no whole frame.
fn read_frame(bytes: &[u8]) -> Option<(u64, &[u8], &[u8])>
    ensures some { IfSome result (λ x. bytes.now ≡ frame_bytes (record { number = x.0; bytes = x.1.now }) ++ x.2.now) }
    ensures number { IfSome result (λ x. x.0 < 2 ^ 64) }
    ensures short { IfSome result (λ x. length x.1.now < 2 ^ 64) }
    ensures none { IfNone result (BeginsWithNoFrame bytes.now) }
{
    if bytes.len() < 4 {
        return None;
    }
    let (mark, rest) = bytes.split_at(4);
    if !is_mark(mark) {
        return None;
    }
    let (number, rest) = read_u64(rest)?;
    let (length, rest) = read_u64(rest)?;
    if length > rest.len() as u64 {
        return None;
    }
    let (entry, after) = rest.split_at(length as usize);
    Some((number, entry, after))
}

/// Whether the bytes are those of the mark.
fn is_mark(bytes: &[u8]) -> bool
    ensures { IsTrue result ↔ (bytes.now ≡ frame_mark) }
{
    bytes == FRAME_MARK.as_slice()
}

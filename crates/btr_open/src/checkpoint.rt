//! The test of a checkpoint against what was read before it.
ghost use Rattle.std.specs.Prelude.{◌≡◌, ◌↔◌, ◌^◌, ◌<◌, length, IfOk, IsTrue};
ghost use Rattle.btr_log.specs.Extents.{IsBody};
ghost use Rattle.btr_roll.specs.Roll.{roll_bytes};
ghost use Rattle.btr_streams.specs.Rolling.{rolled};
ghost use Rattle.btr_open.specs.Content.{HasCheckpoint};

use crate::decoding::are_zeros;
use btr_engine::Board;
use btr_log::{HEAD_BYTES, Head};
use btr_roll::encode_roll;
use std::alloc::{AllocError, Global};

/// Returns whether a body is that of a checkpoint of a board, whose format is no less than `least`. The board's roll is encoded in the
/// format of the head and compared with the content: nothing is decoded. The time and the memory are linear in the bytes of the roll. The
/// bytes begin with the head, which is that of a checkpoint, and are as many blocks as it says: this is the caller's condition.
pub(crate) fn is_checkpoint(
    alloc: Global,
    board: &Board,
    least: u32,
    head: &Head,
    body: &[u8],
) -> Result<bool, AllocError>
    requires body { IsBody body.now head.now }
    requires kind { head.now.kind ≡ 2 }
    ensures { IfOk result (λ b.
        IsTrue b ↔ HasCheckpoint least board.now.entries (λ format. roll_bytes format (rolled board.now)) body.now) }
{
    let roll = board.roll(alloc)?;
    let content = encode_roll(alloc, head.format, &roll)?;
    Ok(has_checkpoint(least, board.entries(), &content, head, body))
}

/// Returns whether a body is that of a checkpoint after this number of entries, with this content, and its format is no less than `least`.
fn has_checkpoint(least: u32, number: u64, content: &[u8], head: &Head, body: &[u8]) -> bool
    requires body { IsBody body.now head.now }
    requires kind { head.now.kind ≡ 2 }
    ensures { IsTrue result ↔ HasCheckpoint least number (λ format. content.now) body.now }
{
    if head.format < least || head.number != number || head.length != content.len() as u64 {
        return false;
    }
    let end = HEAD_BYTES + content.len();
    is_same(&body[HEAD_BYTES..end], content) && are_zeros(&body[end..])
}

/// Returns whether two slices have the same bytes.
fn is_same(first: &[u8], second: &[u8]) -> bool
    ensures { IsTrue result ↔ (first.now ≡ second.now) }
{
    first == second
}

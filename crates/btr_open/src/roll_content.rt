//! The streams that the body of a checkpoint spells.
ghost use Rattle.std.specs.Prelude.{◌≡◌, ◌+◌, ◌*◌, ◌<◌, ◌≤◌, ◌↔◌, ◌^◌, ℕ, List, length, IfOk, IfSome, IfNone, IsTrue};
ghost use Rattle.std.specs.List.{AllByRecursion};
ghost use Rattle.btr_log.specs.Extents.{IsBody};
ghost use Rattle.btr_roll.specs.Roll.{RollStreamValue};
ghost use Rattle.btr_open.specs.Start.{IsMadeWithin, HasRoll};
ghost use Rattle.btr_open.specs.Checkpoint.{IsContent, HasNoContentOf};

use crate::decoding::are_zeros;
use btr_log::{HEAD_BYTES, Head};
use btr_roll::{Roll, RollStream, RollVersion, decode_roll};
use std::alloc::{AllocError, Global};

/// Returns the streams of the body of a checkpoint at the gate in this block, or `None` if it has none that a checkpoint can have there.
/// The time and the memory are those of decoding. The body begins with the head, which is that of a checkpoint, and has as many blocks as
/// the head says: this is the caller's condition. An `Err` means out of memory.
pub(crate) fn decode_checkpoint(
    alloc: Global,
    head: &Head,
    body: &[u8],
    gate: u64,
) -> Result<Option<Roll>, AllocError>
    requires body { IsBody body.now head.now }
    requires kind { head.now.kind ≡ 2 }
    ensures some { IfOk result (λ o. IfSome o (λ roll. HasRoll gate head.now.number roll body.now)) }
    ensures none { IfOk result (λ o. IfNone o ((entries : ℕ) (roll : List RollStreamValue) → HasRoll gate entries roll body.now → ⊥)) }
{
    let Some(roll) = decode_content(alloc, head, body)? else {
        return Ok(None);
    };
    if !has_room(gate, head.number) || !are_made_within(&roll.streams, head.number) {
        return Ok(None);
    }
    Ok(Some(roll))
}

/// Returns the streams that the content of the body spells, if nothing but zeros follows it.
fn decode_content(alloc: Global, head: &Head, body: &[u8]) -> Result<Option<Roll>, AllocError>
    requires body { IsBody body.now head.now }
    requires kind { head.now.kind ≡ 2 }
    ensures some { IfOk result (λ o. IfSome o (λ roll. IsContent head.now.number roll body.now)) }
    ensures none { IfOk result (λ o. IfNone o (HasNoContentOf body.now)) }
{
    let end = HEAD_BYTES + head.length as usize;
    if !are_zeros(&body[end..]) {
        return Ok(None);
    }
    decode_roll(alloc, head.format, &body[HEAD_BYTES..end])
}

/// Returns whether this number of entries may have an extent each before the gate.
fn has_room(gate: u64, entries: u64) -> bool
    ensures { IsTrue result ↔ (2 * entries + 4 ≤ gate) }
{
    gate >= 4 && entries <= (gate - 4) / 2
}

/// Returns whether the streams and their versions were made by entries from 1 to this number.
fn are_made_within(streams: &[RollStream], entries: u64) -> bool
    ensures { IsTrue result ↔ AllByRecursion (IsMadeWithin entries) streams.now }
{
    for stream in streams {
        if !is_made_within(stream, entries) {
            return false;
        }
    }
    true
}

/// Returns whether the stream and its versions were made by entries from 1 to this number.
fn is_made_within(stream: &RollStream, entries: u64) -> bool
    ensures { IsTrue result ↔ IsMadeWithin entries stream.now }
{
    1 <= stream.entry && stream.entry <= entries && each_within(&stream.versions, entries)
}

/// Returns whether the versions were made by entries from 1 to this number.
fn each_within(versions: &[RollVersion], entries: u64) -> bool
    ensures { IsTrue result ↔ AllByRecursion (λ v. (1 ≤ v.entry) × (v.entry ≤ entries)) versions.now }
{
    for version in versions {
        if version.entry < 1 || entries < version.entry {
            return false;
        }
    }
    true
}

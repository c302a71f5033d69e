//! Sending a log: each extent is read, and the frame of its entry is written.
ghost use Rattle.std.specs.Prelude.{◌≡◌, ◌==◌, ◌<◌, ◌≤◌, nat_le, ◌&&◌, ◌++◌, [], ◌∷◌, length, IfErr, IfOk, OnErr, OnOk};
ghost use Rattle.btr_log.specs.Extents.{IsBody};
ghost use Rattle.btr_log.specs.Log.{FitsDevice};
ghost use Rattle.btr_log.specs.Reads.{OnlyReads};
ghost use Rattle.btr_follow.specs.Shipping.{frames_in, bytes_in, ShipsLog, StopsIn, HasSentPart, SendCause, BodyCause};
ghost use Rattle.btr_follow.specs.Shipping.{CountsSent, SendsNothingElse};

use crate::shipping::ShipFault;
use crate::writing::append_frame;
use btr_disk::Disk;
use btr_io::{Sink, write_all};
use btr_log::{Found, HEAD_BYTES, Head, find_extent};
use std::alloc::Global;

/// The part of a log that is sent.
#[derive(Clone, Copy)]
pub(crate) struct Part {
    /// The blocks of the store.
    pub(crate) blocks: u64,

    /// The gate from which the log is read.
    pub(crate) start: u64,

    /// The least number of an entry that is sent.
    pub(crate) from: u64,
}

/// Writes the frames of a part of a log, and returns their number. `count` is the number of whole frames that were written, also if the
/// rest is not.
pub(crate) fn send_log<D: Disk, K: Sink>(
    alloc: Global,
    disk: &mut D,
    part: Part,
    sink: &mut K,
    count: &mut u64,
) -> Result<u64, ShipFault>
    requires device { FitsDevice part.blocks (D.size disk.old) }
    requires start { part.start < part.blocks }
    ensures reads { OnlyReads ⟦<D as Disk>⟧ disk.old disk.new }
    ensures log { D.is_observable
        → IfOk result (ShipsLog ⟦<D as Disk>⟧ ⟦<K as Sink>⟧ part.from part.start disk.old sink.old sink.new) }
    ensures part { D.is_observable
        → OnErr result (StopsIn ⟦<D as Disk>⟧ ⟦<K as Sink>⟧ part.from part.start disk.old sink.old sink.new) }
    ensures cause { IfErr result (SendCause ⟦<D as Disk>⟧ ⟦<K as Sink>⟧ part.blocks part.start disk.old disk.new sink.old sink.new) }
    ensures counts { CountsSent ⟦<D as Disk>⟧ ⟦<K as Sink>⟧ part.from part.start disk.old sink.old sink.new count.new result }
{
    let mut buffer = Vec::new(alloc);
    let mut gate = part.start;
    *count = 0;
    while let Found::Extent { head, body, next } = find_extent(alloc, disk, part.blocks, gate)? {
        *count += send_body(&mut buffer, &head, &body, part.from, sink)?;
        gate = next;
    }
    Ok(*count)
}

/// Writes the frame of the entry with this body, if its number is at least `from`, and returns the number of frames: 1 or 0. The body of a
/// checkpoint has none.
fn send_body<K: Sink>(
    buffer: &mut Vec<u8>,
    head: &Head,
    body: &[u8],
    from: u64,
    sink: &mut K,
) -> Result<u64, ShipFault>
    requires body { IsBody body.now head.now }
    ensures counted { IfOk result (λ n. n ≡ length (frames_in from (body.now ∷ []))) }
    ensures few { IfOk result (λ n. n ≤ 1) }
    ensures sent { K.is_observable → OnOk result (K.written sink.new ≡ K.written sink.old ++ bytes_in from (body.now ∷ [])) }
    ensures part { K.is_observable
        → OnErr result (HasSentPart (bytes_in from (body.now ∷ [])) (K.written sink.old) (K.written sink.new)) }
    ensures later { K.faults sink.old ≤ K.faults sink.new }
    ensures unsent { SendsNothingElse sink.old sink.new result }
    ensures cause { IfErr result (BodyCause (K.faults sink.old) (K.faults sink.new)) }
{
    if !is_entry_from(head, from) {
        return Ok(0);
    }
    let end = HEAD_BYTES + head.length as usize;
    buffer.clear();
    append_frame(buffer, head.number, &body[HEAD_BYTES..end])?;
    write_all(sink, buffer)?;
    Ok(1)
}

/// Whether a head is that of an entry with number at least `from`.
fn is_entry_from(head: &Head, from: u64) -> bool
    ensures { result ≡ (head.now.kind == 1 && nat_le from head.now.number) }
{
    head.kind == 1 && from <= head.number
}

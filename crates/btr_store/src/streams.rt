//! The streams of a snapshot, by their numbers.
ghost use Rattle.std.specs.Prelude.{◌≡◌, List, IfOk};
ghost use Rattle.btr_hist.specs.declared.entry.Entry.{Entry as EntrySpec};
ghost use Rattle.btr_streams.specs.Snapshot.{IsSnapshotOf};
ghost use Rattle.btr_store.specs.Streams.{AreStreams, id_in, id_of_stream};

use btr_engine::Snapshot;
use btr_hist::{Answer, Query, Rows, StreamList, StreamRow};
use std::alloc::{AllocError, Global};

/// Returns all streams of a snapshot, in order of creation, in logarithmic time for each. An `Err` means out of memory.
pub fn all_streams(alloc: Global, snapshot: &Snapshot) -> Result<StreamList, AllocError>
    ensures { (h : List EntrySpec) → IsSnapshotOf h snapshot.now → IfOk result (AreStreams h) }
{
    match snapshot.answer(alloc, &Query::Streams)? {
        Answer::Found {
            rows: Rows::Streams(streams),
            ..
        } => Ok(streams),
        // All streams are always found.
        _ => Err(AllocError),
    }
}

/// Returns the id of the stream with this number, or 0 if there is none, in constant time. It takes no memory.
pub fn id_of(streams: &[StreamRow], stream: u32) -> u128
    ensures row { result ≡ id_in streams.now stream }
    ensures stream { (h : List EntrySpec) → AreStreams h streams.now → result ≡ id_of_stream h stream }
{
    match streams.get(stream as usize) {
        None => 0,
        Some(row) => row.id,
    }
}

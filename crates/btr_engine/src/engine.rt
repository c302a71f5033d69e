//! The engine: the board of a history, and the log that holds its entries.
ghost use Rattle.std.specs.Prelude.{◌≡◌, ◌+◌, ◌*◌, ◌≤◌};
ghost use Rattle.btr_log.specs.Log.{log_device as device_of, log_tail, log_blocks, extents_of, is_log_stopped, faults_at};
ghost use Rattle.btr_engine.specs.Place.{log_in};
ghost use Rattle.btr_engine.specs.Raise.{IsFollowable};

use crate::place::Place;
use crate::remains::Remains;
use btr_disk::Disk;
use btr_hist::Spec;
use btr_log::Log;
use btr_streams::{Board, Snapshot};
use btr_super::Super;
use std::alloc::AllocError;
use std::snapshot::Snapshot as State;

/// An open store: the board of its history, and its device.
///
/// An engine is stopped if its device fails in a step or in a checkpoint, and stays stopped: it accepts no more entries, but can still
/// be asked through a snapshot. Only the next opening shows if the entry of that step is durable.
#[derive(Drop)]
pub struct Engine<D: Disk> {
    pub(crate) place: Place<D>,
    pub(crate) board: Board,
    /// Whether the log is stopped, also while it is out.
    pub(crate) stopped: bool,
    /// The number of entries when the store was opened.
    pub(crate) opened_with: u64,
    /// The superblock that is chosen on the device.
    pub(crate) chosen: Super,
    /// The device after the first sync of the opening, for its counts. It has no bytes.
    pub(crate) synced: State<D>,
    ghost marked: { stopped ≡ is_log_stopped (log_in place) },
    // Each entry has an extent. The other extents are those of checkpoints.
    ghost counted: { board.entries ≤ extents_of (log_in place) },
    // The first gate is block 4, and each extent has at least two blocks.
    ghost ends: { 2 * extents_of (log_in place) + 4 ≤ log_tail (log_in place) },
    ghost began: { opened_with ≤ board.entries },
    ghost called: { D.calls synced.value ≤ D.calls (device_of (log_in place)) },
    ghost failed: { D.faults synced.value ≤ faults_at (log_in place) },
    // A superblock that replaces this one keeps the table: its number is one more, and its tail is the same gate of the log, in a higher
    // format, or a later one.
    ghost followable: { IsFollowable chosen },
    ghost behind: { chosen.tail ≤ log_tail (log_in place) },
    ghost large: { 8 ≤ log_blocks (log_in place) },
    ghost same_blocks: { chosen.blocks ≡ log_blocks (log_in place) },
}

impl<D: Disk> Engine<D> {
    ghost use Rattle.std.specs.Prelude.{◌≡◌, ◌+◌, ◌*◌, ◌≤◌, List, IfOk, IsTrue, true, length, slice_get};
    ghost use Rattle.btr_disk.specs.Causes.{Rose};
    ghost use Rattle.btr_log.specs.Log.{log_device as device_of, log_tail, log_blocks, extents_of, faults_at};
    ghost use Rattle.btr_hist.specs.declared.entry.Entry.{Entry as EntrySpec};
    ghost use Rattle.btr_hist.specs.History.{ids, stream_of, spec_of};
    ghost use Rattle.btr_streams.specs.Board.{latest_of};
    ghost use Rattle.btr_streams.specs.Snapshot.{IsSnapshotOf};
    ghost use Rattle.btr_engine.specs.Raise.{IsFollowable};
    ghost use Rattle.btr_engine.specs.Engine.{device, board_of, entries_of, is_stopped, is_sealed, faults_at_open, IsEngineOf, IsMadeOf};
    ghost use Rattle.btr_engine.specs.Engine.{is_home};

    /// Returns the engine of a log, of a board with the log's entries, of the superblock that is chosen on the device, and of the
    /// device as the first sync of an opening left it. It is for openings: it does not call the device, nor compare the board or the
    /// superblock with it. It takes constant time and no memory.
    pub fn over(log: Log<D>, board: Board, chosen: Super, synced: State<D>) -> Engine<D>
        requires counted { board.entries ≤ extents_of log }
        requires ends { 2 * extents_of log + 4 ≤ log_tail log }
        requires called { D.calls synced.value ≤ D.calls (device_of log) }
        requires failed { D.faults synced.value ≤ faults_at log }
        requires followable { IsFollowable chosen }
        requires behind { chosen.tail ≤ log_tail log }
        requires large { 8 ≤ log_blocks log }
        requires same_blocks { chosen.blocks ≡ log_blocks log }
        ensures { IsMadeOf log board chosen synced.value result }
    {
        let opened_with = board.entries();
        let stopped = log.stopped();
        Engine {
            place: Place::Home(log),
            board,
            stopped,
            opened_with,
            chosen,
            synced,
        }
    }

    /// Returns a snapshot of the history, which has all acknowledged entries. It answers questions, also in another thread while
    /// the engine goes on. It takes constant time and does not call the device. An `Err` means out of memory.
    pub fn admit(&self) -> Result<Snapshot, AllocError>
        ensures { (h : List EntrySpec) → IsEngineOf h self.now → IfOk result (IsSnapshotOf h) }
    {
        self.board.admit()
    }

    /// Returns the number of the stream with this id, if there is one: the first in order of creation. It takes logarithmic
    /// time and no memory.
    pub fn find(&self, id: u128) -> Option<u32>
        ensures { (h : List EntrySpec) → IsEngineOf h self.now → result ≡ stream_of h id }
    {
        self.board.find(id)
    }

    /// Returns the id of a stream, or `None` if there is no such stream. It takes logarithmic time and no memory.
    pub fn id(&self, stream: u32) -> Option<u128>
        ensures { (h : List EntrySpec) → IsEngineOf h self.now → result ≡ slice_get (ids h) stream }
    {
        self.board.id(stream)
    }

    /// Returns the spec of an output. A plain stream, and a number that is not that of a stream, have none. It takes logarithmic
    /// time and no memory.
    pub fn spec(&self, stream: u32) -> Option<Spec>
        ensures { (h : List EntrySpec) → IsEngineOf h self.now → result ≡ spec_of h stream }
    {
        self.board.spec(stream)
    }

    /// Returns the latest version of a stream, which is the number of its commits, or `None` if there is no such stream. It takes
    /// logarithmic time and no memory.
    pub fn latest(&self, stream: u32) -> Option<u64>
        ensures { (h : List EntrySpec) → IsEngineOf h self.now → result ≡ latest_of h stream }
    {
        self.board.latest(stream)
    }

    /// Returns the number of entries.
    pub fn entries(&self) -> u64
        ensures entries { result ≡ entries_of self.now }
        ensures of { (h : List EntrySpec) → IsEngineOf h self.now → result ≡ length h }
    {
        self.board.entries()
    }

    /// Returns whether the engine is stopped. Then its device has failed since the store was opened.
    pub fn stopped(&self) -> bool
        ensures answer { result ≡ is_stopped self.now }
        ensures failed { IsTrue result → Rose (faults_at_open self.now) (D.faults (device self.now)) }
    {
        self.stopped
    }

    /// Returns whether the store is sealed: it was when it was opened, or a seal has returned `Ok`. It takes constant time.
    pub fn sealed(&self) -> bool
        ensures { result ≡ is_sealed self.now }
    {
        self.chosen.is_sealed()
    }

    /// Returns the device, as the engine's calls left it. The caller passes an engine whose log is at home. The history in memory is
    /// freed: [`Engine::into_parts`] returns it too.
    pub fn into_disk(self) -> D
        requires home { is_home self ≡ true }
        ensures { result ≡ device self }
    {
        let (disk, _remains) = self.into_parts();
        disk
    }

    /// Returns the device, as the engine's calls left it, and what the engine leaves in memory. The caller passes an engine whose log is at
    /// home. It takes constant time and no memory, and frees none.
    pub fn into_parts(self) -> (D, Remains)
        requires home { is_home self ≡ true }
        ensures disk { result.0 ≡ device self }
        ensures remains { result.1.board ≡ board_of self }
    {
        let Engine { place, board, .. } = self;
        match place {
            Place::Home(log) => (log.into_disk(), Remains { board }),
            Place::Out(_) => unreachable!(),
        }
    }
}

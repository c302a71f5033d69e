//! The travel of the log: it is taken out of the engine, written beside it, and brought back.
ghost use Rattle.std.specs.Prelude.{◌≡◌, ◌+◌, ◌/◌, ◌^◌, ◌<◌, List, true, false, not, IfErr, IfOk, IsTrue, IsFalse, OnOk, Err, None, length};
ghost use Rattle.btr_hist.specs.declared.entry.Entry.{Entry as EntrySpec};
ghost use Rattle.btr_engine.specs.declared.step.StepFault.TheVariants.{Stopped, Sealed};
ghost use Rattle.btr_engine.specs.Engine.{log_of, board_of, entries_of, tail_of, is_stopped, is_sealed, is_home, IsEngineOf};
ghost use Rattle.btr_engine.specs.Step.{HasResult, StepCause};
ghost use Rattle.btr_engine.specs.Travel.{run_of, IsMade, IsStaged, IsReadyFor, IsNextOn, IsReadyOn, IsWritten, HasFailed};
ghost use Rattle.btr_engine.specs.Travel.{HasExtent, HoldsAppended, LeavesExtent, HoldsEntry, LeavesEntry};
ghost use Rattle.btr_engine.specs.Travel.{IsTaken, Settles, IsHomeAgain, written_in};

use crate::engine::Engine;
use crate::extent::{Extent, encode_extent};
use crate::first_node::first_node;
use crate::maker::Maker;
use crate::raise::{raise, raise_for, super_after};
use crate::step::StepFault;
use crate::streamed::{PageSource, StreamedPages};
use btr_disk::{BLOCK, Disk, Failed, Parts};
use btr_hist::Entry;
use btr_log::Log;
use btr_streams::{Receipt, Staged};
use btr_super::Super;
use std::alloc::Global;

/// An entry that may follow the history of an engine, with all that is needed to add it.
#[derive(Drop)]
pub struct Ready {
    /// The board with the entry, and the receipt.
    pub(crate) staged: Staged,

    /// The body of the entry with the pages of its nodes, and one block of zeros, up to those that are made while they are written.
    pub(crate) prefix: Parts,

    /// Whether the pages, and the block of zeros after them, are made while they are written.
    pub(crate) is_streamed: bool,

    /// The superblock that replaces the chosen one before the entry is written, if the entry needs a higher format.
    pub(crate) raise: Option<Super>,
}

/// How a log comes back to the engine that it was taken out of.
#[derive(Drop)]
pub enum Return {
    /// As it was taken.
    Untouched,

    /// With this entry, which was written to it.
    Written(Ready),

    /// Its device failed while an entry was written.
    Failed,
}

impl Ready {
    /// The number of blocks of the extent of the entry and of the block of zeros after it.
    fn blocks(&self) -> u64
        requires { self.now.is_streamed ≡ true → length self.now.staged.nodes.items < 2 ^ 62 }
        ensures { result ≡ length (run_of self.now) / 4096 }
    {
        let made = (self.prefix.len() / BLOCK) as u64;
        if self.is_streamed {
            return made + self.staged.nodes.len() as u64 + 1;
        }
        made
    }

    /// Appends the extent of the entry to a log that is out of its engine. The caller passes the log that the entry was staged with.
    /// After `Ok` the extent is durable. If the entry writes many pages, `maker` makes them while they are written. If the entry needs a
    /// higher format than the superblock has, one of that format replaces the superblock first.
    ///
    /// A crash at any moment of the write leaves the history as before, or with the entry. `Err` is that the device failed. Then the log
    /// is stopped.
    ///
    /// It makes four calls of the device, a write and a sync for the extent and then for the gate before it, and five or seven before them
    /// if the superblock is replaced, or fewer if one of them fails. It takes no memory but what starts the maker's threads.
    pub fn write<M: Maker, D: Disk>(&self, maker: &M, log: Log<D>) -> (Log<D>, Result<(), Failed>)
        requires able { M.can_make }
        requires ready { (e : EntrySpec) × IsReadyFor log e self.now }
        ensures written { OnOk result.1 (IsWritten log result.0 self.now) }
        ensures failed { IfErr result.1 (λ _. HasFailed self.now.raise log result.0) }
        ensures holds { (e : EntrySpec) → IsReadyFor log e self.now → OnOk result.1 (HoldsEntry log result.0 e self.now) }
        ensures moments { (e : EntrySpec) → IsReadyFor log e self.now → LeavesEntry log result.0 e self.now }
    {
        let mut log = log;
        if let Err(failed) = raise(&mut log, &self.raise) {
            return (log, Err(failed));
        }
        self.append(maker, log)
    }

    /// Appends the extent of the entry to the log, whose superblock has the format that the entry needs.
    fn append<M: Maker, D: Disk>(&self, maker: &M, log: Log<D>) -> (Log<D>, Result<(), Failed>)
        requires able { M.can_make }
        requires ready { (e : EntrySpec) × IsReadyFor log e self.now }
        ensures written { OnOk result.1 (HasExtent log result.0 self.now) }
        ensures failed { IfErr result.1 (λ _. HasFailed None log result.0) }
        ensures holds { (e : EntrySpec) → IsReadyFor log e self.now → OnOk result.1 (HoldsAppended log result.0 e self.now) }
        ensures moments { (e : EntrySpec) → IsReadyFor log e self.now → LeavesExtent log result.0 e self.now }
    {
        let mut log = log;
        let source = PageSource {
            maker,
            pages: StreamedPages {
                stream: self.staged.receipt.stream,
                nodes: &self.staged.nodes,
                is_streamed: self.is_streamed,
            },
        };
        if let Err(_fault) = log.append(&self.prefix, &source) {
            return (log, Err(Failed));
        }
        (log, Ok(()))
    }
}

impl<D: Disk> Engine<D> {
    /// Takes the log out of the engine. `None` is that it is out. While it is out the engine can be asked, but adds no entry.
    /// It takes constant time and no memory.
    pub fn take_log(&mut self) -> Option<Log<D>>
        ensures { IsTaken self.old self.new result }
    {
        self.place.take()
    }

    /// Returns whether the log is out.
    pub fn is_out(&self) -> bool
        ensures { result ≡ not (is_home self.now) }
    {
        self.place.is_out()
    }

    /// Tests an entry, and makes all that is needed to add it, for the log of this engine, which may be out. It takes all memory of a
    /// step, calls no device, and changes nothing. Of several causes the one that stands first in [`StepFault`] is returned. What is large
    /// is made by `maker`.
    pub fn stage<M: Maker>(
        &self,
        maker: &M,
        alloc: Global,
        log: &Log<D>,
        entry: &Entry,
    ) -> Result<Ready, StepFault>
        requires able { M.can_make }
        requires log { log.now ≡ log_of self.now }
        ensures stopped { IsTrue (is_stopped self.now) → result ≡ Err (Stopped (entries_of self.now)) }
        ensures sealed { IsFalse (is_stopped self.now) → IsTrue (is_sealed self.now) → result ≡ Err Sealed }
        ensures ready { IfOk result (IsReadyOn self.now entry.now) }
        ensures staged { (h : List EntrySpec) → IsEngineOf h self.now
            → IfOk result (IsStaged h (board_of self.now) (tail_of self.now) entry.now) }
        ensures cause { (h : List EntrySpec) → IsEngineOf h self.now → IfErr result (StepCause h self.now self.now entry.now) }
        ensures refused { IfErr result (λ fault. HasResult self.now self.now entry.now (Err fault)) }
    {
        if self.stopped {
            return Err(StepFault::Stopped {
                entries: self.board.entries(),
            });
        }
        if self.chosen.is_sealed() {
            return Err(StepFault::Sealed);
        }
        let ready = self.make_ready(maker, alloc, log.tail(), entry)?;
        let need = ready.blocks();
        let left = log.room();
        if need > left {
            return Err(StepFault::DeviceFull { need, left });
        }
        Ok(ready)
    }

    /// Tests an entry, but not if there is room for it, and makes all that is needed to add it. The gate before its extent is block
    /// `tail`.
    fn make_ready<M: Maker>(
        &self,
        maker: &M,
        alloc: Global,
        tail: u64,
        entry: &Entry,
    ) -> Result<Ready, StepFault>
        requires able { M.can_make }
        requires takes { (is_stopped self.now ≡ false) × (is_sealed self.now ≡ false) }
        requires tail { tail ≡ tail_of self.now }
        ensures made { IfOk result (IsMade entry.now) }
        ensures next { IfOk result (IsNextOn self.now entry.now) }
        ensures staged { (h : List EntrySpec) → IsEngineOf h self.now
            → IfOk result (IsStaged h (board_of self.now) (tail_of self.now) entry.now) }
        ensures cause { (h : List EntrySpec) → IsEngineOf h self.now → IfErr result (StepCause h self.now self.now entry.now) }
        ensures refused { IfErr result (λ fault. HasResult self.now self.now entry.now (Err fault)) }
    {
        let first = first_node(tail, entry);
        let staged = self.board.stage(maker, alloc, entry, first)?;
        let Extent {
            prefix,
            is_streamed,
        } = encode_extent(maker, alloc, entry, &staged)?;
        Ok(Ready {
            staged,
            prefix,
            is_streamed,
            raise: raise_for(&self.chosen, entry),
        })
    }

    /// Brings the log back. If an entry was written to it, the engine adds the entry, and its receipt is returned. The superblock is then
    /// that of the raise that came before the entry, if there was one. If the device failed, the engine is stopped: the device may have
    /// the superblock of the raise then, but a stopped engine uses it no more. It takes constant time and no memory.
    pub fn settle(&mut self, log: Log<D>, how: Return) -> Option<Receipt>
        requires out { is_home self.old ≡ false }
        requires settles { Settles self.old log how }
        ensures { IsHomeAgain self.old log (written_in how) self.new result }
    {
        self.place.put_back(log);
        match how {
            Return::Untouched => None,
            Return::Written(ready) => {
                self.chosen = super_after(&self.chosen, &ready.raise);
                Some(self.board.accept(ready.staged))
            }
            Return::Failed => {
                self.stopped = true;
                None
            }
        }
    }
}

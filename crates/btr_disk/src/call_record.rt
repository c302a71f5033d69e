//! What a device in memory remembers of its calls. The memory for it is allocated when the device is made.
ghost use Rattle.std.specs.Prelude.{◌≡◌, ◌+◌, ◌-◌, ◌*◌, ◌^◌, ◌<◌, ◌≤◌, ℕ, min, [], ◌++◌, ◌↔◌, true, length, IfOk, IsTrue, MatchBool};
ghost use Rattle.std.specs.Prelude.{vec_len, vec_capacity};
ghost use Rattle.btr_disk.specs.Torn.{IsUntorn};

use crate::image::{fill_calls, undo_calls};
use crate::torn::TornBlocks;
use crate::{BLOCK, Capacity, Fill};
use std::alloc::{AllocError, Global};

/// What a call did.
#[derive(Clone, Copy)]
pub(crate) enum Call {
    /// It changed nothing, as a read does.
    Nothing,
    /// A write at an address, of this many bytes.
    Wrote(usize, usize),
    /// A sync that succeeded.
    Synced,
}

/// The calls so far, and the bytes that writes replaced, the newest last.
#[derive(Drop)]
pub(crate) struct CallRecord {
    calls: Vec<Call>,
    replaced: Vec<u8>,
    /// The number of calls since the record is full: the first that did not fit, and each one after it.
    unrecorded: u64,
    /// The blocks that these calls wrote.
    torn: TornBlocks,
    /// How much it can hold.
    capacity: Capacity,
    ghost addressable: { capacity.blocks ≤ 2 ^ 32 },
    ghost room_for_calls: { capacity.calls ≤ vec_capacity calls },
    ghost room_for_blocks: { 4096 * capacity.blocks ≤ vec_capacity replaced },
    ghost untorn: { unrecorded ≡ 0 → IsUntorn torn.flags.items },
}

impl CallRecord {
    ghost use Rattle.btr_disk.specs.Fill.{FillsWhere, IsLooseAt, HasFill};
    ghost use Rattle.btr_disk.specs.Bytes.{AreBytes};
    ghost use Rattle.btr_disk.specs.Replay.{WasAtLastSync, is_replayable};
    ghost use Rattle.btr_disk.specs.CallRecord.{contents_of, newest_first, MayLeaveNow};
    ghost use Rattle.btr_disk.specs.CallRecord.{Records, IsLeftOut, CanRecord, HasCapacity, IsEmpty, TearsOnly, call_count};

    /// The record of a device of `blocks` blocks on which no call was made.
    pub(crate) fn new(
        alloc: Global,
        capacity: Capacity,
        blocks: usize,
    ) -> Result<CallRecord, AllocError>
        requires { capacity.blocks ≤ 2 ^ 32 }
        ensures empty { IfOk result IsEmpty }
        ensures blocks { IfOk result (λ made. length made.torn.flags.items ≡ blocks) }
        ensures capacity { IfOk result (HasCapacity capacity.calls capacity.blocks) }
    {
        Ok(CallRecord {
            calls: Vec::with_capacity(alloc, capacity.calls)?,
            replaced: Vec::with_capacity(alloc, capacity.blocks * BLOCK)?,
            unrecorded: 0,
            torn: TornBlocks::new(alloc, blocks)?,
            capacity,
        })
    }

    /// Takes a call into the record, with the bytes that it replaces. Returns whether both fit.
    ///
    /// If they do not fit, the record is full from then on, and the call is counted alone.
    pub(crate) fn note(&mut self, call: Call, bytes: &[u8]) -> bool
        ensures recorded { MatchBool result (Records call bytes.now self.old self.new) (IsLeftOut self.old self.new) }
        ensures fits { IsTrue result ↔ CanRecord self.old (length bytes.now) }
    {
        if !self.has_room(bytes.len()) {
            self.unrecorded = self.unrecorded.saturating_add(1);
            return false;
        }
        self.replaced.extend_from_slice(bytes).is_ok() && self.calls.push(call).is_ok()
    }

    /// Whether the record has room for a call that replaces this many bytes.
    fn has_room(&self, bytes: usize) -> bool
        ensures { IsTrue result ↔ CanRecord self.now bytes }
    {
        let most = self.capacity.blocks * BLOCK;
        self.unrecorded == 0
            && self.calls.len() < self.capacity.calls
            && self.replaced.len() <= most
            && bytes <= most - self.replaced.len()
    }

    /// Marks `count` blocks from `first` on as torn by a write that is not in the record.
    pub(crate) fn tear(&mut self, first: usize, count: usize)
        requires full { 0 < self.old.unrecorded }
        requires inside { first + count ≤ length self.old.torn.flags.items }
        ensures { TearsOnly first count self.old self.new }
    {
        self.torn.tear(first, count);
    }

    /// The number of calls that were made, up to the greatest that a u64 holds.
    pub(crate) fn count(&self) -> u64
        ensures { result ≡ min (call_count self.now) (2 ^ 64 - 1) }
    {
        self.unrecorded.saturating_add(self.calls.len() as u64)
    }

    /// Fills each address where a crash may leave any byte.
    fn fill(&self, bytes: &mut [u8], fill: Fill)
        requires { length bytes.old ≡ 4096 * length self.now.torn.flags.items }
        ensures { FillsWhere fill (IsLooseAt self.now) bytes.old bytes.new }
    {
        fill_calls(bytes, &self.calls, fill);
        self.torn.fill(bytes, fill);
    }

    /// Makes of what a read returns an image that a crash may leave now, that of this fill.
    #[tactic(auto, using(crate::proofs::Filled::filled_left, crate::proofs::Filled::filled_has))]
    pub(crate) fn leave(&self, bytes: &mut [u8], fill: Fill)
        requires blocks { length bytes.old ≡ 4096 * length self.now.torn.flags.items }
        requires replayable { is_replayable (newest_first self.now) (length self.now.replaced.items) (length bytes.old) ≡ true }
        ensures length { length bytes.new ≡ length bytes.old }
        ensures image { MayLeaveNow (contents_of bytes.old) self.now (contents_of bytes.new) }
        ensures fill { HasFill fill (contents_of bytes.old) self.now (length bytes.old) (contents_of bytes.new) }
    {
        match fill {
            Fill::Written => {}
            Fill::Kept => self.undo(bytes),
            Fill::Zeros | Fill::Ones | Fill::Gates => self.fill(bytes, fill),
        }
    }

    /// Undoes the calls since the last sync that succeeded.
    fn undo(&self, bytes: &mut [u8])
        requires { is_replayable (newest_first self.now) (length self.now.replaced.items) (length bytes.old) ≡ true }
        ensures length { length bytes.new ≡ length bytes.old }
        ensures undone { WasAtLastSync (contents_of bytes.old) (newest_first self.now) self.now.replaced.items (contents_of bytes.new) }
        ensures are_bytes { AreBytes (contents_of bytes.new) }
    {
        undo_calls(bytes, &self.calls, &self.replaced);
    }

    /// How much it can hold, as it was made.
    pub(crate) fn capacity(&self) -> Capacity
        ensures value { result ≡ self.now.capacity }
        ensures addressable { result.blocks ≤ 2 ^ 32 }
    {
        self.capacity
    }

    /// The number of calls in the record.
    pub(crate) fn recorded(&self) -> usize
        ensures { result ≡ length self.now.calls.items }
    {
        self.calls.len()
    }
}

//! The follower: an engine that takes the entries of another store's log, in their order.
ghost use Rattle.std.specs.Prelude.{◌≡◌, true};
ghost use Rattle.btr_engine.specs.Engine.{is_home};

use crate::frame::Frame;
use crate::heard::Heard;
use crate::laws::deliveries_are_heard;
use crate::play::is_next;
use crate::taking::take_entry;
use btr_disk::Disk;
use btr_engine::{Engine, StepFault};
use btr_entry::decode;
use std::alloc::Global;

/// A follower of a leader: an engine that adds nothing but the entries of frames, each in its place. Each entry is tested as if it came
/// from anywhere: so a follower of a legal history stays legal, whatever the frames are.
///
/// All queries are those of the engine, after [`promote`](Follower::promote).
#[derive(Drop)]
pub struct Follower<D: Disk> {
    engine: Engine<D>,
    // Between two calls the log is in the engine.
    ghost home: { is_home engine ≡ true },
}

impl<D: Disk> Follower<D> {
    ghost use Rattle.std.specs.Prelude.{◌≡◌, ℕ, true, List, length, IfOk};
    ghost use Rattle.btr_hist.specs.declared.entry.Entry.{Entry as EntrySpec};
    ghost use Rattle.btr_engine.specs.Engine.{is_home};
    ghost use Rattle.btr_follow.specs.declared.event.FollowEvent.{FollowEvent as FollowEventSpec};
    ghost use Rattle.btr_follow.specs.Follower.{engine_of, IsFollowerOf, acked_of};
    ghost use Rattle.btr_follow.specs.Follower.{AnswersFrame, FailsWithCause, IsHearing, LeavesTorn, AnswersAcknowledged};
    ghost use Rattle.btr_follow.specs.Delivery.{IsDeliveredTo, AnswersDelivery, LeavesDelivery};

    /// Makes a follower of an engine whose log is at home. It has acknowledged the entries that it finds. It takes constant time and no
    /// memory.
    pub fn start(engine: Engine<D>) -> Follower<D>
        requires home { is_home engine ≡ true }
        ensures { engine_of result ≡ engine }
    {
        Follower { engine }
    }

    /// Takes the entry of a frame if it is the next one, the bytes spell an entry, and the entry is allowed after those of the follower. A
    /// distillate is planned anew from the versions that it has read, and compared.
    ///
    /// After `Taken` the entry is durable. A crash at any moment leaves the history as before, or with this entry. After any other
    /// answer, and after an `Err`, the follower is as before, except after a `DeviceFault`, which stops its engine: then only the next
    /// opening shows if the entry is durable, and it is not acknowledged.
    ///
    /// An `Err` is never a rejection. `Stopped` and `Sealed` are returned in place of `Foreign` and `Taken`, and `DeviceFull` in place of
    /// `Taken`.
    ///
    /// It costs what [`decode`] costs for the bytes of the entry, what [`Engine::step`] costs for the entry, and for a distillate what
    /// [`is_computed`](btr_plan::is_computed) costs. An entry that is stale or early costs constant time.
    pub fn hear(&mut self, alloc: Global, frame: &Frame) -> Result<Heard, StepFault>
        // Each answer is returned exactly if it has its cause, and the follower then follows the history that it leads to.
        ensures heard { AnswersFrame self.old self.new frame.now result }
        // Why there is no answer.
        ensures cause { FailsWithCause self.old self.new frame.now result }
        // The engine is as before, or made a step with the entry of the frame.
        ensures step { IsHearing self.old self.new frame.now result }
        // A crash at any moment leaves the history, or the history with the entry of the frame, which is allowed.
        ensures torn { D.is_observable → (h : List EntrySpec) → LeavesTorn h self.old self.new frame.now }
        // After an answer the device holds the history, and each acknowledged entry is durable.
        ensures acknowledged { AnswersAcknowledged self.old self.new result }
        // If the frame is one of the follower's leader, it is delivered: it is never garbled or foreign.
        ensures delivers { (es : List FollowEventSpec) (i : ℕ) → IsDeliveredTo es i frame.now self.old
            → IfOk result (AnswersDelivery es i self.new) }
        // A crash leaves then what a delivery leaves in which the follower stops, and keeps the entry or not.
        ensures crash { D.is_observable → (es : List FollowEventSpec) (i : ℕ) → IsDeliveredTo es i frame.now self.old
            → LeavesDelivery es i self.old self.new }
    {
        deliveries_are_heard();
        self.answer(alloc, frame)
    }

    /// Takes the entry of a frame, or says why not, as [`hear`](Follower::hear) does.
    fn answer(&mut self, alloc: Global, frame: &Frame) -> Result<Heard, StepFault>
        ensures heard { AnswersFrame self.old self.new frame.now result }
        ensures cause { FailsWithCause self.old self.new frame.now result }
        ensures step { IsHearing self.old self.new frame.now result }
        ensures torn { D.is_observable → (h : List EntrySpec) → LeavesTorn h self.old self.new frame.now }
        ensures acknowledged { AnswersAcknowledged self.old self.new result }
    {
        let entries = self.engine.entries();
        if frame.number <= entries {
            return Ok(Heard::Stale { entries });
        }
        if !is_next(frame.number, entries) {
            return Ok(Heard::Early { entries });
        }
        match decode(alloc, frame.bytes.as_slice())? {
            Some(entry) => take_entry(&mut self.engine, alloc, &entry),
            None => Ok(Heard::Garbled),
        }
    }

    /// Returns the number of entries that the follower has acknowledged: those that it found when it was made, and those taken since. An
    /// entry in whose step the device failed is not among them.
    pub fn acked(&self) -> u64
        ensures entries { result ≡ acked_of self.now }
        ensures of { (h : List EntrySpec) → IsFollowerOf h self.now → result ≡ length h }
    {
        self.engine.entries()
    }

    /// Returns the engine, with the same history and its log at home. It takes constant time and no memory.
    pub fn promote(self) -> Engine<D>
        ensures engine { result ≡ engine_of self }
        ensures home { is_home result ≡ true }
    {
        let Follower { engine } = self;
        engine
    }
}

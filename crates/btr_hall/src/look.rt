//! The turns that change nothing: snapshots, and questions about the store as it is.
ghost use Rattle.std.specs.Prelude.{◌≡◌, List, slice_get, IfOk};
ghost use Rattle.btr_hist.specs.declared.entry.Entry.{Entry as EntrySpec};
ghost use Rattle.btr_hist.specs.History.{ids};
ghost use Rattle.btr_hist.specs.Answer.{answer};
ghost use Rattle.btr_engine.specs.Engine.{entries_of, is_stopped, is_sealed, IsEngineOf};
ghost use Rattle.btr_streams.specs.Snapshot.{IsSnapshotOf};
ghost use Rattle.btr_hall.specs.Trace.{history_of};
ghost use Rattle.btr_hall.specs.Found.{IsFound};
ghost use Rattle.btr_hall.specs.Session.{IsSessionOf, Looks, opening_of, seen_of, engine_of, stopped_after, stopped_at};

use crate::session::{Hall, Session};
use btr_disk::Disk;
use btr_engine::{Engine, Snapshot};
use btr_hist::{Answer, Query, Spec};
use std::alloc::{AllocError, Global};
use std::sync::Wait;

/// A stream, found by its id.
#[derive(Clone, Copy, PartialEq, Eq)]
pub struct FoundStream {
    /// The number of the stream.
    pub stream: u32,

    /// The spec of an output. A plain stream has none.
    pub spec: Option<Spec>,
}

impl<D: Disk> Session<D> {
    /// Returns a snapshot of the whole history. It is taken in a turn, in constant time, and answers after it, in any thread and
    /// without waiting. Afterwards the session has seen the list of that turn, which begins with all that it had seen. An `Err`
    /// means out of memory.
    pub fn admit<R: Wait>(&mut self, rt: &R, hall: &Hall<D>) -> Result<Snapshot, AllocError>
        requires session { IsSessionOf hall.now self.old }
        ensures session { IsSessionOf hall.now self.new }
        ensures looks { Looks hall.now self.old self.new }
        ensures snapshot { (h : List EntrySpec) → IsEngineOf h (opening_of hall.now)
            → IfOk result (IsSnapshotOf (history_of h (seen_of self.new))) }
        ensures of { (h : List EntrySpec) → IsEngineOf h (engine_of hall.now self.new) → IfOk result (IsSnapshotOf h) }
    {
        let turn = hall.gate.enter(rt, &mut self.pass);
        let result = turn.state.engine.admit();
        hall.gate.leave(&mut self.pass, turn);
        result
    }

    /// Answers a question from a snapshot of the whole history. The answer is made after the turn. It costs the nodes of the tree
    /// that the question needs, and its rows. An `Err` means out of memory.
    pub fn ask<R: Wait>(
        &mut self,
        rt: &R,
        alloc: Global,
        hall: &Hall<D>,
        query: &Query,
    ) -> Result<Answer, AllocError>
        requires session { IsSessionOf hall.now self.old }
        ensures session { IsSessionOf hall.now self.new }
        ensures looks { Looks hall.now self.old self.new }
        ensures answer { (h : List EntrySpec) → IsEngineOf h (opening_of hall.now)
            → IfOk result (λ a. a ≡ answer (history_of h (seen_of self.new)) query.now) }
    {
        let snapshot = self.admit(rt, hall)?;
        snapshot.answer(alloc, query)
    }

    /// Returns the stream with this id and its spec, if there is one. It waits for a turn, takes logarithmic time in it, and no
    /// memory.
    pub fn find<R: Wait>(&mut self, rt: &R, hall: &Hall<D>, id: u128) -> Option<FoundStream>
        requires session { IsSessionOf hall.now self.old }
        ensures session { IsSessionOf hall.now self.new }
        ensures looks { Looks hall.now self.old self.new }
        ensures found { (h : List EntrySpec) → IsEngineOf h (opening_of hall.now)
            → IsFound (history_of h (seen_of self.new)) id result }
        ensures of { (h : List EntrySpec) → IsEngineOf h (engine_of hall.now self.new) → IsFound h id result }
    {
        let turn = hall.gate.enter(rt, &mut self.pass);
        let result = look_up(&turn.state.engine, id);
        hall.gate.leave(&mut self.pass, turn);
        result
    }

    /// Returns the id of a stream, if there is such a stream. The id of a stream never changes. It waits for a turn, takes logarithmic
    /// time in it, and no memory.
    pub fn id<R: Wait>(&mut self, rt: &R, hall: &Hall<D>, stream: u32) -> Option<u128>
        requires session { IsSessionOf hall.now self.old }
        ensures session { IsSessionOf hall.now self.new }
        ensures looks { Looks hall.now self.old self.new }
        ensures id { (h : List EntrySpec) → IsEngineOf h (opening_of hall.now)
            → result ≡ slice_get (ids (history_of h (seen_of self.new))) stream }
        ensures of { (h : List EntrySpec) → IsEngineOf h (engine_of hall.now self.new) → result ≡ slice_get (ids h) stream }
    {
        let turn = hall.gate.enter(rt, &mut self.pass);
        let result = turn.state.engine.id(stream);
        hall.gate.leave(&mut self.pass, turn);
        result
    }

    /// Returns the number of entries if the engine is stopped. It waits for a turn, takes constant time in it, and no memory.
    pub fn stopped<R: Wait>(&mut self, rt: &R, hall: &Hall<D>) -> Option<u64>
        requires session { IsSessionOf hall.now self.old }
        ensures session { IsSessionOf hall.now self.new }
        ensures looks { Looks hall.now self.old self.new }
        ensures engine { result ≡ stopped_at (engine_of hall.now self.new) }
        ensures entries { (h : List EntrySpec) → IsEngineOf h (opening_of hall.now)
            → result ≡ stopped_after h (opening_of hall.now) (seen_of self.new) }
    {
        let (stopped, entries) = self.standing(rt, hall);
        stopped.then_some(entries)
    }

    /// Returns whether the store is sealed. It is if it was when the hall began. It waits for a turn, takes constant time in it, and no
    /// memory.
    pub fn sealed<R: Wait>(&mut self, rt: &R, hall: &Hall<D>) -> bool
        requires session { IsSessionOf hall.now self.old }
        ensures session { IsSessionOf hall.now self.new }
        ensures looks { Looks hall.now self.old self.new }
        ensures sealed { result ≡ is_sealed (opening_of hall.now) }
    {
        let turn = hall.gate.enter(rt, &mut self.pass);
        let sealed = turn.state.engine.sealed();
        hall.gate.leave(&mut self.pass, turn);
        sealed
    }

    /// Returns whether the engine is stopped, and the number of entries.
    fn standing<R: Wait>(&mut self, rt: &R, hall: &Hall<D>) -> (bool, u64)
        requires session { IsSessionOf hall.now self.old }
        ensures session { IsSessionOf hall.now self.new }
        ensures looks { Looks hall.now self.old self.new }
        ensures stopped { result.0 ≡ is_stopped (engine_of hall.now self.new) }
        ensures entries { result.1 ≡ entries_of (engine_of hall.now self.new) }
    {
        let turn = hall.gate.enter(rt, &mut self.pass);
        let stopped = turn.state.engine.stopped();
        let entries = turn.state.engine.entries();
        hall.gate.leave(&mut self.pass, turn);
        (stopped, entries)
    }
}

/// Returns the stream with this id and its spec, if there is one.
fn look_up<D: Disk>(engine: &Engine<D>, id: u128) -> Option<FoundStream>
    ensures { (h : List EntrySpec) → IsEngineOf h engine.now → IsFound h id result }
{
    let stream = engine.find(id)?;
    Some(FoundStream {
        stream,
        spec: engine.spec(stream),
    })
}

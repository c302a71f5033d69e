//! The machine: one history for all actors.
ghost use Rattle.std.specs.Prelude.{◌≡◌, ℕ, length, IfOk, OnOk, OnErr};
ghost use Rattle.btr_hist.specs.Laws.{Right};
ghost use Rattle.btr_hist.specs.Machine as model;
ghost use Rattle.btr_hist.specs.Machine.{Event as events};
ghost use Rattle.btr_core.specs.Events.{event_of, reply_of};
ghost use Rattle.btr_core.specs.Machine.{IsMachineOf, IsAsBefore};

use crate::event::{Event, Reply, What};
use crate::staging::{finish, stage, stage_plan};
use btr_distil::Plan;
use btr_hist::{Entry, Query, Rejection};
use btr_plan::{Next, next_plan};
use btr_streams::{Board, Snapshot};
use std::alloc::{AllocError, Global};
use std::collections::BTreeMap;

/// One history for all actors: the board of its entries, and for each actor the snapshot that it was admitted to last and its plan.
///
/// A snapshot shares all trees with the board, and its lists but for what later entries changed. A plan has the ranges and the
/// points of one distillate.
#[derive(Drop)]
pub struct Machine {
    pub(crate) board: Board,

    /// The snapshots of the actors that were admitted.
    pub(crate) admitted: BTreeMap<u16, Snapshot>,

    /// The plans of the actors that have one.
    pub(crate) plans: BTreeMap<u16, Plan>,
}

impl Machine {
    /// Returns the machine before the first event: it has no entries, and no actor was admitted. It takes no memory now.
    pub fn empty(alloc: Global) -> Result<Machine, AllocError>
        ensures { IfOk result (IsMachineOf model.start) }
    {
        Ok(Machine {
            board: Board::empty(),
            admitted: BTreeMap::new(alloc),
            plans: BTreeMap::new(alloc),
        })
    }

    /// Returns the number of entries. It takes constant time and no memory.
    pub fn entries(&self) -> u64
        ensures { (m : model.Machine) → IsMachineOf m self.now → result ≡ length m.history }
    {
        self.board.entries()
    }

    /// Plays one event, and returns the reply. After an `Err`, which means out of memory, the machine is as before.
    ///
    /// An actor is found in time logarithmic in the number of actors. Beside that an admission costs constant time, a commit
    /// what [`Board::stage`] costs, a question what [`Snapshot::answer`] costs, and a plan what the changes of the inputs cost
    /// that it reads. A landing costs what a commit of the planned entry does.
    pub fn step(&mut self, alloc: Global, event: &Event) -> Result<Reply, AllocError>
        ensures replied { (m : model.Machine) → IsMachineOf m self.old
            → IfOk result (λ r. reply_of r ≡ model.reply m event.now.actor (event_of event.now.what)) }
        ensures next { (m : model.Machine) → IsMachineOf m self.old
            → OnOk result (IsMachineOf (model.next m event.now.actor (event_of event.now.what)) self.new) }
        ensures right { (m : model.Machine) → IsMachineOf m self.old
            → Right (model.next m event.now.actor (event_of event.now.what)).history }
        ensures as_before { OnErr result (IsAsBefore self.old self.new) }
    {
        match &event.what {
            What::Commit(entry) => self.commit(alloc, entry),
            What::Admit => self.admit(event.actor),
            What::Ask(query) => self.ask(alloc, event.actor, query),
            What::Plan(stream) => self.plan(alloc, event.actor, *stream),
            What::Land => self.land(alloc, event.actor),
        }
    }

    /// Commits an entry of an actor, unless it is a distillate.
    fn commit(&mut self, alloc: Global, entry: &Entry) -> Result<Reply, AllocError>
        ensures replied { (m : model.Machine) (actor : ℕ) → IsMachineOf m self.old
            → IfOk result (λ r. reply_of r ≡ model.reply m actor (events.Commit entry.now)) }
        ensures next { (m : model.Machine) (actor : ℕ) → IsMachineOf m self.old
            → OnOk result (IsMachineOf (model.next m actor (events.Commit entry.now)) self.new) }
        ensures as_before { OnErr result (IsAsBefore self.old self.new) }
    {
        if let Entry::Distillate { .. } = entry {
            return Ok(Reply::Rejected(Rejection::NotWritable));
        }
        let outcome = stage(alloc, &self.board, entry)?;
        Ok(finish(&mut self.board, outcome))
    }

    /// Admits an actor to all entries so far.
    fn admit(&mut self, actor: u16) -> Result<Reply, AllocError>
        ensures replied { (m : model.Machine) → IsMachineOf m self.old
            → IfOk result (λ r. reply_of r ≡ model.reply m actor events.Admit) }
        ensures next { (m : model.Machine) → IsMachineOf m self.old
            → OnOk result (IsMachineOf (model.next m actor events.Admit) self.new) }
        ensures as_before { OnErr result (IsAsBefore self.old self.new) }
    {
        let snapshot = self.board.admit()?;
        self.admitted.insert(actor, snapshot)?;
        Ok(Reply::Admitted(self.board.entries()))
    }

    /// Answers a question of an actor.
    fn ask(&self, alloc: Global, actor: u16, query: &Query) -> Result<Reply, AllocError>
        ensures { (m : model.Machine) → IsMachineOf m self.now
            → IfOk result (λ r. reply_of r ≡ model.reply m actor (events.Ask query.now)) }
    {
        let answer = match self.admitted.get(&actor) {
            Some(snapshot) => snapshot.answer(alloc, query)?,
            None => Board::empty().answer(alloc, query)?,
        };
        Ok(Reply::Answered(answer))
    }

    /// Plans the next distillate of a stream for an actor.
    fn plan(&mut self, alloc: Global, actor: u16, stream: u32) -> Result<Reply, AllocError>
        ensures replied { (m : model.Machine) → IsMachineOf m self.old
            → IfOk result (λ r. reply_of r ≡ model.reply m actor (events.Plan stream)) }
        ensures next { (m : model.Machine) → IsMachineOf m self.old
            → OnOk result (IsMachineOf (model.next m actor (events.Plan stream)) self.new) }
        ensures as_before { OnErr result (IsAsBefore self.old self.new) }
    {
        let Some(snapshot) = self.admitted.get(&actor) else {
            return Ok(Reply::NotOutput);
        };
        match next_plan(alloc, snapshot, stream)? {
            Next::NotOutput => Ok(Reply::NotOutput),
            Next::UpToDate { .. } => Ok(Reply::Planned(false)),
            Next::Plan(plan) => {
                self.plans.insert(actor, plan)?;
                Ok(Reply::Planned(true))
            }
        }
    }

    /// Lands the plan of an actor, and uses it up.
    fn land(&mut self, alloc: Global, actor: u16) -> Result<Reply, AllocError>
        ensures replied { (m : model.Machine) → IsMachineOf m self.old
            → IfOk result (λ r. reply_of r ≡ model.reply m actor events.Land) }
        ensures next { (m : model.Machine) → IsMachineOf m self.old
            → OnOk result (IsMachineOf (model.next m actor events.Land) self.new) }
        ensures as_before { OnErr result (IsAsBefore self.old self.new) }
    {
        let Some(plan) = self.plans.get(&actor) else {
            return Ok(Reply::NoPlan);
        };
        let outcome = stage_plan(alloc, &self.board, plan)?;
        let reply = finish(&mut self.board, outcome);
        self.plans.remove(&actor);
        Ok(reply)
    }
}

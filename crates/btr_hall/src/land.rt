//! The turn of a plan.
ghost use Rattle.std.specs.Prelude.{◌≡◌, List};
ghost use Rattle.btr_hist.specs.declared.entry.Entry.{Entry as EntrySpec};
ghost use Rattle.btr_engine.specs.Engine.{IsEngineOf};
ghost use Rattle.btr_hall.specs.Trace.{history_of};
ghost use Rattle.btr_hall.specs.Session.{IsSessionOf, IsSame, opening_of, seen_of};
ghost use Rattle.btr_plan.specs.Plan.{IsPlanOf};
ghost use Rattle.btr_hall.specs.Landing.{Lands};
ghost use Rattle.btr_hall.specs.Superseded.{IsSupersededBy, said_fault, said_rejection};

use crate::session::{Hall, Session};
use crate::store::Store;
use crate::travel::{add_in, home_turn};
use btr_disk::Disk;
use btr_distil::Plan;
use btr_engine::{Crew, Receipt, StepFault};
use btr_hist::Rejection;
use std::alloc::Global;
use std::marker::Sync;
use std::sync::Wait;
use std::thread::Threads;

/// Why a plan was not landed. If several causes hold, the first in this order is returned. Only `Crowded` and `TooManyPoints`, which
/// are found last, may be hidden by `Want`.
#[derive(Clone, Copy, PartialEq, Eq)]
pub enum LandFault {
    /// The engine was stopped, with this number of entries.
    Stopped { entries: u64 },

    /// The store is sealed.
    Sealed,

    /// The output has another version since the one that the plan follows: its latest version is this one.
    Superseded { version: u64 },

    /// The output has as many versions as a stream can have.
    VersionLimit,

    /// A bottom span would hold too many points: the start of the first such span, in nanoseconds. It never comes if the history
    /// is legal.
    Crowded { start: i64 },

    /// The version would hold too many points: their number. It never comes if the history is legal.
    TooManyPoints { count: u64 },

    /// There was not enough memory.
    Want,

    /// There is less room than the entry needs, both in blocks.
    DeviceFull { need: u64, left: u64 },

    /// The device failed. The engine is stopped. A crash leaves the history with the entry or without it.
    DeviceFault,
}

impl<D: Disk> Session<D> {
    /// Lands a plan: adds the distillate as it was planned, with the reads of the plan. The plan was made from a history that the
    /// session has seen.
    ///
    /// If the output has another version since the one that the plan follows, the plan is superseded, and nothing is added. What
    /// was added to the inputs in between does not matter: the plan says which of their versions were read.
    ///
    /// It waits and costs as [`Session::commit`] does. At most `threads` threads make what is written, the calling one among them: if that
    /// is one, or the plan is small, it starts no thread.
    pub fn land<R: Threads + Wait + Sync>(
        &mut self,
        rt: &R,
        alloc: Global,
        hall: &Hall<D>,
        plan: &Plan,
        threads: usize,
    ) -> Result<Receipt, LandFault>
        requires session { IsSessionOf hall.now self.old }
        requires planned { (h : List EntrySpec) → IsEngineOf h (opening_of hall.now) → IsPlanOf (history_of h (seen_of self.old)) plan.now }
        ensures session { IsSessionOf hall.now self.new }
        ensures same { IsSame self.old self.new }
        ensures lands { Lands hall.now self.old self.new plan.now result }
    {
        let turn = home_turn(rt, hall, &mut self.pass);
        if let Some(version) = turn.state.superseded(plan) {
            hall.gate.leave(&mut self.pass, turn);
            hall.lock.release();
            return Err(LandFault::Superseded { version });
        }
        let entry = plan.entry();
        let crew = Crew { rt, threads };
        match add_in(&crew, alloc, hall, &mut self.pass, turn, entry) {
            Ok(receipt) => Ok(receipt),
            Err(fault) => Err(land_fault(fault)),
        }
    }
}

impl<D: Disk> Store<D> {
    /// Returns the latest version of the output of a plan, if it is above the one that the plan follows and the engine is not
    /// stopped nor sealed.
    fn superseded(&self, plan: &Plan) -> Option<u64>
        ensures { IsSupersededBy self.now plan.now result }
    {
        if self.engine.stopped() || self.engine.sealed() {
            return None;
        }
        let version = self.engine.latest(plan.stream()).unwrap_or(0);
        if version > plan.base() {
            Some(version)
        } else {
            None
        }
    }
}

/// What is said of the fault of the step of a plan that follows the latest version of its output.
fn land_fault(fault: StepFault) -> LandFault
    ensures { result ≡ said_fault fault }
{
    match fault {
        StepFault::Stopped { entries } => LandFault::Stopped { entries },
        StepFault::Sealed => LandFault::Sealed,
        StepFault::Rejected(why) => land_rejection(why),
        StepFault::Want => LandFault::Want,
        StepFault::DeviceFull { need, left } => LandFault::DeviceFull { need, left },
        StepFault::DeviceFault => LandFault::DeviceFault,
    }
}

/// What is said of a rejection of the entry of such a plan. No plan of a history can meet the others: then it is memory that ran out.
fn land_rejection(why: Rejection) -> LandFault
    ensures { result ≡ said_rejection why }
{
    match why {
        Rejection::VersionLimit => LandFault::VersionLimit,
        Rejection::Crowded { start } => LandFault::Crowded { start },
        Rejection::TooManyPoints { count } => LandFault::TooManyPoints { count },
        _ => LandFault::Want,
    }
}

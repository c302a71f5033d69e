//! Taking an entry: it is tested as if it came from anywhere, and added by the calls of a step.
ghost use Rattle.std.specs.Prelude.{◌≡◌, ◌↔◌, true, List, None, IfOk, IfErr, OnOk, IsTrue, Err};
ghost use Rattle.btr_hist.specs.declared.entry.Entry.{Entry as EntrySpec};
ghost use Rattle.btr_hist.specs.Legal.{rejection, IsComputed};
ghost use Rattle.btr_engine.specs.Engine.{log_of, board_of, tail_of, is_home, IsEngineOf};
ghost use Rattle.btr_engine.specs.Step.{HasResult, StepCause};
ghost use Rattle.btr_engine.specs.Travel.{IsStaged, IsReadyOn};
ghost use Rattle.btr_follow.specs.Taking.{outcome_of, TellsSeal, RefusalCause, IsRefusal, IsTaking};

use crate::heard::Heard;
use btr_disk::Disk;
use btr_engine::{Alone, Engine, Ready, Return, StepFault};
use btr_hist::Entry;
use btr_log::Log;
use btr_plan::is_computed;
use std::alloc::{AllocError, Global};

/// Why an entry is not taken.
#[derive(Drop)]
pub(crate) enum Refused {
    /// It is not allowed.
    Foreign,

    /// The engine does not add it, or there was not enough memory.
    Fault(StepFault),
}

impl Refused {
    /// What the follower returns then.
    fn outcome(self) -> Result<Heard, StepFault>
        ensures { result ≡ outcome_of self }
    {
        match self {
            Refused::Foreign => Ok(Heard::Foreign),
            Refused::Fault(fault) => Err(fault),
        }
    }
}

/// Adds an entry to the history of an engine, if it is allowed. The caller passes an engine whose log is at home, and gets it so.
pub(crate) fn take_entry<D: Disk>(
    engine: &mut Engine<D>,
    alloc: Global,
    entry: &Entry,
) -> Result<Heard, StepFault>
    requires home { is_home engine.old ≡ true }
    ensures { IsTaking engine.old engine.new entry.now result }
{
    let Some(log) = engine.take_log() else {
        unreachable!()
    };
    let ready = match decide(engine, alloc, &log, entry) {
        Ok(ready) => ready,
        Err(refused) => {
            engine.settle(log, Return::Untouched);
            return refused.outcome();
        }
    };
    let (log, written) = ready.write(&Alone, log);
    if let Err(_) = written {
        engine.settle(log, Return::Failed);
        return Err(StepFault::DeviceFault);
    }
    match engine.settle(log, Return::Written(ready)) {
        Some(receipt) => Ok(Heard::Taken(receipt.number)),
        None => unreachable!(),
    }
}

/// Tests if an entry is allowed, and makes all that is needed to add it, for the log of this engine, which is out. It changes nothing.
fn decide<D: Disk>(
    engine: &Engine<D>,
    alloc: Global,
    log: &Log<D>,
    entry: &Entry,
) -> Result<Ready, Refused>
    requires log { log.now ≡ log_of engine.now }
    ensures ready { IfOk result (IsReadyOn engine.now entry.now) }
    ensures staged { (h : List EntrySpec) → IsEngineOf h engine.now
        → IfOk result (IsStaged h (board_of engine.now) (tail_of engine.now) entry.now) }
    ensures computed { (h : List EntrySpec) → IsEngineOf h engine.now → OnOk result (IsComputed h entry.now) }
    ensures refused { IfErr result (IsRefusal engine.now entry.now) }
    ensures cause { (h : List EntrySpec) → IsEngineOf h engine.now → IfErr result (RefusalCause h engine.now entry.now) }
{
    let ready = match engine.stage(&Alone, alloc, log, entry) {
        Ok(ready) => ready,
        Err(fault) => return Err(refuse(alloc, engine, entry, fault)),
    };
    match has_computed(alloc, engine, entry) {
        Ok(true) => Ok(ready),
        Ok(false) => Err(Refused::Foreign),
        Err(AllocError) => Err(Refused::Fault(StepFault::Want)),
    }
}

/// Why an entry is not taken that the engine refuses for this cause. An entry for which there is no room may be one that is not allowed.
fn refuse<D: Disk>(alloc: Global, engine: &Engine<D>, entry: &Entry, fault: StepFault) -> Refused
    requires refused { HasResult engine.now engine.now entry.now (Err fault) }
    requires seal { TellsSeal engine.now fault }
    ensures refused { IsRefusal engine.now entry.now result }
    ensures cause { (h : List EntrySpec) → IsEngineOf h engine.now → StepCause h engine.now engine.now entry.now fault
        → RefusalCause h engine.now entry.now result }
{
    match fault {
        StepFault::Rejected(_) => Refused::Foreign,
        StepFault::DeviceFull { .. } => match has_computed(alloc, engine, entry) {
            Ok(true) => Refused::Fault(fault),
            Ok(false) => Refused::Foreign,
            Err(AllocError) => Refused::Fault(StepFault::Want),
        },
        StepFault::Stopped { .. } | StepFault::Sealed | StepFault::Want | StepFault::DeviceFault =>
            Refused::Fault(fault),
    }
}

/// Whether an entry that may follow the history of an engine is what the definition gives. An `Err` means out of memory.
fn has_computed<D: Disk>(
    alloc: Global,
    engine: &Engine<D>,
    entry: &Entry,
) -> Result<bool, AllocError>
    ensures { (h : List EntrySpec) → IsEngineOf h engine.now → rejection h entry.now ≡ None
        → IfOk result (λ is. IsTrue is ↔ IsComputed h entry.now) }
{
    let snapshot = engine.admit()?;
    is_computed(alloc, &snapshot, entry)
}

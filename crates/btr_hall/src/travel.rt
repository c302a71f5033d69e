//! The travel of the log: it is taken out in a turn, written beside the turns of others, and brought back in another turn.
ghost use Rattle.std.specs.Prelude.{◌≡◌, false, true, None, Some, Err, IfOk, IfErr, OnOk};
ghost use Rattle.btr_gate.specs.declared.view.Stage.TheVariants.{Idle};
ghost use Rattle.btr_gate.specs.Gates.{IsPassOf, view};
ghost use Rattle.btr_hist.specs.declared.entry.Entry.{Entry as EntrySpec};
ghost use Rattle.btr_engine.specs.Engine.{log_of, is_home};
ghost use Rattle.btr_engine.specs.Travel.{IsReadyOn, IsWritten, HasFailed};
ghost use Rattle.btr_hall.specs.Commit.{Adds};
ghost use Rattle.btr_hall.specs.Session.{opening_of};
ghost use Rattle.btr_hall.specs.Travel.{Gets, HasHomeTurn, TakesOut, Brings, AddsIn};

use crate::commit::{added, halted};
use crate::item::Item;
use crate::session::Hall;
use crate::store::Store;
use btr_disk::{Disk, Failed};
use btr_engine::{Crew, Engine, Ready, Receipt, Return, StepFault};
use btr_gate::{Pass, Turn};
use btr_hist::Entry;
use btr_log::Log;
use std::alloc::Global;
use std::marker::Sync;
use std::sync::Wait;
use std::thread;
use std::thread::Threads;

/// Takes the lock of the log, and then waits for a turn in which the log is at home. Who holds the lock finds it at home in the first
/// turn, which no clause says. In each turn in which it is out the pass adds nothing.
pub(crate) fn home_turn<R: Wait, D: Disk>(
    rt: &R,
    hall: &Hall<D>,
    pass: &mut Pass<Store<D>, Item<D>, Engine<D>>,
) -> Turn<Store<D>, Item<D>>
    requires own { IsPassOf hall.now.gate pass.old }
    requires idle { (view pass.old).stage ≡ Idle }
    requires carries { (view pass.old).carries ≡ false }
    requires set { (view pass.old).setting ≡ Some (opening_of hall.now) }
    ensures own { IsPassOf hall.now.gate pass.new }
    ensures gets { Gets (opening_of hall.now) (view pass.old) (view pass.new) result }
{
    hall.lock.take(rt);
    for _ in rt.forever() {
        let turn = hall.gate.enter(rt, pass);
        if !turn.state.engine.is_out() {
            return turn;
        }
        hall.gate.leave(pass, turn);
        thread::yield_now();
    }
    unreachable!()
}

/// Adds an entry in a turn in which the log is at home, ends the turn, and releases the lock. The threads of `crew` make what is written.
/// The log is out while the entry is written, and others have their turns. A second turn brings the log back. An entry that is refused
/// needs no second turn.
pub(crate) fn add_in<R: Threads + Wait + Sync, D: Disk>(
    crew: &Crew<'_, R>,
    alloc: Global,
    hall: &Hall<D>,
    pass: &mut Pass<Store<D>, Item<D>, Engine<D>>,
    turn: Turn<Store<D>, Item<D>>,
    entry: &Entry,
) -> Result<Receipt, StepFault>
    requires own { IsPassOf hall.now.gate pass.old }
    requires turn { HasHomeTurn (opening_of hall.now) (view pass.old) turn }
    ensures own { IsPassOf hall.now.gate pass.new }
    ensures adds { AddsIn (view pass.old) (view pass.new) turn.state entry.now result }
{
    let mut turn = turn;
    match turn.state.take(crew, alloc, entry) {
        Err(fault) => {
            hall.gate.leave(pass, turn);
            hall.lock.release();
            Err(fault)
        }
        Ok((log, ready)) => {
            hall.gate.leave(pass, turn);
            let (log, written) = ready.write(crew, log);
            let mut last = hall.gate.enter(crew.rt, pass);
            let (result, item) = last.state.bring(log, ready, written, entry);
            last.added = item;
            hall.gate.leave(pass, last);
            hall.lock.release();
            result
        }
    }
}

impl<D: Disk> Store<D> {
    /// Takes the log out, with all that is to be written to it for an entry, which the threads of `crew` make. If the entry is refused the
    /// log stays.
    fn take<R: Threads + Sync>(
        &mut self,
        crew: &Crew<'_, R>,
        alloc: Global,
        entry: &Entry,
    ) -> Result<(Log<D>, Ready), StepFault>
        requires home { is_home self.old.engine ≡ true }
        ensures refused { IfErr result (λ fault. Adds self.old self.new entry.now (Err fault) None) }
        ensures out { IfOk result (λ r. TakesOut self.old self.new entry.now r.0 r.1) }
    {
        let Some(log) = self.engine.take_log() else {
            unreachable!()
        };
        match self.engine.stage(crew, alloc, &log, entry) {
            Ok(ready) => Ok((log, ready)),
            Err(fault) => {
                self.engine.settle(log, Return::Untouched);
                Err(fault)
            }
        }
    }

    /// Brings the log back after a write. Returns the result of the step and the item of the list that it made.
    fn bring(
        &mut self,
        log: Log<D>,
        ready: Ready,
        written: Result<(), Failed>,
        entry: &Entry,
    ) -> (Result<Receipt, StepFault>, Option<Item<D>>)
        requires out { is_home self.old.engine ≡ false }
        requires written { OnOk written
            (((e : EntrySpec) × IsReadyOn self.old.engine e ready) × IsWritten (log_of self.old.engine) log ready) }
        requires failed { IfErr written (λ _. HasFailed ready.raise (log_of self.old.engine) log) }
        ensures { Brings self.old self.new log ready entry.now written result.0 result.1 }
    {
        if let Err(_) = written {
            self.engine.settle(log, Return::Failed);
            self.halted = true;
            let item = halted(entry, &self.engine);
            return (Err(StepFault::DeviceFault), Some(item));
        }
        match self.engine.settle(log, Return::Written(ready)) {
            Some(receipt) => {
                let item = added(entry, &self.engine);
                (Ok(receipt), Some(item))
            }
            None => unreachable!(),
        }
    }
}

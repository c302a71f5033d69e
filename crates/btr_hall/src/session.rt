//! The hall and its sessions: the beginning and the close.
ghost use Rattle.std.specs.Prelude.{◌≡◌, false};
ghost use Rattle.btr_gate.specs.declared.view.Stage.TheVariants.{Idle};
ghost use Rattle.btr_gate.specs.Gates.{view};

use crate::item::Item;
use crate::lock::LogLock;
use crate::store::Store;
use btr_disk::Disk;
use btr_engine::Engine;
use btr_gate::{Gate, Pass};
use std::alloc::{AllocError, Global};
use std::snapshot::Snapshot as State;

/// One engine for many threads, which share the hall by `&`. Each uses a session of its own.
///
/// It has no `Drop`: call [`Hall::close`] to take the engine out.
pub struct Hall<D: Disk> {
    pub(crate) gate: Gate<Store<D>, Item<D>, Engine<D>>,
    /// Where those wait who want the log.
    pub(crate) lock: LogLock,
    /// The engine with which the hall began, for contracts alone.
    pub(crate) opening: State<Engine<D>>,
}

/// What one user of a hall has seen of its list, and which items of the list are its own. It may go to another thread. It has no
/// bytes.
///
/// A session that is dropped keeps its share, so the hall can no more be closed.
#[derive(Drop)]
pub struct Session<D: Disk> {
    pub(crate) pass: Pass<Store<D>, Item<D>, Engine<D>>,
    ghost idle: { (view pass).stage ≡ Idle },
    ghost home: { (view pass).carries ≡ false },
}

impl<D: Disk> Hall<D> {
    ghost use Rattle.std.specs.Prelude.{◌≡◌, ℕ, true, false, List, length, IfOk, IfErr};
    ghost use Rattle.btr_hist.specs.declared.entry.Entry.{Entry as EntrySpec};
    ghost use Rattle.btr_engine.specs.Engine.{is_stopped, is_home, IsEngineOf, IsAtRest, KeepsOpening};
    ghost use Rattle.btr_hall.specs.Trace.{IsTraceOf, history_of};
    ghost use Rattle.btr_hall.specs.Session.{IsSessionOf, IsAlone, Begins, HasEachOnce, StaysDurable, opening_of, seen_of, engine_of};

    /// Makes a hall of an engine, and its first session, which has seen all entries of the engine. It takes a constant amount of
    /// memory, and does not call the device. An `Err` means out of memory, and returns the engine.
    pub fn begin(
        alloc: Global,
        engine: Engine<D>,
    ) -> Result<(Hall<D>, Session<D>), (Engine<D>, AllocError)>
        requires home { is_home engine ≡ true }
        ensures begins { IfOk result (λ r. Begins engine r.0 r.1) }
        ensures refused { IfErr result (λ r. r.0 ≡ engine) }
    {
        let opening = State::of(&engine);
        let store = Store {
            opening: State::of(&engine),
            engine,
            halted: false,
        };
        match Gate::begin(alloc, store) {
            Ok((gate, pass)) => {
                let lock = LogLock::new();
                Ok((
                    Hall {
                        gate,
                        lock,
                        opening,
                    },
                    Session { pass },
                ))
            }
            Err((store, error)) => Err((store.engine, error)),
        }
    }

    /// Takes the engine out. The session is the last one of the hall, since its share covers: the engine is that after all that
    /// it has seen, and its numbers are all those that were given since the hall began. It takes constant time and no memory, and
    /// does not call the device.
    ///
    /// What a crash could have left before the hall began, with what it could have left since, is as after the steps of one engine:
    /// each image has a prefix of the history, or the history with the entry in whose step the device failed.
    pub fn close(self, session: Session<D>) -> Engine<D>
        requires session { IsSessionOf self session }
        requires alone { IsAlone session }
        ensures home { is_home result ≡ true }
        ensures engine { result ≡ engine_of self session }
        ensures trace { IsTraceOf (opening_of self) (seen_of session) }
        ensures once { HasEachOnce session }
        ensures of { (h : List EntrySpec) → IsEngineOf h (opening_of self) → IsEngineOf (history_of h (seen_of session)) result }
        ensures kept { KeepsOpening (opening_of self) result }
        ensures at_rest { D.is_observable → (h : List EntrySpec) → IsAtRest h (opening_of self) → is_stopped result ≡ false
            → IsAtRest (history_of h (seen_of session)) result }
        ensures durable { D.is_observable → StaysDurable (opening_of self) (seen_of session) result }
    {
        let Hall {
            gate,
            lock: _,
            opening: _,
        } = self;
        let Session { pass } = session;
        let Store { engine, .. } = gate.close(pass);
        engine
    }
}

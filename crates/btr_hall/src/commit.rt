//! The turn of an entry.
ghost use Rattle.std.specs.Prelude.{◌≡◌, false};
ghost use Rattle.btr_engine.specs.Step.{IsStep};
ghost use Rattle.btr_hall.specs.Session.{IsSessionOf, IsSame, IsAlone, engine_of};
ghost use Rattle.btr_hall.specs.Commit.{is_distillate, shown, Commits};

use crate::item::Item;
use crate::session::{Hall, Session};
use crate::travel::{add_in, home_turn};
use btr_disk::Disk;
use btr_engine::{Crew, Engine, Receipt, StepFault};
use btr_hist::Entry;
use std::alloc::Global;
use std::marker::Sync;
use std::snapshot::Snapshot as State;
use std::sync::Wait;
use std::thread::Threads;

impl<D: Disk> Session<D> {
    /// Adds an entry to the history: [`Engine::step`] in a turn. The entry is no distillate; see [`Session::land`].
    ///
    /// The list of the turn begins with all that the session had seen. After the call the session has seen that list, with the
    /// entry if it was accepted, or with its halt if the device failed; the number of this item is then one of its own. After a
    /// halt each session's entries are refused as `Stopped`. Those of a sealed store are refused as `Sealed`.
    ///
    /// It waits until nobody else has the log, then for a turn, and then costs what a step costs. It starts no thread. It sleeps if it
    /// waits long. Who commits again at once may pass those who sleep, for about a millisecond. While the device writes others have their
    /// turns. The result and the entry are those of a step after the list of the first turn: nobody adds an entry in between.
    pub fn commit<R: Threads + Wait + Sync>(
        &mut self,
        rt: &R,
        alloc: Global,
        hall: &Hall<D>,
        entry: &Entry,
    ) -> Result<Receipt, StepFault>
        requires session { IsSessionOf hall.now self.old }
        requires user { is_distillate entry.now ≡ false }
        ensures session { IsSessionOf hall.now self.new }
        ensures same { IsSame self.old self.new }
        ensures commits { Commits hall.now self.old self.new entry.now result }
        ensures alone { IsAlone self.old → IsStep (engine_of hall.now self.old) (engine_of hall.now self.new) entry.now result }
    {
        let turn = home_turn(rt, hall, &mut self.pass);
        let crew = Crew { rt, threads: 1 };
        add_in(&crew, alloc, hall, &mut self.pass, turn, entry)
    }
}

/// The item of an accepted entry.
pub(crate) fn added<D: Disk>(entry: &Entry, engine: &Engine<D>) -> Item<D>
    ensures { result ≡ Item.Added (shown entry.now) (shown engine.now) }
{
    Item::Added {
        entry: State::of(entry),
        engine: State::of(engine),
    }
}

/// The item of an entry in whose step the device failed.
pub(crate) fn halted<D: Disk>(entry: &Entry, engine: &Engine<D>) -> Item<D>
    ensures { result ≡ Item.Halted (shown entry.now) (shown engine.now) }
{
    Item::Halted {
        entry: State::of(entry),
        engine: State::of(engine),
    }
}

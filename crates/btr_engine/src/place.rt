//! The place of an engine's log: at home in the engine, or out of it.
ghost use Rattle.std.specs.Prelude.{◌≡◌, false, not};
ghost use Rattle.btr_engine.specs.declared.place.Place.TheVariants.{Home as AtHome};
ghost use Rattle.btr_engine.specs.Place.{log_in, has_log, log_here};

use btr_disk::Disk;
use btr_log::Log;
use std::mem;
use std::snapshot::Snapshot as State;

/// Where the log of an engine is.
#[derive(Drop)]
pub(crate) enum Place<D: Disk> {
    /// In the engine.
    Home(Log<D>),

    /// Out of it. What is kept is the log as it was taken, for contracts. It has no bytes.
    Out(State<Log<D>>),
}

impl<D: Disk> Place<D> {
    /// Takes the log out. `None` is that it is out.
    pub(crate) fn take(&mut self) -> Option<Log<D>>
        ensures is { result ≡ log_here self.old }
        ensures out { has_log self.new ≡ false }
        ensures same { log_in self.new ≡ log_in self.old }
    {
        let Place::Home(log) = self else {
            return None;
        };
        let out = Place::Out(State::of(log));
        match mem::replace(self, out) {
            Place::Home(log) => Some(log),
            Place::Out(_) => unreachable!(),
        }
    }

    /// Returns whether the log is out.
    pub(crate) fn is_out(&self) -> bool
        ensures { result ≡ not (has_log self.now) }
    {
        match self {
            Place::Home(_) => false,
            Place::Out(_) => true,
        }
    }

    /// Puts a log into the place of the one that is out.
    pub(crate) fn put_back(&mut self, log: Log<D>)
        requires out { has_log self.old ≡ false }
        ensures { self.new ≡ AtHome log }
    {
        match mem::replace(self, Place::Home(log)) {
            Place::Out(_) => {}
            Place::Home(_) => unreachable!(),
        }
    }
}

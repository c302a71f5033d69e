//! A session with its hall.
ghost use Rattle.std.specs.Prelude.{◌≡◌};
ghost use Rattle.btr_hall.specs.Session.{Splits, Meets};
ghost use Rattle.btr_jobs.specs.Jobs.{IsAt};

use btr_disk::Disk;
use btr_hall::{Hall, Session};

/// A worker: a session, and the hall that it is of.
#[derive(Drop)]
pub(crate) struct Worker<'a, D: Disk> {
    pub(crate) hall: &'a Hall<D>,
    pub(crate) session: Session<D>,
}

impl<'a, D: Disk> Worker<'a, D> {
    /// Makes a second worker at the hall.
    pub(crate) fn split(&mut self) -> Worker<'a, D>
        requires at { IsAt self.old.hall.now self.old.session }
        ensures hall { self.new.hall ≡ self.old.hall }
        ensures other_hall { result.hall ≡ self.old.hall }
        ensures at { IsAt self.old.hall.now self.new.session }
        ensures other { IsAt self.old.hall.now result.session }
        ensures splits { Splits self.old.session self.new.session result.session }
    {
        let session = self.session.split(self.hall);
        Worker {
            hall: self.hall,
            session,
        }
    }

    /// Takes in another worker at the hall.
    pub(crate) fn meet(&mut self, other: Worker<'a, D>)
        requires at { IsAt self.old.hall.now self.old.session }
        requires other { IsAt self.old.hall.now other.session }
        ensures hall { self.new.hall ≡ self.old.hall }
        ensures at { IsAt self.old.hall.now self.new.session }
        ensures meets { Meets self.old.session other.entry.session self.new.session }
    {
        let Worker { hall: _, session } = other;
        self.session.meet(self.hall, session);
    }
}

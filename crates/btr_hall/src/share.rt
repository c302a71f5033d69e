//! Two sessions of one, and one of two.
ghost use Rattle.btr_hall.specs.Session.{IsSessionOf, Splits, Meets};

use crate::session::{Hall, Session};
use btr_disk::Disk;

impl<D: Disk> Session<D> {
    /// Makes a new session, for another thread. It has seen the same, has no items of its own, and gets half of the share. It does
    /// not wait, and takes constant time and no memory.
    pub fn split(&mut self, hall: &Hall<D>) -> Session<D>
        requires session { IsSessionOf hall.now self.old }
        ensures session { IsSessionOf hall.now self.new }
        ensures other { IsSessionOf hall.now result }
        ensures splits { Splits self.old self.new result }
    {
        let pass = hall.gate.split(&mut self.pass);
        Session { pass }
    }

    /// Takes in another session, with its items and its share. What the two have seen are beginnings of one list, and the session
    /// has then seen the longer of them. It does not wait, and takes time linear in the items of both, and no memory.
    pub fn meet(&mut self, hall: &Hall<D>, other: Session<D>)
        requires session { IsSessionOf hall.now self.old }
        requires other { IsSessionOf hall.now other }
        ensures session { IsSessionOf hall.now self.new }
        ensures meets { Meets self.old other self.new }
    {
        let Session { pass } = other;
        hall.gate.meet(&mut self.pass, pass);
    }
}

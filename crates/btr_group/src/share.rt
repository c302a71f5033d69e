//! Two seats of one, and one of two.
ghost use Rattle.btr_group.specs.Seats.{IsGroupSeat, SplitsSeat, MeetsSeat};

use crate::group::{Group, Seat};
use btr_disk::Disk;

impl<D: Disk> Seat<D> {
    /// Makes a new seat, for another thread. It has seen the same, has no items of its own, and gets half of the share. It does not
    /// wait, and takes constant time and no memory.
    pub fn split(&mut self, group: &Group<D>) -> Seat<D>
        requires seat { IsGroupSeat group.now self.old }
        ensures seat { IsGroupSeat group.now self.new }
        ensures other { IsGroupSeat group.now result }
        ensures splits { SplitsSeat self.old self.new result }
    {
        let pass = group.gate.split(&mut self.pass);
        Seat { pass }
    }

    /// Takes in another seat, with its items and its share. What the two have seen are beginnings of one list, and the seat has then
    /// seen the longer of them. It does not wait, and takes time linear in the items of both, and no memory.
    pub fn meet(&mut self, group: &Group<D>, other: Seat<D>)
        requires seat { IsGroupSeat group.now self.old }
        requires other { IsGroupSeat group.now other }
        ensures seat { IsGroupSeat group.now self.new }
        ensures meets { MeetsSeat self.old other self.new }
    {
        let Seat { pass } = other;
        group.gate.meet(&mut self.pass, pass);
    }
}

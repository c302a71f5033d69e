//! The close of all groups of a hall.
ghost use Rattle.std.specs.Prelude.{◌≡◌};
ghost use Rattle.std.specs.List.{AllByRecursion};
ghost use Rattle.btr_hall.specs.Session.{IsSessionOf};
ghost use Rattle.btr_group.specs.Seats.{HasWholeShare};
ghost use Rattle.btr_group.specs.Sets.{AreSeatsOf};
ghost use Rattle.btr_group.specs.Closing.{AreOfHall, MeetsEach};

use crate::group::{Closed, Group, Seat};
use btr_disk::Disk;
use btr_hall::{Hall, Session};

/// Closes the groups, from the last one to the first, and takes their sessions back. The seats are the last ones of their groups. What
/// still waits in the open batches is dropped.
///
/// It waits for no turn. It takes time linear in the groups and in what their sessions added, and no memory.
pub fn close_groups<D: Disk>(
    hall: &Hall<D>,
    session: &mut Session<D>,
    groups: Vec<Group<D>>,
    seats: Vec<Seat<D>>,
)
    requires session { IsSessionOf hall.now session.old }
    requires groups { AreOfHall hall.now groups.items }
    requires seats { AreSeatsOf groups.items seats.items }
    requires whole { AllByRecursion HasWholeShare seats.items }
    ensures session { IsSessionOf hall.now session.new }
    ensures closes { MeetsEach hall.now session.old groups.items seats.items session.new }
{
    let mut groups = groups;
    let mut seats = seats;
    while let Some(group) = groups.pop() {
        let Some(seat) = seats.pop() else {
            unreachable!()
        };
        let Closed { session: other, .. } = group.close(seat);
        session.meet(hall, other);
    }
    groups.destroy_empty();
}

//! The groups of all streams of a hall, as one lane of a script uses them.
ghost use Rattle.std.specs.Prelude.{◌≡◌};
ghost use Rattle.btr_group.specs.Sets.{AreGroupsOf, AreSeatsOf};

use crate::group::{Group, Seat};
use btr_base::Point;
use btr_disk::Disk;
use btr_hall::{Flushed, Groups, Hall, OfferFault, Offered};
use std::alloc::{AllocError, Global};
use std::marker::Sync;
use std::sync::Wait;
use std::thread::Threads;

/// The groups of all streams of a hall, as one lane of a script uses them, with a seat of its own in each.
#[derive(Drop)]
pub struct LaneGroups<'a, D: Disk> {
    pub(crate) hall: &'a Hall<D>,
    /// That of stream 0, of stream 1 and so on.
    pub(crate) groups: &'a [Group<D>],
    /// The number of points at which a batch is led, for contracts alone.
    pub(crate) threshold: u32,
    /// The seats of the lane, in the order of the groups.
    pub(crate) seats: Vec<Seat<D>>,
    ghost groups_are: { ∥ AreGroupsOf hall.now threshold 0 groups.now ∥₁ },
    ghost seats_are: { ∥ AreSeatsOf groups.now seats.items ∥₁ },
}

impl<'a, D: Disk> LaneGroups<'a, D> {
    /// Makes a lane of its seats. It takes constant time and no memory.
    pub fn new(
        hall: &'a Hall<D>,
        groups: &'a [Group<D>],
        threshold: u32,
        seats: Vec<Seat<D>>,
    ) -> LaneGroups<'a, D>
        requires groups { AreGroupsOf hall.now threshold 0 groups.now }
        requires seats { AreSeatsOf groups.now seats.items }
        ensures hall { result.hall.now ≡ hall.now }
        ensures groups { result.groups.now ≡ groups.now }
        ensures threshold { result.threshold ≡ threshold }
        ensures seats { result.seats.items ≡ seats.items }
    {
        LaneGroups {
            hall,
            groups,
            threshold,
            seats,
        }
    }

    /// Returns the seats, in the order of the groups. It takes constant time and no memory.
    pub fn into_seats(self) -> Vec<Seat<D>>
        ensures seats { AreSeatsOf self.entry.groups.now result.items }
        ensures same { result.items ≡ self.entry.seats.items }
    {
        let LaneGroups { seats, .. } = self;
        seats
    }
}

impl<D: Disk> Groups for LaneGroups<'_, D> {
    ghost use Rattle.std.specs.Prelude.{nat_lt, length};
    ghost use Rattle.std.proofs.Common.{refl, ◌∙◌};
    ghost use Rattle.btr_group.specs.Sets.{AreSameSeats, view_at_place};
    ghost use Rattle.btr_group.specs.SetLaws.{same_seats, same_twice};

    ghost has_group = { λ g stream. nat_lt stream (length g.groups.now) };

    ghost threshold = { λ g. g.threshold };

    ghost view_at = { λ g stream. view_at_place g.seats.items stream };

    ghost later = { λ old new. (new.hall ≡ old.hall) × (new.groups ≡ old.groups) × (new.threshold ≡ old.threshold)
        × AreSameSeats old.seats.items new.seats.items };

    ghost later_same = { λ g. (refl, refl, refl, same_seats g.seats.items) };

    ghost later_twice = { λ first second third early late. (
      late.0 ∙ early.0,
      late.1 ∙ early.1,
      late.2 ∙ early.2,
      same_twice first.seats.items second.seats.items third.seats.items early.3 late.3,
    ) };

    fn has(&self, stream: u32) -> bool {
        (stream as usize) < self.groups.len()
    }

    fn offer<R: Threads + Wait + Sync>(
        &mut self,
        rt: &R,
        alloc: Global,
        stream: u32,
        points: &[Point],
    ) -> Result<Offered, OfferFault> {
        let place = stream as usize;
        let (hall, groups) = (self.hall, self.groups);
        self.seats[place].offer(rt, alloc, hall, &groups[place], points)
    }

    fn flush<R: Threads + Wait + Sync>(
        &mut self,
        rt: &R,
        alloc: Global,
        stream: u32,
    ) -> Result<Flushed, AllocError> {
        let place = stream as usize;
        let (hall, groups) = (self.hall, self.groups);
        self.seats[place].flush(rt, alloc, hall, &groups[place])
    }
}

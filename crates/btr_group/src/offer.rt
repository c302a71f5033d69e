//! The offers of a seat.
ghost use Rattle.btr_gate.specs.Gates.{IsPassOf, view};
ghost use Rattle.btr_hall.specs.Session.{IsSessionOf};
ghost use Rattle.btr_group.specs.Seats.{IsGroupSeat, first_session, setting_of};
ghost use Rattle.btr_group.specs.Offers.{OffersPoints};
ghost use Rattle.btr_group.specs.Turns.{IsFreeView, HasOffered};

use crate::carry::{GroupPass, carry};
use crate::group::{Group, Seat};
use crate::led::Put;
use btr_base::Point;
use btr_disk::Disk;
use btr_hall::{Hall, OfferFault, Offered};
use std::alloc::Global;
use std::marker::Sync;
use std::sync::Wait;
use std::thread::Threads;

impl<D: Disk> Seat<D> {
    /// Puts points into the open batch, and returns the ticket of the offer. If the batch has then reached the threshold and the
    /// session of the group is at home, the offer leads: it commits the batch by one entry, and returns its outcome. Others have their
    /// turns while it commits. After an `Err` the group is as before.
    ///
    /// It waits for a turn, and takes time linear in the points in it, and memory for them and for the note of a batch. An offer that
    /// leads then waits and costs as a commit does, and waits for a second turn.
    pub fn offer<R: Threads + Wait + Sync>(
        &mut self,
        rt: &R,
        alloc: Global,
        hall: &Hall<D>,
        group: &Group<D>,
        points: &[Point],
    ) -> Result<Offered, OfferFault>
        requires seat { IsGroupSeat group.now self.old }
        requires hall { IsSessionOf hall.now (first_session group.now) }
        ensures seat { IsGroupSeat group.now self.new }
        ensures offers { OffersPoints hall.now group.now self.old self.new points.now result }
    {
        let put = match offer_in(rt, group, &mut self.pass, points) {
            Ok(put) => put,
            Err(fault) => return Err(fault),
        };
        let Put { ticket, led } = put;
        match led {
            None => Ok(Offered { ticket, led: None }),
            Some(led) => {
                let outcome = carry(rt, alloc, hall, group, &mut self.pass, led);
                Ok(Offered {
                    ticket,
                    led: Some(outcome),
                })
            }
        }
    }
}

/// The turn of an offer.
fn offer_in<R: Wait, D: Disk>(
    rt: &R,
    group: &Group<D>,
    pass: &mut GroupPass<D>,
    points: &[Point],
) -> Result<Put<D>, OfferFault>
    requires own { IsPassOf group.now.gate pass.old }
    requires free { IsFreeView (setting_of group.now) (view pass.old) }
    ensures own { IsPassOf group.now.gate pass.new }
    ensures offered { HasOffered (setting_of group.now) (view pass.old) (view pass.new) points.now result }
{
    let mut turn = group.gate.enter(rt, pass);
    let (result, item) = turn.state.offer(points);
    turn.added = item;
    group.gate.leave(pass, turn);
    result
}

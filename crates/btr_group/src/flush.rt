//! The flushes of a seat.
ghost use Rattle.btr_gate.specs.Gates.{IsPassOf, view};
ghost use Rattle.btr_hall.specs.Session.{IsSessionOf};
ghost use Rattle.btr_group.specs.Seats.{IsGroupSeat, first_session, setting_of};
ghost use Rattle.btr_group.specs.Offers.{FlushesBatch};
ghost use Rattle.btr_group.specs.Turns.{IsFreeView, HasFlushed};

use crate::carry::{GroupPass, carry};
use crate::group::{Group, Seat};
use crate::led::Begun;
use btr_disk::Disk;
use btr_hall::{Flushed, Hall};
use std::alloc::{AllocError, Global};
use std::marker::Sync;
use std::sync::Wait;
use std::thread::Threads;

impl<D: Disk> Seat<D> {
    /// Commits the open batch by one entry, and returns its outcome, unless another batch is out or the open batch is empty. Others
    /// have their turns while it commits. An `Err` means out of memory, and the group is as before.
    ///
    /// It waits for a turn, which takes constant time and memory for the note of the batch. If it leads a batch, it then waits and
    /// costs as a commit does, and waits for a second turn. It never waits for a batch that is out.
    pub fn flush<R: Threads + Wait + Sync>(
        &mut self,
        rt: &R,
        alloc: Global,
        hall: &Hall<D>,
        group: &Group<D>,
    ) -> Result<Flushed, AllocError>
        requires seat { IsGroupSeat group.now self.old }
        requires hall { IsSessionOf hall.now (first_session group.now) }
        ensures seat { IsGroupSeat group.now self.new }
        ensures flushes { FlushesBatch hall.now group.now self.old self.new result }
    {
        let begun = match flush_in(rt, group, &mut self.pass) {
            Ok(begun) => begun,
            Err(error) => return Err(error),
        };
        match begun {
            Begun::Busy => Ok(Flushed::Busy),
            Begun::Nothing => Ok(Flushed::Nothing),
            Begun::Led(led) => {
                let outcome = carry(rt, alloc, hall, group, &mut self.pass, led);
                Ok(Flushed::Led(outcome))
            }
        }
    }
}

/// The turn of a flush.
fn flush_in<R: Wait, D: Disk>(
    rt: &R,
    group: &Group<D>,
    pass: &mut GroupPass<D>,
) -> Result<Begun<D>, AllocError>
    requires own { IsPassOf group.now.gate pass.old }
    requires free { IsFreeView (setting_of group.now) (view pass.old) }
    ensures own { IsPassOf group.now.gate pass.new }
    ensures flushed { HasFlushed (setting_of group.now) (view pass.old) (view pass.new) result }
{
    let mut turn = group.gate.enter(rt, pass);
    let (result, item) = turn.state.flush();
    turn.added = item;
    group.gate.leave(pass, turn);
    result
}

//! A leader and its follower, played: what is kept of both.
ghost use Rattle.std.specs.Prelude.{◌≡◌, ◌+◌, ◌==◌, slice_get, OnOk};
ghost use Rattle.btr_follow.specs.World.{World, lengths_of, entry_at, with_frame, delivered, restarted, next_world};
ghost use Rattle.btr_follow.specs.Play.{IsPlayOf};

use crate::event::{FollowEvent, Lengths};
use btr_core::Machine;
use std::alloc::{AllocError, Global};

/// A leader and its follower. The history of the follower is a prefix of the leader's, and each frame has the leader's entry of its
/// number: so a length is kept of the one, and the number of each of the others.
#[derive(Drop)]
pub(crate) struct Play {
    pub(crate) leader: Machine,

    /// The numbers of the entries of all frames that were ever shipped, in order.
    pub(crate) shipped: Vec<u64>,

    /// The number of entries of the follower.
    pub(crate) follower: u64,

    /// The number of entries that the follower has acknowledged.
    pub(crate) acked: u64,
}

impl Play {
    /// Plays one event. An `Err` means out of memory.
    pub(crate) fn next(&mut self, alloc: Global, event: &FollowEvent) -> Result<(), AllocError>
        ensures { (w : World) → IsPlayOf w self.old → OnOk result (IsPlayOf (next_world w event.now) self.new) }
    {
        match event {
            FollowEvent::Lead(event) => {
                self.leader.step(alloc, event)?;
            }
            FollowEvent::Ship(number) => self.ship(*number)?,
            FollowEvent::Deliver(frame) => self.deliver(*frame),
            FollowEvent::Torn { frame, kept } => {
                if *kept {
                    self.deliver(*frame);
                }
                self.restart();
            }
        }
        Ok(())
    }

    /// Ships the frame of the leader's entry with this number, if there is one. An `Err` means out of memory.
    fn ship(&mut self, number: u64) -> Result<(), AllocError>
        ensures { (w : World) → IsPlayOf w self.old
            → OnOk result (IsPlayOf (with_frame w number (entry_at w.leader.history number)) self.new) }
    {
        if number == 0 || number > self.leader.entries() {
            return Ok(());
        }
        self.shipped.push(number)?;
        Ok(())
    }

    /// Delivers the frame with this index, if there is one.
    fn deliver(&mut self, frame: u64)
        ensures { (w : World) → IsPlayOf w self.old → IsPlayOf (delivered w (slice_get w.shipped frame)) self.new }
    {
        let Some(number) = self.number(frame) else {
            return;
        };
        if is_next(number, self.follower) {
            self.follower = number;
            self.acked = number;
        }
    }

    /// Starts the follower again: it has acknowledged what it finds.
    fn restart(&mut self)
        ensures { (w : World) → IsPlayOf w self.old → IsPlayOf (restarted w) self.new }
    {
        self.acked = self.follower;
    }

    /// The number of the frame with this index, if there is one.
    fn number(&self, frame: u64) -> Option<u64>
        ensures { result ≡ slice_get self.now.shipped.items frame }
    {
        self.shipped.get(frame as usize).copied()
    }

    /// The lengths of the histories.
    pub(crate) fn lengths(&self) -> Lengths
        ensures { (w : World) → IsPlayOf w self.now → result ≡ lengths_of w }
    {
        Lengths {
            leader: self.leader.entries(),
            follower: self.follower,
            acked: self.acked,
        }
    }
}

/// Whether a number is the one after those of so many entries.
pub(crate) fn is_next(number: u64, entries: u64) -> bool
    ensures { result ≡ (number == entries + 1) }
{
    number > 0 && number - 1 == entries
}

//! All events of a leader and its follower, in their order.
ghost use Rattle.std.specs.Prelude.{◌≡◌, IfOk};
ghost use Rattle.btr_follow.specs.World.{first_world, lengths_from};
ghost use Rattle.btr_follow.specs.Followed.{AlwaysFollows, NeverForgets};

use crate::event::{FollowEvent, Lengths};
use crate::laws::{a_follower_always_follows, a_follower_never_forgets};
use crate::play::Play;
use btr_core::Machine;
use std::alloc::{AllocError, Global};

/// Plays the events of a leader and its follower from the empty history, and returns the lengths of their histories after each event.
/// The events may come in any order, and frames may be lost, repeated and delivered in any order.
///
/// It costs what [`Machine::step`] costs for each event of an actor, constant time for each other event, and memory of 24 bytes for each
/// event and 8 for each frame. An `Err` means out of memory.
pub fn world(alloc: Global, events: &[FollowEvent]) -> Result<Vec<Lengths>, AllocError>
    ensures lengths { IfOk result (λ v. v.items ≡ lengths_from first_world events.now) }
    // What the events lead to, whatever they are.
    ensures followed { AlwaysFollows }
    ensures acked { NeverForgets }
{
    a_follower_always_follows();
    a_follower_never_forgets();
    let mut play = Play {
        leader: Machine::empty(alloc)?,
        shipped: Vec::new(alloc),
        follower: 0,
        acked: 0,
    };
    let mut lengths = Vec::with_capacity(alloc, events.len())?;
    for event in events {
        play.next(alloc, event)?;
        lengths.push(play.lengths())?;
    }
    Ok(lengths)
}

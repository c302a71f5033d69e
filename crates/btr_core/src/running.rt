//! All events of all actors, in their order.
ghost use Rattle.std.specs.Prelude.{◌≡◌, map, IfOk};
ghost use Rattle.btr_hist.specs.Machine as model;
ghost use Rattle.btr_core.specs.Events.{events_of, reply_of, AreRight};

use crate::event::{Event, Reply};
use crate::machine::Machine;
use btr_hist::the_machine_stays_legal;
use std::alloc::{AllocError, Global};

/// Plays events from the empty history, and returns the replies in order. The events may be of any actors and in any order. After
/// each of them each version of each output is right: it is its kernel over all time, at the versions of its inputs that it has
/// read.
///
/// It costs what [`Machine::step`] costs for each event. An `Err` means out of memory.
pub fn run(alloc: Global, events: &[Event]) -> Result<Vec<Reply>, AllocError>
    ensures replies { IfOk result (λ v. map reply_of v.items ≡ model.replies model.start (events_of events.now)) }
    ensures right { AreRight (events_of events.now) }
{
    histories_are_right(events);
    let mut machine = Machine::empty(alloc)?;
    let mut replies = Vec::with_capacity(alloc, events.len())?;
    for event in events {
        let reply = machine.step(alloc, event)?;
        replies.push(reply)?;
    }
    Ok(replies)
}

/// After each of the events of the model each version of each output is right. This is a law: the body does nothing but call the
/// law of btr_hist from which it follows.
fn histories_are_right(events: &[Event])
    ensures { AreRight (events_of events.now) }
{
    the_machine_stays_legal();
}

//! What is known of a ticket.
ghost use Rattle.std.specs.Prelude.{◌≡◌, ℕ};
ghost use Rattle.btr_group.specs.Seats.{IsGroupSeat, seen_by};
ghost use Rattle.btr_group.specs.Offers.{LooksAtGroup};
ghost use Rattle.btr_group.specs.Known.{known_of};
ghost use Rattle.btr_hall.specs.GroupBook.{book};
ghost use Rattle.btr_group.specs.Notes.{outcome_noted, known_in, NotesTile};

use crate::group::{Group, Seat, SettledBatch};
use crate::state::GroupState;
use btr_disk::Disk;
use btr_hall::{Known, Outcome};
use std::sync::Wait;

impl<D: Disk> Seat<D> {
    /// Returns what is known of a ticket. It waits for a turn, takes time logarithmic in the settled batches in it, and no memory.
    pub fn outcome<R: Wait>(&mut self, rt: &R, group: &Group<D>, ticket: u64) -> Known
        requires seat { IsGroupSeat group.now self.old }
        ensures seat { IsGroupSeat group.now self.new }
        ensures looks { LooksAtGroup self.old self.new }
        ensures known { result ≡ known_of (book (seen_by self.new)) ticket }
    {
        let turn = group.gate.enter(rt, &mut self.pass);
        let known = turn.state.known(ticket);
        group.gate.leave(&mut self.pass, turn);
        known
    }
}

impl<D: Disk> GroupState<D> {
    /// Returns what is known of a ticket. It takes logarithmic time.
    fn known(&self, ticket: u64) -> Known
        ensures { (to : ℕ) → NotesTile 0 self.now.settled.items to → result ≡ known_in self.now.settled.items self.now.given ticket }
    {
        if ticket >= self.given {
            return Known::NoTicket;
        }
        match outcome_at(&self.settled, ticket) {
            Some(outcome) => Known::Settled(outcome),
            None => Known::Unsettled,
        }
    }
}

/// Returns the outcome of the batch that has the ticket, if one has it: the last one that does not begin after the ticket, or none.
fn outcome_at(notes: &[SettledBatch], ticket: u64) -> Option<Outcome>
    ensures { (to : ℕ) → NotesTile 0 notes.now to → result ≡ outcome_noted notes.now ticket }
{
    let end = notes.partition_point(|note| note.first <= ticket);
    if end == 0 {
        return None;
    }
    let note = &notes[end - 1];
    if ticket.saturating_sub(note.first) < note.tickets {
        Some(note.outcome)
    } else {
        None
    }
}

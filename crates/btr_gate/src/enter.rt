//! How a pass gets its turn.
ghost use Rattle.std.specs.Prelude.{◌≡◌, ℕ, Bool, true, List, [], ◌∷◌, Option, Some, None};
ghost use Rattle.std.specs.Option.{is_some};
ghost use Rattle.btr_gate.specs.declared.turn.Turn.{Turn as TurnSpec};
ghost use Rattle.btr_gate.specs.declared.view.Stage.TheVariants.{Idle, Waiting};
ghost use Rattle.btr_gate.specs.Views.{at_stage};
ghost use Rattle.btr_gate.specs.Turns.{Enters, Takes};
ghost use Rattle.btr_gate.specs.Gates.{IsPassOf, view};
ghost use Rattle.btr_gate.specs.Steps.{holding, Served};
ghost use Rattle.btr_gate.specs.Seats.{IsSeatOf, IsSameSeat};

use crate::chronicle::Chronicle;
use crate::gate::{Gate, Pass, Place, SERVING, STATE, TICKET};
use crate::plays::{Draw, Look};
use crate::turn::Turn;
use std::sync::Wait;
use std::thread;

/// How often a pass looks for its turn before it sleeps.
const LOOKS: u32 = 64;

impl<T: Chronicle<E, X>, E, X> Gate<T, E, X> {
    /// Waits for a turn, and takes the state. Turns come in the order of tickets. The state is of a list of entries that begins
    /// with all that the pass has seen. Hand the turn back by [`Gate::leave`].
    ///
    /// A pass that waits looks some times, and then sleeps until a turn ends. It takes no memory. Without a rival it takes two
    /// atomic loads and one exchange. It never returns after 2^64 - 1 tickets.
    pub fn enter<R: Wait>(&self, rt: &R, pass: &mut Pass<T, E, X>) -> Turn<T, E>
        requires own { IsPassOf self.now pass.old }
        requires idle { (view pass.old).stage ≡ Idle }
        ensures own { IsPassOf self.now pass.new }
        ensures enters { Enters (view pass.old) (view pass.new) }
        ensures takes { Takes ⟦<T as Chronicle<E, X>>⟧ (view pass.old) (view pass.new) result }
    {
        let ticket = self.draw(rt, &mut pass.seat);
        self.wait(rt, &mut pass.seat, ticket);
        self.take(&mut pass.seat)
    }

    /// Draws the next ticket. The greatest value of the word is never drawn.
    fn draw<R: Wait>(&self, rt: &R, seat: &mut Place<T, E, X>) -> u64
        requires own { IsSeatOf self.now seat.old }
        requires live { is_some seat.old.me.0.setting ≡ true }
        requires idle { seat.old.me.0.stage ≡ Idle }
        ensures own { IsSameSeat seat.old seat.new }
        ensures drawn { seat.new.me ≡ (at_stage seat.old.me.0 (Waiting result), seat.old.me.1) }
    {
        for _ in rt.forever() {
            let next = self.table.shared.peek(TICKET);
            if next == u64::MAX {
                thread::yield_now();
                continue;
            }
            let found = self
                .table
                .shared
                .compare_exchange::<Draw>(seat, TICKET, next, next + 1);
            if found == next {
                return next;
            }
        }
        unreachable!()
    }

    /// Waits until the ticket has the turn. Then the slot is out with the seat.
    fn wait<R: Wait>(&self, rt: &R, seat: &mut Place<T, E, X>, ticket: u64)
        requires own { IsSeatOf self.now seat.old }
        requires live { is_some seat.old.me.0.setting ≡ true }
        requires waits { seat.old.me.0.stage ≡ Waiting ticket }
        requires empty { seat.old.me.1 ≡ [] }
        ensures own { IsSameSeat seat.old seat.new }
        ensures served { Served ⟦<T as Chronicle<E, X>>⟧ seat.old.me seat.new.me }
    {
        let mut looks = 0;
        for _ in rt.forever() {
            let serving = self.table.shared.load::<Look>(seat, SERVING);
            if serving == ticket {
                return;
            }
            if looks < LOOKS {
                looks += 1;
                thread::yield_now();
            } else {
                self.table
                    .shared
                    .park(rt, SERVING, (serving % (1 << 32)) as u32);
            }
        }
    }

    /// Takes the state from the slot that is out with the seat.
    pub(crate) fn take(&self, seat: &mut Place<T, E, X>) -> Turn<T, E>
        requires own { IsSeatOf self.now seat.old }
        requires full { (turn : TurnSpec T E) × (seat.old.me.1 ≡ holding (Some turn)) }
        ensures own { IsSameSeat seat.old seat.new }
        ensures taken { seat.old.me.1 ≡ holding (Some result) }
        ensures left { seat.new.me ≡ (seat.old.me.0, holding None) }
    {
        match self.table.shared.exchange(seat, STATE, None) {
            Some(turn) => turn,
            None => unreachable!(),
        }
    }
}

//! How a pass ends its turn.
ghost use Rattle.std.specs.Prelude.{◌≡◌, ℕ, Bool, true, false, List, [], ◌∷◌, Option, Some, None};
ghost use Rattle.std.specs.Option.{is_some};
ghost use Rattle.btr_gate.specs.Views.{has_turn, turn_lent, list_after};
ghost use Rattle.btr_gate.specs.Turns.{IsStateOf, Leaves};
ghost use Rattle.btr_gate.specs.Gates.{IsPassOf, view};
ghost use Rattle.btr_gate.specs.declared.view.Stage.TheVariants.{Idle};
ghost use Rattle.btr_gate.specs.Steps.{holding, settled};
ghost use Rattle.btr_gate.specs.Seats.{IsSeatOf, IsSameSeat, HasSlot, MayLeave, IsCounted};

use crate::chronicle::Chronicle;
use crate::gate::{ENTRIES, Gate, Pass, Place, SERVING, STATE, TICKET};
use crate::plays::{Count, PassOn};
use crate::turn::Turn;

impl<T: Chronicle<E, X>, E: Drop, X> Gate<T, E, X> {
    /// Ends the turn: puts the state back, counts the entry that the turn added, if any, and gives the turn to the next ticket.
    /// The state must be of the turn's list with that entry. If another pass carries the lent part, the part must still be lent,
    /// and if that freezes the list, the turn must add nothing.
    ///
    /// It takes no memory, and at most two atomic additions. It wakes the passes that wait, if there are any.
    pub fn leave(&self, pass: &mut Pass<T, E, X>, turn: Turn<T, E>)
        requires own { IsPassOf self.now pass.old }
        requires turn { has_turn (view pass.old) ≡ true }
        requires of { IsStateOf ⟦<T as Chronicle<E, X>>⟧ turn.state (list_after (view pass.old) turn.added) (view pass.old).setting }
        requires lent { turn_lent (view pass.old) ≡ true → (view pass.old).carries ≡ false → T.lent turn.state ≡ true }
        requires still { T.frozen ≡ true → turn_lent (view pass.old) ≡ true → (view pass.old).carries ≡ false → turn.added ≡ None }
        ensures own { IsPassOf self.now pass.new }
        ensures leaves { Leaves (view pass.old) turn.added (T.lent turn.state) (view pass.new) }
    {
        let turn = self.count(&mut pass.seat, turn);
        self.pass_on(&mut pass.seat, turn);
        self.wake();
    }

    /// Counts the entry that the turn adds, if any, and lets it go.
    fn count(&self, seat: &mut Place<T, E, X>, turn: Turn<T, E>) -> Turn<T, E>
        requires own { IsSeatOf self.now seat.old }
        requires slot { HasSlot seat.old }
        requires may { MayLeave ⟦<T as Chronicle<E, X>>⟧ seat.old.me.0 turn }
        ensures own { IsSameSeat seat.old seat.new }
        ensures slot { HasSlot seat.new }
        ensures counted { IsCounted ⟦<T as Chronicle<E, X>>⟧ seat.old.me.0 turn seat.new.me.0 }
        ensures turn { (result.state ≡ turn.state) × (result.added ≡ None) }
    {
        if turn.added.is_none() {
            return turn;
        }
        self.put(seat, turn);
        self.table.shared.fetch_add::<Count>(seat, ENTRIES, 1);
        let Turn { state, added } = self.take(seat);
        drop(added);
        Turn { state, added: None }
    }

    /// Puts the state into the slot, and gives the turn to the next ticket.
    fn pass_on(&self, seat: &mut Place<T, E, X>, turn: Turn<T, E>)
        requires own { IsSeatOf self.now seat.old }
        requires slot { HasSlot seat.old }
        requires may { MayLeave ⟦<T as Chronicle<E, X>>⟧ seat.old.me.0 turn }
        requires counted { turn.added ≡ None }
        ensures own { IsSameSeat seat.old seat.new }
        ensures passed { seat.new.me ≡ (settled ⟦<T as Chronicle<E, X>>⟧ seat.old.me.0 turn Idle, []) }
    {
        self.put(seat, turn);
        self.table.shared.fetch_add::<PassOn>(seat, SERVING, 1);
    }

    /// Puts the state into the slot that is out with the seat.
    fn put(&self, seat: &mut Place<T, E, X>, turn: Turn<T, E>)
        requires own { IsSeatOf self.now seat.old }
        requires empty { seat.old.me.1 ≡ holding None }
        ensures own { IsSameSeat seat.old seat.new }
        ensures left { seat.new.me ≡ (seat.old.me.0, holding (Some turn)) }
    {
        let old = self.table.shared.exchange(seat, STATE, Some(turn));
        let None = old else { unreachable!() };
    }

    /// Wakes the passes that wait, if there are any.
    fn wake(&self) {
        let serving = self.table.shared.peek(SERVING);
        if self.table.shared.peek(TICKET) != serving {
            self.table.shared.wake_all(SERVING);
        }
    }
}

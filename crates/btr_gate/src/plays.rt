//! What each step at the table promises.
use crate::chronicle::Chronicle;
use crate::turn::Turn;
use crate::view::View;
use atomic_table::{Join, Play, Split};

/// Takes the empty slot of a new gate.
pub(crate) struct Empty;

impl<T, E, X> Play<Option<Turn<T, E>>, View<E, X>> for Empty {
    ghost use Rattle.btr_gate.specs.Steps.{Empties};

    ghost then = { Empties };
}

/// Opens a new gate.
pub(crate) struct Begin;

impl<T: Chronicle<E, X>, E, X> Play<Option<Turn<T, E>>, View<E, X>> for Begin {
    ghost use Rattle.btr_gate.specs.Steps.{Opens};

    ghost then = { Opens ⟦<T as Chronicle<E, X>>⟧ };
}

/// Draws a ticket.
pub(crate) struct Draw;

impl<T, E, X> Play<Option<Turn<T, E>>, View<E, X>> for Draw {
    ghost use Rattle.btr_gate.specs.Steps.{Draws};

    ghost then = { Draws };
}

/// Looks if the turn has come.
pub(crate) struct Look;

impl<T: Chronicle<E, X>, E, X> Play<Option<Turn<T, E>>, View<E, X>> for Look {
    ghost use Rattle.btr_gate.specs.Steps.{Polls};

    ghost then = { Polls ⟦<T as Chronicle<E, X>>⟧ };
}

/// Counts an entry.
pub(crate) struct Count;

impl<T: Chronicle<E, X>, E, X> Play<Option<Turn<T, E>>, View<E, X>> for Count {
    ghost use Rattle.btr_gate.specs.Steps.{Counts};

    ghost then = { Counts ⟦<T as Chronicle<E, X>>⟧ };
}

/// Passes the turn on.
pub(crate) struct PassOn;

impl<T: Chronicle<E, X>, E, X> Play<Option<Turn<T, E>>, View<E, X>> for PassOn {
    ghost use Rattle.btr_gate.specs.Steps.{Passes};

    ghost then = { Passes ⟦<T as Chronicle<E, X>>⟧ };
}

/// Looks at the history after a meeting.
pub(crate) struct Settle;

impl<T, E, X> Play<Option<Turn<T, E>>, View<E, X>> for Settle {
    ghost use Rattle.btr_gate.specs.Steps.{Settles};

    ghost then = { Settles };
}

/// Splits a view in two.
pub(crate) struct Halves;

impl<E, X> Split<View<E, X>> for Halves {
    ghost use Rattle.btr_gate.specs.Views.{kept_view, other_view};

    ghost left = { kept_view };

    ghost right = { other_view };
}

/// Makes one view of two.
pub(crate) struct Both;

impl<E, X> Join<View<E, X>> for Both {
    ghost use Rattle.btr_gate.specs.Views.{just_met, spent_view};

    ghost both = { just_met };

    ghost spent = { spent_view };
}

//! The gate, its passes, and the table under it.
ghost use Rattle.std.specs.Prelude.{◌≡◌, true};
ghost use Rattle.std.specs.Option.{is_some};
ghost use Rattle.btr_gate.specs.Steps.{out_with};

use crate::chronicle::Chronicle;
use crate::turn::Turn;
use crate::view::View;
use atomic_table::{Seat, Table, TableRule};
use std::alloc::Global;
use std::marker::PhantomData;

/// The word of the next ticket to draw.
pub(crate) const TICKET: usize = 0;

/// The word of the ticket that has the turn.
pub(crate) const SERVING: usize = 1;

/// The word of the number of entries.
pub(crate) const ENTRIES: usize = 2;

/// The slot of the state.
pub(crate) const STATE: usize = 0;

/// A seat at the table of a gate.
pub(crate) type Place<T, E, X> = Seat<Option<Turn<T, E>>, View<E, X>>;

/// The rule of the table, which each step keeps.
pub struct GateRule<T, E, X> {
    marker: PhantomData<(T, E, X)>,
}

impl<T: Chronicle<E, X>, E, X> TableRule<Option<Turn<T, E>>, View<E, X>, ()> for GateRule<T, E, X> {
    ghost use Rattle.btr_gate.specs.declared.view.Stage.TheVariants.{Unopened};
    ghost use Rattle.btr_gate.specs.Views.{blank};
    ghost use Rattle.btr_gate.specs.Rule.{Rule};

    ghost holds = { λ _. Rule ⟦<T as Chronicle<E, X>>⟧ };

    ghost first = { λ _. blank Unopened };
}

/// A gate: one shared state, which passes take in turns. Share it between threads by `&`.
///
/// It has no `Drop`: call [`Gate::close`] to take the state out.
pub struct Gate<T: Chronicle<E, X>, E, X> {
    pub(crate) table: Table<Option<Turn<T, E>>, View<E, X>, (), GateRule<T, E, X>, Global>,
    ghost words: { table.shared.table_id.words ≡ 3 },
    ghost slots: { table.shared.table_id.slots ≡ 1 },
}

/// A pass of a gate. It may go to another thread. It has no bytes.
///
/// A pass that is dropped keeps its words, so the gate can no more be closed.
#[derive(Drop)]
pub struct Pass<T, E, X> {
    pub(crate) seat: Place<T, E, X>,
    ghost live: { is_some seat.me.0.setting ≡ true },
    ghost out: { seat.me.1 ≡ out_with seat.me.0.stage },
}

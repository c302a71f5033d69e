//! The beginning and the close of a gate.
ghost use Rattle.std.specs.Prelude.{◌≡◌, ℕ, Bool, true, false, List, [], ◌∷◌, Some, IfOk, IfErr};
ghost use Rattle.btr_gate.specs.declared.view.Stage.TheVariants.{Unopened, Placing, Idle};
ghost use Rattle.btr_gate.specs.Shares.{covers};
ghost use Rattle.btr_gate.specs.Views.{blank, opened};
ghost use Rattle.btr_gate.specs.Turns.{IsStateOf, Closes};
ghost use Rattle.btr_gate.specs.Gates.{IsPassOf, view};

use crate::chronicle::Chronicle;
use crate::gate::{ENTRIES, Gate, Pass, STATE, TICKET};
use crate::plays::{Begin, Empty};
use crate::turn::Turn;
use atomic_table::Table;
use std::alloc::{AllocError, Global};

impl<T: Chronicle<E, X>, E, X> Gate<T, E, X> {
    /// Makes a gate with this state, and its first pass, which has the whole share. It takes memory for three words and the
    /// state. An `Err` is out of memory, and returns the state.
    pub fn begin(alloc: Global, state: T) -> Result<(Gate<T, E, X>, Pass<T, E, X>), (T, AllocError)>
        requires of { (l : List E) × (x : X) × T.is_state_of state l x }
        requires home { T.lent state ≡ false }
        ensures own { IfOk result (λ r. IsPassOf r.0 r.1) }
        ensures opened { IfOk result (λ r. (x : X) × T.is_state_of state (view r.1).seen x × (view r.1 ≡ opened (view r.1).seen x)) }
        ensures refused { IfErr result (λ r. r.0 ≡ state) }
    {
        let count = state.entries();
        let (table, mut seat) = match Table::vacant(alloc, &[0, 0, 0], 1, &()) {
            Ok(made) => made,
            Err(error) => return Err((state, error)),
        };
        table.shared.load::<Empty>(&mut seat, TICKET);
        let turn = Turn { state, added: None };
        let old = table.shared.exchange(&mut seat, STATE, Some(turn));
        let None = old else { unreachable!() };
        table.shared.store::<Begin>(&mut seat, ENTRIES, count);
        Ok((Gate { table }, Pass { seat }))
    }

    /// Takes the state out. The pass is the last one, since its share covers: it has seen all entries, and its numbers are all
    /// those that were given since the beginning. It takes constant time and no memory.
    pub fn close(self, pass: Pass<T, E, X>) -> T
        requires own { IsPassOf self pass }
        requires idle { (view pass).stage ≡ Idle }
        requires home { (view pass).carries ≡ false }
        requires covers { covers (view pass).share ≡ true }
        ensures { Closes ⟦<T as Chronicle<E, X>>⟧ (view pass) result }
    {
        let Gate { table } = self;
        let Pass { seat } = pass;
        let mut closed = table.close_with(seat);
        let slot = closed.take(STATE);
        closed.free();
        let Some(Turn { state, added }) = slot else {
            unreachable!()
        };
        let None = added else { unreachable!() };
        state
    }
}

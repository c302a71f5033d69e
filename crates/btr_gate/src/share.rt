//! Two passes of one, and one pass of two.
ghost use Rattle.std.specs.Prelude.{◌≡◌, ℕ, Bool, true, false, List, [], ◌∷◌};
ghost use Rattle.btr_gate.specs.declared.view.Stage.TheVariants.{Idle};
ghost use Rattle.btr_gate.specs.Views.{kept_view, other_view, joined};
ghost use Rattle.btr_gate.specs.Turns.{HaveOneHistory};
ghost use Rattle.btr_gate.specs.Gates.{IsPassOf, view};

use crate::chronicle::Chronicle;
use crate::gate::{Gate, Pass, TICKET};
use crate::plays::{Both, Halves, Settle};

impl<T: Chronicle<E, X>, E, X> Gate<T, E, X> {
    /// Makes a new pass, which has seen the same entries, has none of its own, and gets half of the share. It takes constant
    /// time and no memory.
    pub fn split(&self, pass: &mut Pass<T, E, X>) -> Pass<T, E, X>
        requires own { IsPassOf self.now pass.old }
        requires idle { (view pass.old).stage ≡ Idle }
        requires home { (view pass.old).carries ≡ false }
        ensures own { IsPassOf self.now pass.new × IsPassOf self.now result }
        ensures kept { view pass.new ≡ kept_view (view pass.old) }
        ensures given { view result ≡ other_view (view pass.old) }
    {
        let seat = self.table.shared.split_seat::<Halves>(&mut pass.seat);
        Pass { seat }
    }

    /// Takes in another pass, with its numbers and its share. What the two have seen are beginnings of one history, and the
    /// pass has seen the longer of them. It takes constant time and no memory.
    pub fn meet(&self, pass: &mut Pass<T, E, X>, other: Pass<T, E, X>)
        requires own { IsPassOf self.now pass.old × IsPassOf self.now other }
        requires idle { ((view pass.old).stage ≡ Idle) × ((view other).stage ≡ Idle) }
        requires home { ((view pass.old).carries ≡ false) × ((view other).carries ≡ false) }
        ensures own { IsPassOf self.now pass.new }
        ensures joined { view pass.new ≡ joined (view pass.old) (view other) }
        ensures one_history { HaveOneHistory (view pass.old) (view other) (view pass.new) }
    {
        let Pass { seat } = other;
        self.table.shared.join_seat::<Both>(&mut pass.seat, seat);
        self.table.shared.load::<Settle>(&mut pass.seat, TICKET);
    }
}

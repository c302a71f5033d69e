//! What the gate of a hall carries: the engine.
use crate::item::Item;
use btr_disk::Disk;
use btr_engine::Engine;
use btr_gate::Chronicle;
use std::snapshot::Snapshot as State;

/// An engine, and whether its device has failed in a step since the hall began.
#[derive(Drop)]
pub struct Store<D: Disk> {
    pub(crate) engine: Engine<D>,
    /// The engine with which the hall began, for contracts alone.
    pub(crate) opening: State<Engine<D>>,
    pub(crate) halted: bool,
}

impl<D: Disk> Chronicle<Item<D>, Engine<D>> for Store<D> {
    ghost use Rattle.std.specs.Prelude.{true, false, not};
    ghost use Rattle.btr_engine.specs.Engine.{is_home};
    ghost use Rattle.btr_hall.specs.Store.{IsStoreOf};
    ghost use Rattle.btr_hall.specs.StoreLaws.{store_bounded, is_frozen};

    ghost is_state_of = { IsStoreOf };

    // What is lent is the log of the engine.
    ghost lent = { λ s. not (is_home s.engine) };

    ghost frozen = { true };

    ghost lent_after = { λ _. false };

    fn entries(&self) -> u64 {
        if self.halted {
            self.engine.entries() + 1
        } else {
            self.engine.entries()
        }
    }

    ghost bounded = { store_bounded };

    ghost lent_is = { λ no t l x of. is_frozen no };
}

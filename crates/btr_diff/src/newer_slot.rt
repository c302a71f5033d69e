//! A slot of the newer tree.
ghost use Rattle.std.specs.Prelude.{◌≡◌, ◌<◌};

use btr_tree::NodeSource;

/// What a slot of an inner node of the newer tree says of itself, and the place of its child.
#[derive(Clone, Copy)]
pub(crate) struct NewerSlot<P> {
    /// The version that the slot carries.
    pub(crate) version: u64,

    /// How many points the slot has.
    pub(crate) count: u64,

    pub(crate) place: P,
}

/// Slot `i` of an inner node.
pub(crate) fn newer_slot<S: NodeSource>(slots: &S::Inner, i: u8) -> NewerSlot<S::Place>
    requires { i < 64 }
    ensures version { result.version ≡ (S.inner_slot slots.now i).version }
    ensures count { result.count ≡ (S.inner_slot slots.now i).agg.count }
    ensures place { S.site result.place ≡ S.inner_place slots.now i }
{
    let slot = S::slot(slots, i);
    NewerSlot {
        version: slot.version,
        count: slot.agg.count,
        place: S::place(slots, i),
    }
}

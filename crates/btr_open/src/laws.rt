//! Theorems on the definitions. Each is the contract of a function with an empty body.
ghost use Rattle.btr_open.specs.Laws.{OneHistoryIsHeld, HeldIsSound, EmptyStoreHoldsNothing, OutlineAndPointsDecide};

/// At most one history is held by a device, whatever its bytes are.
pub fn one_history_is_held()
    ensures { OneHistoryIsHeld }
{}

/// A device that holds a history has a store, and no block of it breaks the format. So an observable device that holds a
/// history is refused only if memory runs out or the device fails.
pub fn held_is_sound()
    ensures { HeldIsSound }
{}

/// An empty store, as `format` of btr_super makes it, holds the history without entries.
pub fn empty_store_holds_nothing()
    ensures { EmptyStoreHoldsNothing }
{}

/// The outline of a history and the points of the version that an entry makes decide whether the entry may follow the history.
pub fn outline_and_points_decide()
    ensures { OutlineAndPointsDecide }
{}

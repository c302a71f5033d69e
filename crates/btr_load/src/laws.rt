//! The laws of loads. Each is a function with an empty body, and its contract is the law.

ghost use Rattle.btr_load.specs.There.{RowsAreDistinct, BatchesAreThere};
ghost use Rattle.btr_load.specs.Alike.{LoadsAlike};
ghost use Rattle.btr_load.specs.Fits.{LoadsFit};
ghost use Rattle.btr_load.specs.InOrder.{LoadsInOrder};

/// Rows that were read have each id once.
pub fn rows_are_distinct()
    ensures { RowsAreDistinct }
{}

/// After a load to which nobody else added anything, the history has just the creates and the batches that were accepted. Each
/// accepted batch is at the number of its receipt, a refused one is not there, and the latest versions are those of the history.
pub fn batches_are_there()
    ensures { BatchesAreThere }
{}

/// Any number of workers leaves each stream as one worker does: with the commits of the plain load, which makes the creates in
/// order and then commits the batches stream by stream. Each outcome and result is what the plain load says. This is so if nobody
/// else added anything, the store was not stopped nor sealed, and there was enough memory and room.
pub fn loads_are_alike()
    ensures { LoadsAlike }
{}

/// If the most blocks that the rows need were left when the hall began, no id stands twice, and nobody else added anything, then no
/// create and no batch is refused since the device is full. The rows need what their creates need, and for each stream the most that
/// the commits of some of its batches need, one after another.
pub fn loads_fit()
    ensures { LoadsFit }
{}

/// One worker has one right outcome, also on a nearly full device: it makes the creates in order, and then commits the batches stream by
/// stream. Each entry is added if the model accepts it and the blocks that are left suffice. The history and all results are those. This
/// is so if nobody else added anything, the store was not stopped nor sealed, the device did not fail, and there was enough memory.
pub fn loads_in_order()
    ensures { LoadsInOrder }
{}

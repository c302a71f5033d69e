//! The laws of reports. Each is a function with an empty body, and its contract is the law.
ghost use Rattle.btr_work.specs.Laws.{RefreshedIsCurrent};
ghost use Rattle.btr_work.specs.Alike.{RefreshedIsAlike};
ghost use Rattle.btr_work.specs.InOrder.{RefreshedInOrder};

/// If nobody else added anything since the call began, each output whose result is not a refusal has read the latest versions of its
/// inputs in the end, and the version of its result is its latest one. No output is refused because another version came first.
pub fn refreshed_is_current()
    ensures { RefreshedIsCurrent }
{}

/// If nobody else added anything since the call began, the store was not sealed, and the memory and the device sufficed, each stream has
/// the commits in the end that one worker leaves, which lands the outputs one after another, level by level. The report is that of one
/// worker, too.
pub fn refreshed_is_alike()
    ensures { RefreshedIsAlike }
{}

/// One worker has one right outcome, also on a nearly full device: it plans and lands the outputs one after another, level by level, each
/// level in rising order. A landing is added if the model accepts it and the blocks that are left suffice. The history and the report are
/// those. This is so if nobody else added anything since the hall began, the history is legal, the store was not stopped nor sealed, the
/// device did not fail, and there was enough memory.
pub fn refreshed_in_order()
    ensures { RefreshedInOrder }
{}

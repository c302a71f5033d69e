//! The laws of all histories. Each is a function with an empty body, and its contract is the law.

ghost use Rattle.btr_hist.specs.Laws.{OldVersionsStay, HoldsWhatWasPutIn, KernelsAreLocal, OutputsAreLocal, ChangesAreWidened};
ghost use Rattle.btr_hist.specs.Laws.{WindowsAreWhole};
ghost use Rattle.btr_hist.specs.Laws.{DistillatesAreRight, LegalIsRight, DistillatesAreAllowed, PrefixesAreLegal};
ghost use Rattle.btr_hist.specs.Laws.{PointsLieInTheDomain, MachineStaysLegal, LatestIsNotRetired, MachineReadsPresent};

/// The answer to a question about versions that exist, given by their numbers, stays what it is, whatever is committed later, for as
/// long as they are not retired.
pub fn old_versions_stay()
    ensures { OldVersionsStay }
{}

/// A version holds exactly what was added and not cut since, and equal points each count.
pub fn versions_hold_what_was_put_in()
    ensures { HoldsWhatWasPutIn }
{}

/// The value of an output at a time depends on nothing but the points of its inputs in the window that its lead gives.
pub fn kernels_are_local()
    ensures { KernelsAreLocal }
{}

/// The points of an output at a time depend on nothing but the points of its inputs at the times that it looks at.
pub fn outputs_are_local()
    ensures { OutputsAreLocal }
{}

/// A range that an input differs in is widened to a range that contains each time that looks at a time of it. The spec is good.
pub fn changes_are_widened()
    ensures { ChangesAreWidened }
{}

/// The aligned windows that a range meets contain a time of the domain exactly if the range has a time of the same window.
pub fn windows_are_whole()
    ensures { WindowsAreWhole }
{}

/// The distillate brings the points of an output from those of the old inputs to those of the new ones, whatever changed in
/// them. The inputs are bags of the domain, and slots and windows are at most `2^62` ns wide.
pub fn distillates_are_right()
    ensures { DistillatesAreRight }
{}

/// Every legal history is right: each version of each output has the points of the output over all time, at the versions of its
/// inputs that it has read.
pub fn legal_histories_are_right()
    ensures { LegalIsRight }
{}

/// The distillate of the definition, with reads that may follow, is allowed after a legal history, unless its stream has as many
/// versions as a stream can have.
pub fn distillates_are_allowed()
    ensures { DistillatesAreAllowed }
{}

/// A prefix of a legal history is legal.
pub fn prefixes_are_legal()
    ensures { PrefixesAreLegal }
{}

/// Each point of each version of a legal history lies in the domain.
pub fn points_lie_in_the_domain()
    ensures { PointsLieInTheDomain }
{}

/// The history is legal, whatever users commit, plan and land, and in whatever order.
pub fn the_machine_stays_legal()
    ensures { MachineStaysLegal }
{}

/// The latest version of a stream of a legal history is not retired.
pub fn latest_versions_are_not_retired()
    ensures { LatestIsNotRetired }
{}

/// What the latest version of an output was computed from is not retired, whatever users commit, plan and land, and in whatever order.
/// Version 0 of an input counts as not retired.
pub fn outputs_read_no_retired_version()
    ensures { MachineReadsPresent }
{}

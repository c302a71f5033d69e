//! The plan of a distillate commit: what brings a computed stream up to date after its inputs have changed, in the manner of
//! DISTIL (Andersen et al., SmartGridComm 2015).
//!
//! [`plan`] compares the versions of the inputs that the output has read with those that it is to read (BTrDB's ComputeDiff),
//! widens each changed range by how far the kernel looks back, or to whole windows if the kernel is one of aligned windows, and
//! computes the output anew there and nowhere else. The rule is this store's own; that it gives the output over all time is proved
//! in btr_hist. [`plan_shared`] makes the same plan, and
//! computes the output in several threads. [`plan_anew`] makes the plan also if no version has changed.
#![tactic(auto)]

// what a plan is made from, and what it is
mod commit;
mod sight;
// how it is made
mod cells;
mod changed;
mod parts;
mod planning;
mod shared;
mod split_times;

pub use commit::Plan;
pub use planning::{plan, plan_anew, plan_shared};
pub use sight::{InputTrees, Sight};

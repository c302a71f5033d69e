//! The next commit of an output, planned from a snapshot of the history, in the manner of DISTIL (Andersen et al., SmartGridComm
//! 2015).
//!
//! [`next_plan`] makes the plan: what brings an output from the versions of its inputs that its latest version has read to their
//! latest ones. The plan may land later, on a longer history: it says which version of the output it follows, and is still the
//! distillate of the definition if no other version of the output has followed that one. [`next_plan_shared`] makes the same plan with
//! several threads. [`is_computed`] computes a distillate anew, and compares it with the one that is given.
#![tactic(auto)]

// what a plan is made from
mod sighting;
// the plan
mod planning;
// whether an entry is what the plan would be
mod computed;

pub use computed::is_computed;
pub use planning::{Next, next_plan, next_plan_shared};
pub use sighting::{sight, sight_to};

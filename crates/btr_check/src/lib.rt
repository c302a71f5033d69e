//! The check of a device: which verdict may be given, and that at most one is right.
//!
//! A device holds a legal history, or a first block of it is wrong, or it has no store. `specs/Verdict.antt` says when each of these is
//! so. [`one_verdict_holds`] says that at most one is, and for one number of entries or one block. [`check`] finds out which one is.
#![tactic(auto)]

// what a check returns
mod remains;
mod verdict;
// the judge of the entries
mod checker;
mod checkpoints;
mod staging;
// the check
mod checking;
// what holds of all devices
mod laws;

pub use checking::{Checked, check};
pub use laws::{legal_log_stands, one_verdict_holds};
pub use remains::CheckRemains;
pub use verdict::Verdict;

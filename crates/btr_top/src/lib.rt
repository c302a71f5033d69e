//! The commands of the program: words, an input and a device in; a text and a status out.
//!
//! [`run`] carries the promise: why each status comes, what is written, and what the device holds then, also after a
//! crash at any moment of the run.
#![tactic(auto)]

// the commands
mod ask;
mod check;
mod checkpoint;
mod cold;
mod distil;
mod format_store;
mod hear;
mod live;
mod load;
mod sample;
mod serve;
mod ship;
// what the commands share
mod command;
mod remains;
// how a run ends, and what it writes
mod ending;
// the whole
mod run_command;
// the limits
mod laws;

pub use btr_live::{lines_keep_legal, refreshes_are_current};
pub use command::MAX_INPUT;
pub use ending::Ending;
pub use laws::{run_limits_are_these, script_fits};
pub use remains::RunRemains;
pub use run_command::{Outcome, run, run_paced};

//! Loads: the rows of a CSV input are committed to a store, by many workers at one hall.
//!
//! [`load`] creates the streams that are not there, and commits the points of each stream in batches. What is said of it is the same
//! for any number of workers. `specs/Loads.antt` says what a load does, `specs/Work.antt` what the batches of one stream do. What
//! follows is in `laws.rt`: the history has just what was accepted, and each stream has the commits that one worker makes. One worker
//! itself has just one outcome, also if blocks do not suffice for all: `specs/InOrder.antt` says which.
#![tactic(auto)]

// what became of a stream
mod outcome;
// the commits of one stream
mod stream;
// the streams before any commit
mod plan;
// the creates
mod creating;
// all of a load
mod loaded;
mod loading;
// what follows from it
mod laws;

pub use laws::{batches_are_there, loads_are_alike, loads_fit, loads_in_order, rows_are_distinct};
pub use loaded::Loaded;
pub use loading::load;
pub use outcome::{BatchResults, RowsOutcome};
pub use stream::LoadedStream;

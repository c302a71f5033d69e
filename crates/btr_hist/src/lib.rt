//! The meaning of a store, over plain lists: the history of its commits, the points of each version of a stream, the entries
//! that are allowed, and the answer to each question.
//!
//! A history is a list of entries. The definitions in `specs/` say all that the store promises. [`History`] is the plain, slow
//! program that computes them by going over the list. Every fast crate above is proved to answer as it does.
//!
//! Streams, versions and the calls on them are those of BTrDB (Andersen and Culler, FAST 2016).
#![tactic(auto)]

// which entries are allowed
mod crowded;
mod entry;
mod kernel;
mod rejection;
// what is asked and answered
mod answer;
mod query;
// the plain program, and the laws of all histories
mod answering;
mod cells;
mod changed;
mod history;
mod laws;
mod rejecting;
mod retiring;
mod walks;

pub use answer::{Answer, CellList, PointList, Refusal, Rows, StreamList, StreamRow};
pub use crowded::first_crowded;
pub use entry::Entry;
pub use history::History;
pub use kernel::{Kernel, Reads, Spec};
pub use laws::{
    changes_are_widened, distillates_are_allowed, distillates_are_right, kernels_are_local,
    latest_versions_are_not_retired, legal_histories_are_right, old_versions_stay,
    outputs_are_local, outputs_read_no_retired_version, points_lie_in_the_domain,
    prefixes_are_legal, the_machine_stays_legal, versions_hold_what_was_put_in, windows_are_whole,
};
pub use query::{At, Query, StreamQuery, VersionAsked};
pub use rejecting::{
    MAX_DISTILLATE_RANGES, change_rejection, distillate_change_rejection, points_rejection,
};
pub use rejection::Rejection;
pub use retiring::least_read;

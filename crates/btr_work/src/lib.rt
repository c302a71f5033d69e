//! Outputs are brought up to date by many workers.
//!
//! [`levels`] sorts the outputs of a store by levels: each stands above its inputs. [`bring_current`] brings each output up to date
//! once, level by level; the outputs of a level are shared among workers. Its [`Report`] says what became of each. One worker has just
//! one outcome, also if blocks do not suffice for all: `specs/InOrder.antt` says which. [`refresh_output`] brings one output up to date.
#![tactic(auto)]

// which outputs come first
mod leveling;
// what became of each output
mod report;
// the work of one output
mod refreshing;
// the work of all outputs: what is made ready, how it is done, and how the report is filled in
mod current;
mod filling;
mod here;
mod prepare;
// laws of reports
mod laws;

pub use current::bring_current;
pub use here::bring_current_here;
pub use laws::{refreshed_in_order, refreshed_is_alike, refreshed_is_current};
pub use leveling::levels;
pub use refreshing::refresh_output;
pub use report::{RefreshLine, Refreshed, Report};

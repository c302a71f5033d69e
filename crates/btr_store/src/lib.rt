//! Work on a whole store: it is opened, one piece of work is done at its hall, with many threads, and it is closed.
//!
//! [`live_store`] runs a script, [`load_store`] commits rows, [`distil_store`] brings each output up to date, and [`sample_store`] fills an
//! empty store. What is said of the device afterwards, also after a crash at any moment, is the
//! same for all work ([`Works`]), also for work of another crate between [`open_hall`] and [`close_hall`].
//!
//! [`write_line`] writes a [`ReportLine`] as `specs/Report.antt` says. A new line is one more variant, one more row of `report_words`
//! there, and one more branch in `report_text.rt`.
//!
//! [`Works`]: ../specs/Work.antt
#![tactic(auto)]

// a store is opened, used and closed
mod work;
// the work of each command
mod distil;
mod load;
mod load_lines;
// the work of `live`, and its lines
mod live;
mod live_lines;
mod shared_live;
// the work of `sample`, its outputs and its lines
mod define;
mod sample;
mod sample_lines;
// the streams of a snapshot
mod streams;
// the lines that are written, and the status that they ask for
mod replies;
mod report_line;
mod report_text;
mod status;
mod transcript;
// the limits of a sample
mod laws;

pub use distil::distil_store;
pub use laws::sample_limits_are_these;
pub use live::live_store;
pub use load::load_store;
pub use replies::{add_reply, no_replies, status_of_reply};
pub use report_line::{ReportLine, RowRefusal};
pub use report_text::write_line;
pub use sample::sample_store;
pub use shared_live::share_store;
pub use status::Status;
pub use streams::{all_streams, id_of};
pub use transcript::Transcript;
pub use work::{Worked, close_hall, open_hall};

//! Scripts of lines that run in lanes beside each other, at one hall.
//!
//! [`lanes`] runs a script. Its contract says what all replies mean together, for every schedule of the threads: there is one history,
//! and each reply is the model's at a history that it begins with ([`OneHistory`]).
//!
//! [`OneHistory`]: ../specs/OneHistory.antt
#![tactic(auto)]

// where the points of feeds wait
mod feeding;
mod feeds;
mod own_feeds;
mod shared_feeds;
// one line
mod distill_line;
mod feed_line;
mod line;
mod next_line;
mod question;
mod reasons;
mod shared_line;
// what runs beside each other
mod lane;
mod lane_lines;
mod part;
mod rounds;
// a whole script
mod laws;
mod live;
mod order;
mod prepare;

pub use feeds::Feeds;
pub use laws::{
    last_is_current, lines_keep_legal, one_lane_is_the_model, one_session_is_the_model,
    refreshes_are_current, runs_are_one_history,
};
pub use live::{Beside, LiveReport, lanes, last_round, shared_lanes};
pub use next_line::answer_next;
pub use prepare::LANES;
pub use question::answer_question;
pub use reasons::{reason_of_landing, reason_of_step};

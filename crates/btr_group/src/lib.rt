//! Shared buffers with group commit: many threads put points into one buffer of a stream, and one commit serves them all.
//!
//! A [`Group`] has a session of a hall and one open batch. Each thread has a [`Seat`]. An offer ([`Seat::offer`]) puts points into
//! the open batch and gets a ticket. If the batch is then large enough and the session is at home, the offer leads: it takes the
//! batch and the session out, commits the batch, and settles it in a second turn. Others have their turns meanwhile, and fill the
//! next batch. A flush ([`Seat::flush`]) leads a batch that is smaller. [`Seat::outcome`] returns what became of a ticket.
//!
//! A group holds no turn of its gate while it commits, and a commit holds no turn of the group's gate.
//!
//! [`begin_groups`] makes the groups of all streams of a hall, and [`LaneGroups`] uses them by one seat in each.
//! Group commit: DeWitt et al., 1984.
#![tactic(auto)]

// what the gate carries
mod led;
mod state;
// the group and its seats
mod group;
// the calls of a seat
mod carry;
mod flush;
mod offer;
mod outcome;
mod share;
// the groups of all streams of a hall
mod lane_groups;
mod sets;
// lanes that share them
mod lane_seats;
// the close of all
mod closing;

pub use btr_hall::{Flushed, GroupItem, Known, OfferFault, Offered, Outcome};
pub use closing::close_groups;
pub use group::{Closed, Group, GroupSetting, Seat, SettledBatch};
pub use lane_groups::LaneGroups;
pub use lane_seats::{begin_lanes, end_lanes};
pub use sets::{begin_groups, meet_seats, split_seats};
pub use state::GroupState;

//! A hall: many threads use one engine, each by a session of its own.
//!
//! The list of a hall has each entry of the history, in order. A session adds an entry in two turns, and has then seen the whole
//! list ([`Session::commit`]). In between the log is out of the engine while the entry is written. Others have their turns then, but
//! none adds an entry: those who want to wait at a lock. A snapshot is taken in a turn and answers after it ([`Session::admit`]).
//! What an engine promises of a step, also after a crash, holds of each turn, and of the engine that [`Hall::close`] returns.
//! Nothing is said of how long a call waits, nor in which order sessions get their turns.
#![tactic(auto)]

// what is in the list, and what the gate carries
mod item;
mod store;
// the hall and its sessions
mod session;
// the calls of a session
mod commit;
mod land;
mod look;
mod share;
// how an entry is added
mod lock;
mod travel;
// shared buffers, by stream
mod group_answers;
mod group_item;
mod groups;

pub use group_answers::{Flushed, Known, OfferFault, Offered, Outcome};
pub use group_item::GroupItem;
pub use groups::Groups;
pub use item::Item;
pub use land::LandFault;
pub use look::FoundStream;
pub use session::{Hall, Session};
pub use store::Store;

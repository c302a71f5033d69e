//! A ticket gate: one shared state that passes take in turns, in the order of their tickets.
//!
//! A [`Gate`] has three words, the next ticket, the ticket that has the turn and the number of entries, and one slot with the
//! state. A [`Pass`] draws a ticket, waits until it has the turn, and takes the state out of the slot ([`Gate::enter`]). It may
//! change the state and add one entry to the state's list. Then it puts the state back and gives the turn to the next ticket
//! ([`Gate::leave`]).
//!
//! A pass knows which entries it has seen and which numbers of entries are its own. The list of a turn begins with all that the
//! pass has seen. Each number is one pass's own. Passes are split ([`Gate::split`]) and meet again ([`Gate::meet`]), and the
//! last one closes the gate and takes the state out ([`Gate::close`]). Each pass has a share, a list of binary words, and it is
//! the last one if its share covers.
//!
//! That a turn comes is not promised, nor when. A ticket lock: Reed and Kanodia, 1979; Mellor-Crummey and
//! Scott, 1991.
#![tactic(auto)]

mod begin;
mod chronicle;
mod enter;
mod gate;
mod leave;
mod plays;
mod share;
mod turn;
mod view;

pub use chronicle::Chronicle;
pub use gate::{Gate, GateRule, Pass};
pub use turn::Turn;
pub use view::{Stage, View};

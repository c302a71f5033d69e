//! The lines of a source of bytes, one at a time.
//!
//! [`Lines::next_line`] reads until it has the next line, and asks the source for more only if no whole line is held. So a line
//! is returned as soon as the source has given it. Taken one after another, the lines are the pieces of the whole input between its
//! line feeds, however the source cuts it.
//!
//! [`Moments`] is evidence of what two values were together at some moments: a contract on the end of a call says nothing of its middle.
#![tactic(auto)]

mod lines;
mod moments;
mod take;

pub use lines::Lines;
pub use moments::Moments;

//! A talk: the lines of a source are answered one at a time, and each reply is passed on before anything else is done.
//!
//! [`talk`] is the loop, for whatever answers a line ([`Desk`]). It knows no store. Its contract speaks of moments, and not of its end
//! alone: when a line was done, nothing of its reply was written; when its reply had been passed on, nothing else had been done; and
//! whenever the source was asked for more, each line that it had given was answered.
#![tactic(auto)]

mod desk;
mod reply;
mod turns;

pub use desk::Desk;
pub use turns::{TalkEnd, Talked, talk};

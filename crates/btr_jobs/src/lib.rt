//! Jobs for many workers at one hall: each worker has a session of its own while it works.
//!
//! A [`Job`] is a piece of work in one session. [`run_jobs`] shares jobs among workers; one worker does them one after another.
//! For any number of workers each job did its part after all that had been seen before ([`AllDid`]). With one worker each job followed
//! all that the one before it had seen ([`DidInTurn`]). Nothing is said of which workers run beside each other; a [`Pace`] learns it.
//!
//! `specs/PlainStore.antt` has a plain store on a device, to which entries are offered one after another. One worker leaves what it has.
//!
//! [`AllDid`]: ../specs/Jobs.antt
//! [`DidInTurn`]: ../specs/Jobs.antt
#![tactic(auto)]

mod job;
mod pace;
mod run;
mod system;
mod worker;

pub use job::Job;
pub use pace::{NoPace, Pace};
pub use run::run_jobs;
pub use system::System;

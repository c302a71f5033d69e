//! A piece of work in one session.
ghost use Rattle.std.specs.Prelude.{◌≡◌, ℕ, List};
ghost use Rattle.std.specs.Thread.{IsSync};
ghost use Rattle.btr_hist.specs.declared.entry.Entry.{Entry as EntrySpec};
ghost use Rattle.btr_gate.specs.Prefixes.{StartsWith};
ghost use Rattle.btr_jobs.specs.States.{StoreState, LogState, GoesOn};
ghost use Rattle.btr_jobs.specs.Jobs.{IsAt, Does};

use crate::system::System;
use btr_disk::Disk;
use btr_hall::{Hall, Session};
use std::marker::{Send, Sync};
use std::sync::Wait;
use std::thread::Threads;

/// A piece of work at a hall, done in one session. Its state says what became of it.
pub trait Job {
    // After this state of the log of a hall that began so, a job that had seen this history went from the first state to the second. These
    // are the numbers of what it added.
    ghost did: { StoreState → LogState → List EntrySpec → Self → Self → List ℕ → Type 0 };

    // How the state after the work goes with the one before it, at each hall, also at one that was not opened on a history.
    ghost keeps: { Self → Self → Type 0 };

    /// Does the work, in turns of this session, on this thread. It may share what it has of its own with other threads.
    fn run<R: Threads + Wait + Sync, D: Disk + Send>(
        &mut self,
        system: System<'_, R>,
        hall: &Hall<D>,
        session: &mut Session<D>,
    )
        requires crossing { IsSync R.row }
        requires at { IsAt hall.now session.old }
        ensures at { IsAt hall.now session.new }
        ensures keeps { keeps self.old self.new }
        ensures does { Does hall.now session.old session.new (λ start log low own. did start log low self.old self.new own) };

    // It is true for ever.
    ghost lasts: { (start : StoreState) (late early : LogState) (low : List EntrySpec) (was now : Self) (own : List ℕ)
        → GoesOn start late early → did start early low was now own → did start late low was now own };

    // It is true of a job that had seen less.
    ghost lowers: { (start : StoreState) (log : LogState) (low less : List EntrySpec) (was now : Self) (own : List ℕ)
        → StartsWith low less → did start log low was now own → did start log less was now own };
}

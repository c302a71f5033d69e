//! A lane: lines that run one after another, in one session.
ghost use Rattle.btr_live.specs.Running.{LaneDid};

use crate::feeding::Feeding;
use crate::lane_lines::LaneLines;
use btr_disk::Disk;
use btr_hall::{Hall, Session};
use btr_jobs::{Job, System};
use std::marker::{Send, Sync};
use std::sync::Wait;
use std::sync::atomic::Ordering;
use std::thread::Threads;

/// A lane: its lines, and where the points wait that they feed.
#[derive(Drop)]
pub(crate) struct Lane<F> {
    pub(crate) feeding: F,
    pub(crate) work: LaneLines,
}

impl<F: Feeding> Job for Lane<F> {
    ghost use Rattle.btr_live.specs.Running.{LaneDid};

    ghost did = { LaneDid F.ran };

    ghost keeps = { λ was now. F.keeps was.feeding now.feeding };

    /// Runs the lines. Then the lane has ended.
    fn run<R: Threads + Wait + Sync, D: Disk + Send>(
        &mut self,
        system: System<'_, R>,
        hall: &Hall<D>,
        session: &mut Session<D>,
    ) {
        self.work.drop_replies();
        self.feeding
            .run_lines(system, hall, session, &mut self.work);
        self.work.running.fetch_sub(1, Ordering::SeqCst);
    }

    ghost lasts = { λ start late early low was now own.
        F.lasts start late early low was.feeding now.feeding was.work.lines now.work.replies own };

    ghost lowers = { λ start log low less was now own.
        F.lowers start log low less was.feeding now.feeding was.work.lines now.work.replies own };
}

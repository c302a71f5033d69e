//! Lines of a lane that has feeds of its own.
ghost use Rattle.std.specs.Prelude.{◌≡◌, ◌≤◌, []};
ghost use Rattle.std.specs.Vec.{vec_len};
ghost use Rattle.std.specs.VecDeque.{deque_capacity};
ghost use Rattle.btr_base.specs.declared.limits.TheConstants.{MAX_COMMIT_POINTS};
ghost use Rattle.btr_jobs.specs.Jobs.{IsAt, Does};
ghost use Rattle.btr_live.specs.Lanes.{RunsLane};

use crate::feeding::Feeding;
use crate::feeds::Feeds;
use crate::lane_lines::LaneLines;
use crate::next_line::answer_next;
use btr_disk::Disk;
use btr_hall::{Hall, Session};
use btr_jobs::System;
use btr_text::{Line, LineReply};
use std::collections::VecDeque;
use std::marker::{Send, Sync};
use std::mem;
use std::sync::Wait;
use std::thread::Threads;

/// Feeds of a lane alone, without points. They are due with `batch` points.
#[derive(Clone, Copy)]
pub(crate) struct OwnFeeds {
    pub(crate) batch: u32,
    ghost least: { 1 ≤ batch },
    ghost most: { batch ≤ MAX_COMMIT_POINTS },
}

impl Feeding for OwnFeeds {
    ghost use Rattle.btr_live.specs.Running.{RanInOwn};
    ghost use Rattle.btr_live.specs.RunningLaws.{own_each, own_lasts, own_lowers};

    ghost ran = { RanInOwn };

    ghost keeps = { λ was now. Unit {0} };

    fn run_lines<R: Threads + Wait + Sync, D: Disk + Send>(
        &mut self,
        system: System<'_, R>,
        hall: &Hall<D>,
        session: &mut Session<D>,
        work: &mut LaneLines,
    ) {
        run_own_lines(
            system,
            hall,
            session,
            self.batch,
            mem::replace(&mut work.lines, Vec::new(system.alloc)),
            &mut work.replies,
        );
    }

    ghost each = { own_each };

    ghost lasts = { own_lasts };

    ghost lowers = { own_lowers };
}

/// Runs lines in order, with feeds that begin empty, and adds their replies, for which there is room.
fn run_own_lines<R: Threads + Wait + Sync, D: Disk>(
    system: System<'_, R>,
    hall: &Hall<D>,
    session: &mut Session<D>,
    batch: u32,
    lines: Vec<Option<Line>>,
    replies: &mut VecDeque<LineReply>,
)
    requires at { IsAt hall.now session.old }
    requires least { 1 ≤ batch }
    requires most { batch ≤ MAX_COMMIT_POINTS }
    requires empty { replies.old.items ≡ [] }
    requires room { vec_len lines ≤ deque_capacity replies.old }
    ensures at { IsAt hall.now session.new }
    ensures runs { Does hall.now session.old session.new
        (λ start log low own. RunsLane batch start log low lines.items replies.new.items own) }
{
    let mut feeds = Feeds::new(system.alloc, batch);
    for line in lines {
        let reply = answer_next(system, hall, session, &mut feeds, line);
        replies.push_back_reserved(reply);
    }
}

//! Lines of a lane whose points wait in buffers that lanes share.
ghost use Rattle.std.specs.Prelude.{◌≡◌, ◌≤◌, []};
ghost use Rattle.std.specs.Vec.{vec_len};
ghost use Rattle.std.specs.VecDeque.{deque_capacity};
ghost use Rattle.btr_jobs.specs.Jobs.{IsAt, Does};
ghost use Rattle.btr_live.specs.Lanes.{lines_ran};
ghost use Rattle.btr_live.specs.SharedLanes.{RanInShared, shared_feeds};

use crate::feeding::Feeding;
use crate::lane_lines::LaneLines;
use crate::shared_line::answer_shared_line;
use btr_disk::Disk;
use btr_hall::{Groups, Hall, Session};
use btr_jobs::System;
use btr_text::{Line, LineReply};
use std::collections::VecDeque;
use std::marker::{Send, Sync};
use std::mem;
use std::sync::Wait;
use std::thread::Threads;

/// Buffers that lanes share, as one lane uses them.
#[derive(Drop)]
pub(crate) struct SharedFeeds<G> {
    pub(crate) groups: G,
}

impl<G: Groups> Feeding for SharedFeeds<G> {
    ghost use Rattle.btr_live.specs.SharedLanes.{RanInShared};
    ghost use Rattle.btr_live.specs.RunningLaws.{shared_each, shared_lasts, shared_lowers};

    ghost ran = { RanInShared ⟦<G as Groups>⟧ };

    ghost keeps = { λ was now. G.later was.groups now.groups };

    fn run_lines<R: Threads + Wait + Sync, D: Disk + Send>(
        &mut self,
        system: System<'_, R>,
        hall: &Hall<D>,
        session: &mut Session<D>,
        work: &mut LaneLines,
    ) {
        run_shared_lines(
            system,
            hall,
            session,
            &mut self.groups,
            mem::replace(&mut work.lines, Vec::new(system.alloc)),
            &mut work.replies,
        );
    }

    ghost each = { shared_each ⟦<G as Groups>⟧ };

    ghost lasts = { shared_lasts ⟦<G as Groups>⟧ };

    ghost lowers = { shared_lowers ⟦<G as Groups>⟧ };
}

/// Runs lines in order, with shared buffers, and adds their replies, for which there is room.
fn run_shared_lines<R: Threads + Wait + Sync, D: Disk, G: Groups>(
    system: System<'_, R>,
    hall: &Hall<D>,
    session: &mut Session<D>,
    groups: &mut G,
    lines: Vec<Option<Line>>,
    replies: &mut VecDeque<LineReply>,
)
    requires at { IsAt hall.now session.old }
    requires empty { replies.old.items ≡ [] }
    requires room { vec_len lines ≤ deque_capacity replies.old }
    ensures at { IsAt hall.now session.new }
    ensures later { G.later groups.old groups.new }
    ensures runs { Does hall.now session.old session.new
        (lines_ran (RanInShared ⟦<G as Groups>⟧) (shared_feeds groups.old) (shared_feeds groups.new) lines.items replies.new.items) }
{
    for line in lines {
        let reply = answer_shared_line(system, hall, session, groups, line);
        replies.push_back_reserved(reply);
    }
}

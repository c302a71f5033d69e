//! The desk at a store: it does what a line asks for, in turns of its session.
ghost use Rattle.std.specs.Prelude.{◌≡◌, [], OnOk, OnErr};
ghost use Rattle.btr_jobs.specs.Jobs.{IsAt};
ghost use Rattle.btr_serve.specs.Desk.{DoesSaid, GoesOn, LosesSaid};

use btr_disk::Disk;
use btr_hall::{Hall, Session};
use btr_jobs::System;
use btr_live::{Feeds, answer_next};
use btr_store::{Status, status_of_reply};
use btr_talk::Desk;
use btr_text::{Line, read_question, write_reply};
use std::alloc::{AllocError, Global};
use std::marker::Sync;
use std::sync::Wait;
use std::thread::Threads;

/// Who answers lines at a store that is open: a hall, its only session, the points that wait for a commit, and the greatest status of
/// the replies so far.
pub struct StoreDesk<D: Disk> {
    pub(crate) alloc: Global,
    pub(crate) hall: Hall<D>,
    pub(crate) session: Session<D>,
    pub(crate) feeds: Feeds,
    pub(crate) status: Status,
}

impl<D: Disk> Desk for StoreDesk<D> {
    ghost use Rattle.btr_jobs.specs.Jobs.{IsAt};
    ghost use Rattle.btr_serve.specs.Desk.{Did, GoesOn};
    ghost use Rattle.btr_serve.specs.DeskLaws.{goes_none, goes_then};

    ghost is_ready = { λ d. IsAt d.hall d.session };

    ghost did = { Did };

    ghost goes_on = { GoesOn };

    fn answer<R: Threads + Wait + Sync>(
        &mut self,
        rt: &R,
        line: &[u8],
        text: &mut Vec<u8>,
    ) -> Result<(), AllocError> {
        match read_question(self.alloc, line)? {
            None => Ok(()),
            Some(said) => self.answer_line(rt, said.line, text),
        }
    }

    ghost stays = { goes_none };

    ghost later = { goes_then };
}

impl<D: Disk> StoreDesk<D> {
    /// Does what a line asks for, and appends its reply. An `Err` is that there is no memory for the text of the reply.
    fn answer_line<R: Threads + Wait + Sync>(
        &mut self,
        rt: &R,
        line: Option<Line>,
        text: &mut Vec<u8>,
    ) -> Result<(), AllocError>
        requires at { IsAt self.old.hall self.old.session }
        requires empty { text.old.items ≡ [] }
        ensures at { IsAt self.new.hall self.new.session }
        ensures goes { GoesOn self.old self.new }
        ensures done { OnOk result (DoesSaid line text.new.items self.old self.new) }
        ensures lost { OnErr result (LosesSaid line self.old self.new) }
    {
        let system = System {
            rt,
            alloc: self.alloc,
        };
        let reply = answer_next(system, &self.hall, &mut self.session, &mut self.feeds, line);
        self.status = self.status.greater(status_of_reply(&reply));
        write_reply(&reply, text)
    }
}

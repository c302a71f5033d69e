//! Where the points of feeds wait, and how the lines of a lane then run.
ghost use Rattle.std.specs.Prelude.{◌≡◌, ℕ, List, Option, [], length};
ghost use Rattle.std.specs.Thread.{IsSync};
ghost use Rattle.btr_hist.specs.declared.entry.Entry.{Entry as EntrySpec};
ghost use Rattle.btr_text.specs.declared.script.Line.{Line as LineSpec};
ghost use Rattle.btr_text.specs.declared.reply.LineReply.{LineReply as ReplySpec};
ghost use Rattle.btr_gate.specs.Prefixes.{StartsWith};
ghost use Rattle.btr_jobs.specs.States.{StoreState, LogState, GoesOn};
ghost use Rattle.btr_jobs.specs.Jobs.{IsAt, Does};

use crate::lane_lines::LaneLines;
use btr_disk::Disk;
use btr_hall::{Hall, Session};
use btr_jobs::System;
use std::marker::{Send, Sync};
use std::sync::Wait;
use std::thread::Threads;

/// Where the points wait that the lines of a lane feed: in feeds of the lane, or in buffers that lanes share.
pub(crate) trait Feeding {
    // After this state of the log of a hall that began so, lines of a lane that had seen this history had these replies, and took what
    // feeds the lane from the first state to the second. These are the numbers of what they added.
    ghost ran: { StoreState → LogState → List EntrySpec → Self → Self → List (Option LineSpec) → List ReplySpec → List ℕ → Type 0 };

    // How what feeds the lane after its lines goes with what fed it before, at each hall, also at one that was not opened on a history.
    ghost keeps: { Self → Self → Type 0 };

    /// Runs the lines in order, in turns of this session, and adds their replies to none.
    fn run_lines<R: Threads + Wait + Sync, D: Disk + Send>(
        &mut self,
        system: System<'_, R>,
        hall: &Hall<D>,
        session: &mut Session<D>,
        work: &mut LaneLines,
    )
        requires crossing { IsSync R.row }
        requires at { IsAt hall.now session.old }
        requires empty { work.old.replies ≡ [] }
        ensures at { IsAt hall.now session.new }
        ensures keeps { keeps self.old self.new }
        ensures ran { Does hall.now session.old session.new
            (λ start log low own. ran start log low self.old self.new work.old.lines work.new.replies own) };

    // There is a reply to each line.
    ghost each: { (start : StoreState) (log : LogState) (low : List EntrySpec) (was now : Self) (lines : List (Option LineSpec))
        (replies : List ReplySpec) (own : List ℕ)
        → ran start log low was now lines replies own → length replies ≡ length lines };

    // It is true for ever.
    ghost lasts: { (start : StoreState) (late early : LogState) (low : List EntrySpec) (was now : Self) (lines : List (Option LineSpec))
        (replies : List ReplySpec) (own : List ℕ)
        → GoesOn start late early → ran start early low was now lines replies own → ran start late low was now lines replies own };

    // It is true of a lane that had seen less.
    ghost lowers: { (start : StoreState) (log : LogState) (low less : List EntrySpec) (was now : Self) (lines : List (Option LineSpec))
        (replies : List ReplySpec) (own : List ℕ)
        → StartsWith low less → ran start log low was now lines replies own → ran start log less was now lines replies own };
}

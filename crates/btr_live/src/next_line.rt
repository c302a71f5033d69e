//! The next line of a session: with its reply it is one more of those that ran.
ghost use Rattle.std.specs.Prelude.{◌≡◌, ℕ, List};
ghost use Rattle.btr_jobs.specs.Jobs.{IsAt, Goes};
ghost use Rattle.btr_live.specs.Running.{RunsNext};

use crate::feeds::Feeds;
use crate::line::answer_line;
use btr_disk::Disk;
use btr_hall::{Hall, Session};
use btr_jobs::System;
use btr_text::{Line, LineReply};
use std::marker::Sync;
use std::sync::Wait;
use std::thread::Threads;

/// Does what the next line of a session asks for, in turns of the session, and returns the reply. `feeds` are those of the session,
/// which begin without points. A line that fits no form is `None`.
///
/// Whatever lines had run before it, this one ran after them. It costs what the line asks for.
pub fn answer_next<R: Threads + Wait + Sync, D: Disk>(
    system: System<'_, R>,
    hall: &Hall<D>,
    session: &mut Session<D>,
    feeds: &mut Feeds,
    line: Option<Line>,
) -> LineReply
    requires at { IsAt hall.now session.old }
    ensures at { IsAt hall.now session.new }
    ensures batch { feeds.new.batch ≡ feeds.old.batch }
    ensures goes { (own : List ℕ) × Goes session.old session.new own }
    ensures next { RunsNext hall.now session.old session.new feeds.old feeds.new line result }
{
    answer_line(system, hall, session, feeds, line)
}

//! The parts of a run, each of which is done in a session of its own: lanes, and the rounds beside them.
ghost use Rattle.std.specs.Prelude.{◌≡◌, ◌≤◌, ◌↔◌, IsTrue, ◌∷◌, length};
ghost use Rattle.btr_live.specs.Parts.{feeding_of, replies_of};

use crate::feeding::Feeding;
use crate::lane::Lane;
use crate::rounds::Rounds;
use btr_disk::Disk;
use btr_hall::{Hall, Session};
use btr_jobs::{Job, System};
use btr_text::{LineReply, Reason};
use std::marker::{Send, Sync};
use std::sync::Wait;
use std::thread::Threads;

/// A part of a run.
#[derive(Drop)]
pub(crate) enum ScriptPart<F> {
    /// The lines of one lane.
    Lane(Lane<F>),

    /// The rounds of the materializer.
    Rounds(Rounds),
}

impl<F> ScriptPart<F> {
    /// Whether it is a lane that has a reply left.
    pub(crate) fn has_reply(&self) -> bool
        ensures { IsTrue result ↔ (1 ≤ length (replies_of self.now)) }
    {
        match self {
            ScriptPart::Lane(lane) => lane.work.has_reply(),
            ScriptPart::Rounds(_) => false,
        }
    }

    /// Takes the next reply of a lane that has one. It takes no memory.
    pub(crate) fn next_reply(&mut self) -> LineReply
        requires there { 1 ≤ length (replies_of self.old) }
        ensures reply { replies_of self.old ≡ result ∷ replies_of self.new }
        ensures feeding { feeding_of self.new ≡ feeding_of self.old }
    {
        match self {
            ScriptPart::Lane(lane) => lane.work.next_reply(),
            ScriptPart::Rounds(_) => LineReply::No(Reason::Memory),
        }
    }
}

impl<F: Feeding> Job for ScriptPart<F> {
    ghost use Rattle.btr_live.specs.Parts.{PartDid, PartKeeps};
    ghost use Rattle.btr_live.specs.PartLaws.{part_did_lasts, part_did_lowers};

    ghost did = { PartDid F.ran };

    ghost keeps = { PartKeeps F.keeps };

    fn run<R: Threads + Wait + Sync, D: Disk + Send>(
        &mut self,
        system: System<'_, R>,
        hall: &Hall<D>,
        session: &mut Session<D>,
    ) {
        match self {
            ScriptPart::Lane(lane) => lane.run(system, hall, session),
            ScriptPart::Rounds(rounds) => rounds.run(system, hall, session),
        }
    }

    ghost lasts = { part_did_lasts F.ran F.lasts };

    ghost lowers = { part_did_lowers F.ran F.lowers };
}

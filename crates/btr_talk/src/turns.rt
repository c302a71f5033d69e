//! The loop of a talk.
ghost use Rattle.std.specs.Prelude.{◌≡◌, [], IfOk};
ghost use Rattle.btr_talk.specs.Ends.{Talks};
ghost use Rattle.btr_talk.specs.Turn.{TakesTurn};

use crate::Desk;
use crate::reply::reply;
use btr_io::{Failed, ReadAllFault, Sink, Source};
use btr_lines::{Lines, Moments};
use std::alloc::{AllocError, Global};
use std::marker::Sync;
use std::sync::Wait;
use std::thread::Threads;

/// Why a talk ended.
#[derive(Clone, Copy, PartialEq)]
pub enum TalkEnd {
    /// The input ended, and each of its lines is answered.
    Ended,
    /// The source failed.
    NoSource,
    /// A line has more bytes than the limit.
    TooLong,
    /// The sink failed.
    NoSink,
    /// Out of memory.
    OutOfMemory,
}

impl From<ReadAllFault> for TalkEnd {
    ghost use Rattle.btr_talk.specs.Ends.{end_of_read};

    ghost from_gives = { λ fault end. end ≡ end_of_read fault };

    fn from(fault: ReadAllFault) -> Self {
        match fault {
            ReadAllFault::Fault => TalkEnd::NoSource,
            ReadAllFault::TooLong => TalkEnd::TooLong,
            ReadAllFault::Want => TalkEnd::OutOfMemory,
        }
    }
}

impl From<Failed> for TalkEnd {
    ghost use Rattle.btr_talk.specs.declared.turns.TalkEnd.TheVariants.{NoSink};

    ghost from_gives = { λ _ end. end ≡ NoSink };

    fn from(_: Failed) -> Self {
        TalkEnd::NoSink
    }
}

impl From<AllocError> for TalkEnd {
    ghost use Rattle.btr_talk.specs.declared.turns.TalkEnd.TheVariants.{OutOfMemory};

    ghost from_gives = { λ _ end. end ≡ OutOfMemory };

    fn from(_: AllocError) -> Self {
        TalkEnd::OutOfMemory
    }
}

/// How a talk ended, and the moments of it, which have no bytes.
#[derive(Drop)]
pub struct Talked<S, K, X> {
    pub end: TalkEnd,
    /// The sink and the desk, twice for each line: when it was done, and when its reply had been passed on.
    pub moments: Moments<K, X>,
    /// The source and the sink, right before each call of the source.
    pub asked: Moments<S, K>,
}

/// What a talk has at hand: the bytes that are in no line yet, the line, its reply, and the moments.
#[derive(Drop)]
struct Turns<S, K, X> {
    lines: Lines,
    line: Vec<u8>,
    text: Vec<u8>,
    moments: Moments<K, X>,
    asked: Moments<S, K>,
}

/// Answers the lines of a source until it ends. Each line is done, its reply is written and passed on, and then the next line is looked at.
/// The source is asked for more only when each line that it has given is answered, and the answer passed on.
///
/// A line has at most `limit` bytes. A longer one ends the talk, and nothing of it is done. If the input does not end with a line feed, its
/// last line is answered when it ends. If it does, the last line is empty.
///
/// Takes memory for the longest line, the longest reply and 64 KiB. It waits as long as the source does, so it may never return.
pub fn talk<R: Threads + Wait + Sync, X: Desk, S: Source, K: Sink>(
    rt: &R,
    alloc: Global,
    desk: &mut X,
    source: &mut S,
    sink: &mut K,
    limit: u64,
) -> Talked<S, K, X>
    requires ready { X.is_ready desk.old }
    requires new { X.did desk.old desk.old [] [] }
    ensures ready { X.is_ready desk.new }
    ensures talks { Talks ⟦<S as Source>⟧ ⟦<K as Sink>⟧ ⟦<X as Desk>⟧ limit source.old source.new sink.old sink.new desk.old desk.new
        result.end result.moments.items result.asked.items }
{
    let mut turns = match Turns::new(alloc) {
        Ok(turns) => turns,
        Err(_) => {
            return Talked {
                end: TalkEnd::OutOfMemory,
                moments: Moments::new(),
                asked: Moments::new(),
            };
        }
    };
    let end = turns.run(rt, desk, source, sink, limit);
    let Turns { moments, asked, .. } = turns;
    Talked {
        end,
        moments,
        asked,
    }
}

impl<S, K, X> Turns<S, K, X> {
    /// Nothing was read yet.
    fn new(alloc: Global) -> Result<Turns<S, K, X>, AllocError>
        ensures lines { IfOk result (λ turns. turns.lines ≡ []) }
        ensures moments { IfOk result (λ turns. turns.moments.items ≡ []) }
        ensures asked { IfOk result (λ turns. turns.asked.items ≡ []) }
    {
        Ok(Turns {
            lines: Lines::new(alloc)?,
            line: Vec::new(alloc),
            text: Vec::new(alloc),
            moments: Moments::new(),
            asked: Moments::new(),
        })
    }
}

impl<S: Source, K: Sink, X: Desk> Turns<S, K, X> {
    /// Takes turns until the talk ends.
    fn run<R: Threads + Wait + Sync>(
        &mut self,
        rt: &R,
        desk: &mut X,
        source: &mut S,
        sink: &mut K,
        limit: u64,
    ) -> TalkEnd
        requires ready { X.is_ready desk.old }
        requires new { X.did desk.old desk.old [] [] }
        requires lines { self.old.lines ≡ [] }
        requires moments { self.old.moments.items ≡ [] }
        requires asked { self.old.asked.items ≡ [] }
        ensures ready { X.is_ready desk.new }
        ensures talks { Talks ⟦<S as Source>⟧ ⟦<K as Sink>⟧ ⟦<X as Desk>⟧ limit source.old source.new sink.old sink.new desk.old desk.new
            result self.new.moments.items self.new.asked.items }
    {
        for _ in rt.forever() {
            match self.turn(rt, desk, source, sink, limit) {
                Ok(true) => {}
                Ok(false) => return TalkEnd::Ended,
                Err(end) => return end,
            }
        }
        unreachable!()
    }

    /// Reads the next line and answers it. Returns whether there may be more lines.
    fn turn<R: Threads + Wait + Sync>(
        &mut self,
        rt: &R,
        desk: &mut X,
        source: &mut S,
        sink: &mut K,
        limit: u64,
    ) -> Result<bool, TalkEnd>
        requires ready { X.is_ready desk.old }
        ensures ready { X.is_ready desk.new }
        ensures turned { TakesTurn ⟦<S as Source>⟧ ⟦<K as Sink>⟧ ⟦<X as Desk>⟧ limit source.old source.new sink.old sink.new
            desk.old desk.new self.old self.new result }
    {
        let more = self
            .lines
            .next_line(source, sink, limit, &mut self.line, &mut self.asked)?;
        let moments = &mut self.moments;
        reply(rt, desk, sink, &self.line, &mut self.text, moments)?;
        Ok(more)
    }
}

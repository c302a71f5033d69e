//! One line: it is done, and its reply is written and passed on.
ghost use Rattle.std.specs.Prelude.{◌≡◌, ℕ, ◌≤◌, ◌++◌, length, take, IfErr, OnOk, OnErr};
ghost use Rattle.btr_io.specs.Faults.{HasCause};
ghost use Rattle.btr_talk.specs.Reply.{Replies, StopsReply};

use crate::Desk;
use crate::turns::TalkEnd;
use btr_io::{Failed, Sink, write_all};
use btr_lines::Moments;
use std::marker::Sync;
use std::sync::Wait;
use std::thread::Threads;

/// Does a line, writes its reply, and passes it on. The moment when the line was done is added to `moments`, and then the moment when
/// its reply had been passed on. `text` is where the reply is made.
pub(crate) fn reply<R: Threads + Wait + Sync, X: Desk, K: Sink>(
    rt: &R,
    desk: &mut X,
    sink: &mut K,
    line: &[u8],
    text: &mut Vec<u8>,
    moments: &mut Moments<K, X>,
) -> Result<(), TalkEnd>
    requires ready { X.is_ready desk.old }
    ensures ready { X.is_ready desk.new }
    ensures replies { OnOk result
        (Replies ⟦<K as Sink>⟧ ⟦<X as Desk>⟧ line.now text.new.items sink.old sink.new desk.old desk.new
        moments.old.items moments.new.items) }
    ensures stops { IfErr result (λ end.
        StopsReply ⟦<K as Sink>⟧ ⟦<X as Desk>⟧ line.now sink.old sink.new desk.old desk.new
        moments.old.items moments.new.items end) }
{
    text.clear();
    desk.answer(rt, line, text)?;
    *moments = moments.and(sink, desk);
    write(sink, text)?;
    *moments = moments.and(sink, desk);
    Ok(())
}

/// Writes a text and passes it on.
fn write<K: Sink>(sink: &mut K, text: &[u8]) -> Result<(), Failed>
    ensures written { K.is_observable → OnOk result (K.written sink.new ≡ K.written sink.old ++ text.now) }
    ensures passed { K.is_observable → OnOk result (K.passed_on sink.new ≡ K.written sink.new) }
    ensures part { K.is_observable
        → OnErr result ((n : ℕ) × (n ≤ length text.now) × (K.written sink.new ≡ K.written sink.old ++ take n text.now)) }
    ensures cause { HasCause (K.faults sink.old) (K.faults sink.new) result }
{
    write_all(sink, text)?;
    sink.flush()
}

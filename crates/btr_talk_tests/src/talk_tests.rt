//! Talks with a desk that echoes: which replies are written before each end.
ghost use Rattle.std.specs.Prelude.{◌≡◌, ◌++◌, ◌∷◌, [], map};

use btr_io::{MemSink, MemSource};
use btr_talk::{Desk, TalkEnd, talk};
use std::alloc::{AllocError, Global};
use std::marker::Sync;
use std::sync::Wait;
use std::test::Fail;
use std::thread::Threads;

type Bytes = &'static [u8];

/// A desk that answers each line by `>`, the line and a line feed.
#[derive(Drop)]
struct Echo;

impl Desk for Echo {
    ghost is_ready = { λ desk. Unit {0} };

    ghost did = { λ begun now lines texts. texts ≡ map (λ line. 62 ∷ line ++ 10 ∷ []) lines };

    ghost goes_on = { λ old new. Unit {0} };

    fn answer<R: Threads + Wait + Sync>(
        &mut self,
        rt: &R,
        line: &[u8],
        text: &mut Vec<u8>,
    ) -> Result<(), AllocError> {
        text.push(b'>')?;
        text.extend_from_slice(line)?;
        text.push(b'\n')?;
        Ok(())
    }

    ghost stays = { λ desk. tt };

    ghost later = { λ old mid new first second. tt };
}

/// Input, bytes and failing call of the source, room, bytes a call and failing call of the sink; the end, and what was written. A call
/// that is never made is `NEVER`.
struct Case(Bytes, usize, u64, usize, usize, u64, TalkEnd, Bytes);

const NEVER: u64 = u64::MAX;

const LIMIT: u64 = 3;

const TALKS: &[Case] = &[
    Case(b"", 9, NEVER, 99, 99, NEVER, TalkEnd::Ended, b">\n"),
    Case(
        b"a\nb",
        9,
        NEVER,
        99,
        99,
        NEVER,
        TalkEnd::Ended,
        b">a\n>b\n",
    ),
    Case(
        b"a\nb\n",
        1,
        NEVER,
        99,
        1,
        NEVER,
        TalkEnd::Ended,
        b">a\n>b\n>\n",
    ),
    Case(
        b"abc\n",
        2,
        NEVER,
        99,
        2,
        NEVER,
        TalkEnd::Ended,
        b">abc\n>\n",
    ),
    Case(
        b"a\nabcd\na",
        9,
        NEVER,
        99,
        99,
        NEVER,
        TalkEnd::TooLong,
        b">a\n",
    ),
    Case(b"a\nb", 1, 0, 99, 99, NEVER, TalkEnd::NoSource, b""),
    Case(b"a\nb", 1, 2, 99, 99, NEVER, TalkEnd::NoSource, b">a\n"),
    Case(b"a\nb", 1, 3, 99, 99, NEVER, TalkEnd::NoSource, b">a\n"),
    // All lines that the source has given are answered before it is asked again.
    Case(
        b"a\nb\n",
        9,
        1,
        99,
        99,
        NEVER,
        TalkEnd::NoSource,
        b">a\n>b\n",
    ),
    // A reply is one write, and one flush after it.
    Case(b"a\nb", 9, NEVER, 99, 99, 0, TalkEnd::NoSink, b""),
    Case(b"a\nb", 9, NEVER, 99, 99, 1, TalkEnd::NoSink, b">a\n"),
    Case(b"a\nb", 9, NEVER, 99, 99, 2, TalkEnd::NoSink, b">a\n"),
    Case(b"a\nb", 9, NEVER, 99, 2, 1, TalkEnd::NoSink, b">a"),
    Case(b"a\nb", 9, NEVER, 4, 9, NEVER, TalkEnd::NoSink, b">a\n"),
    Case(b"a\nb", 9, NEVER, 4, 1, NEVER, TalkEnd::NoSink, b">a\n>"),
];

/// Whether a talk ends so, and the sink has these bytes then.
fn holds<R: Threads + Wait + Sync>(rt: &R, alloc: Global, row: &Case) -> Result<bool, Fail> {
    if row.1 == 0 || row.4 == 0 {
        return Ok(false);
    }
    let mut source = MemSource::new(row.0.to_vec(alloc)?, row.1, [row.2].to_vec(alloc)?);
    let mut sink = MemSink::new(alloc, row.3, row.4, [row.5].to_vec(alloc)?)?;
    let talked = talk(rt, alloc, &mut Echo, &mut source, &mut sink, LIMIT);
    Ok(talked.end == row.6 && sink.written() == row.7)
}

#[test]
fn each_line_is_answered_before_the_next(rt: HostRuntime) -> Result<(), Fail> {
    for (number, row) in TALKS.iter().enumerate() {
        if !holds(&rt, rt.alloc(), row)? {
            return Err(Fail::new(format_args!("row {number}")));
        }
    }
    Ok(())
}

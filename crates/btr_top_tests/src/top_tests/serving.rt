//! The command `serve`: what it answers, and how it ends if a source or a sink fails.

use super::fixture::{STORE, no_wrong, play_parts, run_on, run_words, store_of, with_ids};
use btr_io::{MemSink, MemSource};
use std::sync::Wait;
use std::test::Fail;
use std::thread::Threads;

const SERVED: &str = "\
$ serve --batch 2
> create U
> # a comment
> insert U 0 5 3 7
> feed U 4 1
> feed U 6 2
> nonsense
> @0 streams
> range U 0 100 latest
< ok 0 0
< ok 1 0
< held 1
< ok 2 0
< no line
< no line
< ok 2 4
< 0 5
< 3 7
< 4 1
< 6 2
= 1
$ serve --read
> info U latest
> insert U 9 9
< ok 2 1
< plain 4 15 1 7
< no line
= 1
$ check
< stands 3
= 0
";

#[test]
fn lines_are_served(rt: HostRuntime) -> Result<(), Fail> {
    play_parts(&rt, &[STORE, SERVED])
}

/// The calls of the source and of the sink that fail, counted from 0; what was written, and the status; and the latest version of the
/// stream after the run. The source gives all lines in one call. A reply is one call of the sink, and a flush is another.
struct Case {
    source: &'static [u64],
    sink: &'static [u64],
    text: &'static str,
    status: u8,
    after: &'static str,
}

const CASES: &[Case] = &[
    Case {
        source: &[],
        sink: &[],
        text: "ok 0 0\nok 1 0\n",
        status: 0,
        after: "ok 1 1\nplain 1 5 5 5\n",
    },
    Case {
        source: &[0],
        sink: &[],
        text: "no source\n",
        status: 3,
        after: "no stream\n",
    },
    // Both lines are answered before the source is called again.
    Case {
        source: &[1],
        sink: &[],
        text: "ok 0 0\nok 1 0\nno source\n",
        status: 3,
        after: "ok 1 1\nplain 1 5 5 5\n",
    },
    // The line was done, and none after it.
    Case {
        source: &[],
        sink: &[0],
        text: "",
        status: 4,
        after: "ok 0 1\nplain 0 0\n",
    },
    Case {
        source: &[],
        sink: &[1],
        text: "ok 0 0\n",
        status: 4,
        after: "ok 0 1\nplain 0 0\n",
    },
    Case {
        source: &[],
        sink: &[2],
        text: "ok 0 0\n",
        status: 4,
        after: "ok 1 1\nplain 1 5 5 5\n",
    },
];

/// Whether two lines are served so.
fn holds(rt: &(impl AllocGlobal + Threads + Wait + Sync), case: &Case) -> Result<bool, Fail> {
    let alloc = rt.alloc();
    let lines = with_ids(alloc, b"create U\ninsert U 0 5\n")?;
    let mut source = MemSource::new(lines, 1000, case.source.to_vec(alloc)?);
    let mut sink = MemSink::new(alloc, 1000, 1000, case.sink.to_vec(alloc)?)?;
    let (status, disk) = run_words(rt, "serve", &mut source, &mut sink, store_of(rt, "64")?)?;
    let is_written = sink.written() == case.text.as_bytes();
    let after = run_on(rt, "ask", b"info U latest\n", disk)?;
    let is_after = after.text.as_slice() == case.after.as_bytes();
    Ok(status == case.status && is_written && is_after)
}

fn first_wrong(rt: &(impl AllocGlobal + Threads + Wait + Sync)) -> Result<Option<usize>, Fail> {
    for (row, case) in CASES.iter().enumerate() {
        if !holds(rt, case)? {
            return Ok(Some(row));
        }
    }
    Ok(None)
}

#[test]
fn a_fault_ends_the_serving(rt: HostRuntime) -> Result<(), Fail> {
    no_wrong(first_wrong(&rt)?)
}

//! That lines are read, which no clause says, and that a fault in mid-stream is reported.

use btr_io::*;
use btr_lines::{Lines, Moments};
use std::alloc::Global;
use std::test::Fail;

type Bytes = &'static [u8];

/// Input, limit, the lines, why there are no more.
struct Input(Bytes, u64, &'static [Bytes], Option<ReadAllFault>);

const TOO_LONG: Option<ReadAllFault> = Some(ReadAllFault::TooLong);

const INPUTS: &[Input] = &[
    Input(b"", 9, &[b""], None),
    Input(b"a", 9, &[b"a"], None),
    Input(b"\n", 9, &[b"", b""], None),
    Input(b"a\nbc", 9, &[b"a", b"bc"], None),
    Input(b"a\nbc\n", 9, &[b"a", b"bc", b""], None),
    Input(b"a\r\n\r\nb\r", 9, &[b"a\r", b"\r", b"b\r"], None),
    Input(b"abc\nabc", 3, &[b"abc", b"abc"], None),
    Input(b"ab\nabc\na", 2, &[b"ab"], TOO_LONG),
    Input(b"ab\nabc", 2, &[b"ab"], TOO_LONG),
    Input(b"\na", 0, &[b""], TOO_LONG),
    Input(b"a", u64::MAX, &[b"a"], None),
];

/// Whether the next lines of a source are these, and then there are no more, for this reason.
fn are_lines(
    alloc: Global,
    source: &mut MemSource,
    limit: u64,
    wanted: &[Bytes],
    end: Option<ReadAllFault>,
) -> Result<bool, Fail> {
    let mut lines = Lines::new(alloc)?;
    let mut line = Vec::new(alloc);
    let mut asked = Moments::new();
    for (number, want) in wanted.iter().enumerate() {
        let is_last = number + 1 == wanted.len() && end.is_none();
        match lines.next_line(source, &(), limit, &mut line, &mut asked) {
            Ok(more) if more != is_last && line.as_slice() == *want => {}
            _ => return Ok(false),
        }
    }
    match end {
        None => Ok(true),
        Some(fault) => {
            let read = lines.next_line(source, &(), limit, &mut line, &mut asked);
            Ok(read.is_err_and(|is| is == fault))
        }
    }
}

/// Whether a row holds if the source gives at most `piece` bytes a call.
fn holds(alloc: Global, row: &Input, piece: usize) -> Result<bool, Fail> {
    if piece == 0 {
        return Ok(false);
    }
    let mut source = MemSource::new(row.0.to_vec(alloc)?, piece, Vec::new(alloc));
    are_lines(alloc, &mut source, row.1, row.2, row.3)
}

/// However the source cuts the input, the lines are the same.
#[test]
fn lines_are_the_pieces(rt: HostRuntime) -> Result<(), Fail> {
    for (number, row) in INPUTS.iter().enumerate() {
        for piece in [1, 2, 3, 1 << 16] {
            if !holds(rt.alloc(), row, piece)? {
                return Err(Fail::new(format_args!("row {number}, {piece} bytes a call")));
            }
        }
    }
    Ok(())
}

/// Input, bytes a call, the call that fails, the lines before it.
struct Failing(Bytes, usize, u64, &'static [Bytes]);

const FAILINGS: &[Failing] = &[
    Failing(b"a\nb", 1, 0, &[]),
    Failing(b"a\nb", 1, 1, &[]),
    Failing(b"a\nb", 1, 2, &[b"a"]),
    Failing(b"a\nb", 1, 3, &[b"a"]),
    // No call is made while a whole line is held.
    Failing(b"a\nb\nc\n", 100, 1, &[b"a", b"b", b"c"]),
    Failing(b"a\nb\nc", 100, 1, &[b"a", b"b"]),
    Failing(b"a\nb\n", 2, 1, &[b"a"]),
];

#[test]
fn a_fault_comes_after_the_lines_before_it(rt: HostRuntime) -> Result<(), Fail> {
    for (number, row) in FAILINGS.iter().enumerate() {
        let failing = [row.2].to_vec(rt.alloc())?;
        let bytes = row.0.to_vec(rt.alloc())?;
        if row.1 == 0 {
            return Err(Fail::new(format_args!("row {number}")));
        }
        let mut source = MemSource::new(bytes, row.1, failing);
        if !are_lines(rt.alloc(), &mut source, 9, row.3, Some(ReadAllFault::Fault))? {
            return Err(Fail::new(format_args!("row {number}")));
        }
    }
    Ok(())
}

/// Whether a line of `length` bytes and one of one byte after it are read.
fn is_read_after(alloc: Global, length: usize) -> Result<bool, Fail> {
    let mut bytes = Vec::new(alloc);
    for _ in 0..length {
        bytes.push(b'x')?;
    }
    bytes.push(b'\n')?;
    bytes.push(b'y')?;
    let mut source = MemSource::new(bytes, usize::MAX, Vec::new(alloc));
    let mut lines = Lines::new(alloc)?;
    let mut line = Vec::new(alloc);
    let mut asked = Moments::new();
    let first = lines.next_line(&mut source, &(), 1 << 20, &mut line, &mut asked) == Ok(true);
    let is_long = line.len() == length && line.iter().all(|b| *b == b'x');
    let second = lines.next_line(&mut source, &(), 1 << 20, &mut line, &mut asked) == Ok(false);
    Ok(first && is_long && second && line.as_slice() == b"y".as_slice())
}

/// A line feed at the edges of the 64 KiB that are held.
#[test]
fn lines_longer_than_what_is_held(rt: HostRuntime) -> Result<(), Fail> {
    for length in [65534, 65535, 65536, 65537, 200_000] {
        if !is_read_after(rt.alloc(), length)? {
            return Err(Fail::new(format_args!("{length} bytes")));
        }
    }
    Ok(())
}

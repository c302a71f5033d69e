//! Runs on a device in memory, and transcripts of such runs.
ghost use Rattle.std.specs.Prelude.{◌≡◌, ◌%◌, length};

use btr_disk::{Capacity, MemDisk};
use btr_io::{MemSink, MemSource};
use btr_jobs::{Pace, System};
use btr_text::read_unsigned;
use btr_top::{Outcome, run, run_paced};
use std::alloc::{AllocError, Global};
use std::sync::Wait;
use std::sync::atomic::{AtomicU32, Ordering};
use std::test::Fail;
use std::thread::{Threads, yield_now};

/// What the record of a device can hold.
const CAPACITY: Capacity = Capacity {
    calls: 256,
    blocks: 256,
};

/// What a run gave: its text, its status, and the device.
#[derive(Drop)]
pub(super) struct Ran {
    pub(super) text: Vec<u8>,
    pub(super) status: u8,
    pub(super) disk: MemDisk,
}

impl Ran {
    /// Whether the run wrote this text and ended with this status.
    pub(super) fn gave(&self, text: &str, status: u8) -> bool {
        self.status == status && self.text.as_slice() == text.as_bytes()
    }
}

/// Fails with the number of the first wrong row of a table, if there is one.
pub(super) fn no_wrong(row: Option<usize>) -> Result<(), Fail> {
    match row {
        None => Ok(()),
        Some(number) => Err(Fail::new(format_args!("row {number} is wrong"))),
    }
}

/// Makes a device of 64 blocks on which the calls with these numbers fail.
pub(super) fn empty_device(alloc: Global, failing: &[u64]) -> Result<MemDisk, AllocError> {
    MemDisk::new(alloc, 64, CAPACITY, failing.to_vec(alloc)?)
}

/// Makes a device with these bytes.
pub(super) fn device_of(alloc: Global, bytes: Vec<u8>) -> Result<MemDisk, AllocError>
    requires { length bytes.items % 4096 ≡ 0 }
{
    MemDisk::from_bytes(alloc, bytes, CAPACITY, Vec::new(alloc))
}

/// Makes a device of 64 blocks with an empty store of this many.
pub(super) fn store_of(
    rt: &(impl AllocGlobal + Threads + Wait + Sync),
    blocks: &str,
) -> Result<MemDisk, Fail> {
    let alloc = rt.alloc();
    let words = format!(in alloc; "format --blocks {blocks}")?;
    let ran = run_on(rt, words.as_str(), b"", empty_device(alloc, &[])?)?;
    Ok(ran.disk)
}

/// Runs these words on a device, with an input in which `U`, `V`, `W` and `X` are short for four ids.
pub(super) fn run_on(
    rt: &(impl AllocGlobal + Threads + Wait + Sync),
    words: &str,
    input: &[u8],
    disk: MemDisk,
) -> Result<Ran, Fail> {
    let alloc = rt.alloc();
    let mut source = MemSource::new(with_ids(alloc, input)?, 7, Vec::new(alloc));
    let mut sink = MemSink::new(alloc, 10000, 11, Vec::new(alloc))?;
    let (status, disk) = run_words(rt, words, &mut source, &mut sink, disk)?;
    let text = sink.written().to_vec(alloc)?;
    Ok(Ran { text, status, disk })
}

/// Runs these words with a source and a sink, and returns the status and the device.
pub(super) fn run_words(
    rt: &(impl AllocGlobal + Threads + Wait + Sync),
    words: &str,
    source: &mut MemSource,
    sink: &mut MemSink,
    disk: MemDisk,
) -> Result<(u8, MemDisk), Fail> {
    let alloc = rt.alloc();
    let given = split_words(alloc, words)?;
    let Outcome { status, disk, .. } = run(rt, alloc, &given, source, sink, disk);
    Ok((status, disk))
}

/// Returns the words of a text.
fn split_words(alloc: Global, text: &str) -> Result<Vec<String>, AllocError> {
    let mut words = Vec::new(alloc);
    for word in text.split(' ') {
        words.push(word.to_string(alloc)?)?;
    }
    Ok(words)
}

/// Waits when turn 0 begins, for at most a million tries, until another turn has begun.
#[derive(Drop)]
struct Beside {
    other: u32,
    begun: AtomicU32,
    beside: AtomicU32,
}

impl Beside {
    fn wait(&self) {
        for _ in 0..1_000_000u32 {
            if self.begun.load(Ordering::SeqCst) > 0 {
                self.beside.store(1, Ordering::SeqCst);
                return;
            }
            yield_now();
        }
    }
}

impl Pace for Beside {
    fn begun(&self, turn: u32) {
        if turn == self.other {
            self.begun.store(1, Ordering::SeqCst);
        }
        if turn == 0 {
            self.wait();
        }
    }

    fn ended(&self, _turn: u32) {}
}

/// Runs these words on a device. Returns also whether another turn began while turn 0 waited for it.
pub(super) fn run_beside(
    rt: &(impl AllocGlobal + Threads + Wait + Sync),
    other: u32,
    words: &str,
    input: &[u8],
    disk: MemDisk,
) -> Result<(Ran, bool), Fail> {
    let alloc = rt.alloc();
    let given = split_words(alloc, words)?;
    let mut source = MemSource::new(with_ids(alloc, input)?, 7, Vec::new(alloc));
    let mut sink = MemSink::new(alloc, 10000, 11, Vec::new(alloc))?;
    let pace = Beside {
        other,
        begun: AtomicU32::new(0),
        beside: AtomicU32::new(0),
    };
    let Outcome { status, disk, .. } = run_paced(
        System { rt, alloc },
        &given,
        &mut source,
        &mut sink,
        disk,
        &pace,
    );
    let text = sink.written().to_vec(alloc)?;
    let is_beside = pace.beside.load(Ordering::SeqCst) > 0;
    Ok((Ran { text, status, disk }, is_beside))
}

/// Returns the text with an id for each `U`, `V`, `W` and `X`.
pub(super) fn with_ids(alloc: Global, text: &[u8]) -> Result<Vec<u8>, AllocError> {
    let mut out = Vec::new(alloc);
    for byte in text {
        match *byte {
            b'U' => out.extend_from_slice(b"11111111-1111-4111-8111-111111111111")?,
            b'V' => out.extend_from_slice(b"22222222-2222-4222-8222-222222222222")?,
            b'W' => out.extend_from_slice(b"33333333-3333-4333-8333-333333333333")?,
            b'X' => out.extend_from_slice(b"44444444-4444-4444-8444-444444444444")?,
            other => out.push(other)?,
        }
    }
    Ok(out)
}

/// Returns the bytes, but for a piece from `at` on, if there is room for it.
pub(super) fn with_piece(mut bytes: Vec<u8>, at: usize, piece: &[u8]) -> Vec<u8>
    ensures { length result.items ≡ length bytes.items }
{
    if at <= bytes.len() && piece.len() <= bytes.len() - at {
        bytes[at..at + piece.len()].copy_from_slice(piece);
    }
    bytes
}

/// The first part of a transcript: an empty store is made.
pub(super) const STORE: &str = "\
$ format --blocks 64
< formatted 64
= 0
";

/// A part of a transcript: a stream of three points is made.
pub(super) const TWO_ENTRIES: &str = "\
$ live
> create U
> insert U 0 5 3 7 4 -2
< ok 0 0
< ok 1 0
= 0
";

/// A part of a transcript: an output of the sums of three points follows an insert of a fourth one.
pub(super) const FOURTH_POINT: &str = "\
$ live
> insert V 5 1
> refresh W
> range W 0 100 2
< ok 2 0
< ok 2 0
< ok 2 4
< 0 10
< 5 11
< 10 31
< 20 50
= 0
";

/// Plays a transcript of runs on one device of 64 blocks. A line `$ WORDS` begins a run, `> LINE` is a line of its
/// input, `< LINE` a line that it must write, and `= N` the status with which it must end. The calls of the device that
/// are listed fail. `U`, `V`, `W` and `X` are short for four ids.
pub(super) fn play(
    rt: &(impl AllocGlobal + Threads + Wait + Sync),
    failing: &[u64],
    transcript: &str,
) -> Result<(), Fail> {
    let mut disk = empty_device(rt.alloc(), failing)?;
    for part in transcript.split('$') {
        if let Some(lines) = part.strip_prefix(" ") {
            disk = play_run(rt, lines, disk)?;
        }
    }
    Ok(())
}

/// Plays a transcript that is given in parts, on a device that does not fail. A run may go on in the next part.
pub(super) fn play_parts(
    rt: &(impl AllocGlobal + Threads + Wait + Sync),
    parts: &[&str],
) -> Result<(), Fail> {
    play_failing(rt, &[], parts)
}

/// Plays a transcript that is given in parts. The calls of the device that are listed fail. A run may go on in the next part.
pub(super) fn play_failing(
    rt: &(impl AllocGlobal + Threads + Wait + Sync),
    failing: &[u64],
    parts: &[&str],
) -> Result<(), Fail> {
    let transcript = parts.concat(rt.alloc())?;
    play(rt, failing, transcript.as_str())
}

/// Runs what the lines of a transcript say, and returns the device if the run gave what they want.
fn play_run(
    rt: &(impl AllocGlobal + Threads + Wait + Sync),
    lines: &str,
    disk: MemDisk,
) -> Result<MemDisk, Fail> {
    let alloc = rt.alloc();
    let words = lines.split('\n').next().unwrap_or("");
    let ran = run_on(rt, words, &lines_with(alloc, lines, "> ")?, disk)?;
    let wanted = with_ids(alloc, &lines_with(alloc, lines, "< ")?)?;
    if ran.text.as_slice() == wanted.as_slice() && status_in(lines) == Some(u64::from(ran.status)) {
        return Ok(ran.disk);
    }
    Err(other_text(alloc, words, ran.status, &ran.text))
}

/// Returns the failure of a run that gave another status or another text.
fn other_text(alloc: Global, words: &str, status: u8, text: &[u8]) -> Fail {
    match String::from_utf8_lossy(alloc, text) {
        Ok(text) => Fail::new(format_args!("{words}: {status}, {text}")),
        Err(_) => Fail::new(format_args!("{words}: {status}")),
    }
}

/// Returns the lines that begin with a mark, without it.
fn lines_with(alloc: Global, lines: &str, mark: &str) -> Result<Vec<u8>, AllocError> {
    let mut text = Vec::new(alloc);
    for line in lines.split('\n') {
        if let Some(rest) = line.strip_prefix(mark) {
            text.extend_from_slice(rest.as_bytes())?;
            text.push(b'\n')?;
        }
    }
    Ok(text)
}

/// Returns the number of the line `= N`.
fn status_in(lines: &str) -> Option<u64> {
    for line in lines.split('\n') {
        if let Some(status) = line.strip_prefix("= ") {
            return read_unsigned(status.as_bytes());
        }
    }
    None
}

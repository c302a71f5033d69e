//! A stop or a fault of the device in each call of a sequence of runs: what the runs say, and what the store has after them.
use super::fixture::{empty_device, no_wrong, run_on, store_of, with_ids};
use btr_disk::{Disk, Fill, FuseDisk, MemDisk};
use btr_io::{MemSink, MemSource};
use btr_text::read_unsigned;
use btr_top::{Outcome, run};
use std::alloc::{AllocError, Global};
use std::sync::Wait;
use std::test::Fail;
use std::thread::Threads;

/// The lines of the first run, the replies, and the line that makes the stream of the line, if it is another.
const LINES: &[(&str, &str, Option<usize>)] = &[
    ("create U\n", "ok 0 0\n", None),
    ("create W\n", "ok 0 0\n", None),
    ("insert U 0 10 10 20 20 30\n", "ok 1 0\n", Some(0)),
    ("insert W 0 1\n", "ok 1 0\n", Some(1)),
    ("insert U 30 40 40 50\n", "ok 2 0\n", Some(0)),
    ("delete U 10 20\n", "ok 3 0\n", Some(0)),
    ("distiller V sum 10 0 U\n", "ok 0 0\n", Some(0)),
    ("refresh V\n", "ok 1 0\n", Some(6)),
    ("insert U 5 1\n", "ok 4 0\n", Some(0)),
    ("refresh V\n", "ok 2 0\n", Some(6)),
];

/// The device calls of the runs: of the first `live` three to open, and four for each of ten entries; of a checkpoint three to open, and
/// nine; of the second `live` four to open, and four for its entry; of another checkpoint four to open, and eleven; of the last `live`
/// four to open, and eleven for the first retirement of the store.
const CALLS: u64 = 43 + 12 + 8 + 15 + 15;

/// The calls of the first run.
const FIRST_CALLS: u64 = 43;

/// The calls that make an empty store.
const FORMAT_CALLS: u64 = 8;

pub(super) const FILLS: [Fill; 5] = [
    Fill::Kept,
    Fill::Written,
    Fill::Zeros,
    Fill::Ones,
    Fill::Gates,
];

/// What a run gave: its text, its status, and the device.
#[derive(Drop)]
struct Given<D> {
    text: String,
    status: u8,
    disk: D,
}

/// What the runs gave.
#[derive(Drop)]
struct Reported<D> {
    disk: D,
    /// The text of the first run.
    first: String,
    /// The number of entries that were acknowledged.
    acknowledged: u64,
    /// The number of runs that ended because the device failed.
    failed: u64,
    /// Whether the third run, unless its opening failed, said that the store has as many entries, or one more.
    is_answered: bool,
    /// Whether the last run did not fail.
    is_whole: bool,
}

/// Returns the script of the first run: the lines, and a question.
fn first_script(alloc: Global) -> Result<String, AllocError> {
    let mut script = String::new(alloc);
    for (line, _, _) in LINES {
        script.push_str(line)?;
    }
    script.push_str("streams\n")?;
    Ok(script)
}

/// Returns the reply to a line of the first run if the device fails in the commit of the line `fault`.
fn reply_after(
    alloc: Global,
    fault: usize,
    at: usize,
    row: &(&str, &str, Option<usize>),
) -> Result<String, AllocError> {
    let (_, reply, maker) = row;
    if at < fault {
        return reply.to_string(alloc);
    }
    if at == fault {
        return "no device\n".to_string(alloc);
    }
    if let Some(maker) = maker
        && *maker >= fault
    {
        return "no stream\n".to_string(alloc);
    }
    // without the late points the output is up to date
    if fault == 8 && at == 9 {
        return "ok 1 0\n".to_string(alloc);
    }
    format!(in alloc; "no stopped {fault}\n")
}

/// Returns how the text of the first run begins if the device fails in the commit of the line `fault`: the replies to the lines, and the
/// number of entries, which answers the question.
fn replies_after(alloc: Global, fault: usize) -> Result<String, AllocError> {
    let mut text = String::new(alloc);
    for (at, row) in LINES.iter().enumerate() {
        let reply = reply_after(alloc, fault, at, row)?;
        text.push_str(reply.as_str())?;
    }
    let answer = format!(in alloc; "ok {fault} ")?;
    text.push_str(answer.as_str())?;
    Ok(text)
}

/// Returns how the text of the first run begins if the device fails in this call.
fn first_text(alloc: Global, call: u64) -> Result<String, AllocError> {
    match call.checked_sub(3) {
        None => "no device\n".to_string(alloc),
        Some(rest) => replies_after(alloc, (rest / 4).min(10) as usize),
    }
}

/// Returns the number of entries that a text acknowledges: the replies `ok VERSION 0` before the first refusal.
fn acknowledged_in(text: &str) -> u64 {
    let mut entries = 0u64;
    for line in text.split('\n') {
        if line.starts_with("no ") {
            return entries;
        }
        if line.starts_with("ok ") && line.ends_with(" 0") {
            entries = entries.saturating_add(1);
        }
    }
    entries
}

/// Returns the number of entries in the answer to the question, which is the last line that begins with `ok`.
fn entries_in(text: &str) -> Option<u64> {
    let mut entries = None;
    for line in text.split('\n') {
        if let Some(rest) = line.strip_prefix("ok ") {
            entries = read_unsigned(rest.split(' ').next()?.as_bytes());
        }
    }
    entries
}

/// Whether there are as many entries as were acknowledged, or one more.
fn is_kept(entries: Option<u64>, acknowledged: u64) -> bool {
    match entries {
        None => false,
        Some(entries) => entries == acknowledged || entries.checked_sub(1) == Some(acknowledged),
    }
}

/// Makes a source of these lines, and an empty sink.
fn ends_of(alloc: Global, input: &[u8]) -> Result<(MemSource, MemSink), AllocError> {
    let source = MemSource::new(with_ids(alloc, input)?, 7, Vec::new(alloc));
    let sink = MemSink::new(alloc, 10000, 11, Vec::new(alloc))?;
    Ok((source, sink))
}

/// Runs a command of one word on a device.
fn run_word<D: Disk + Send + Drop>(
    rt: &(impl AllocGlobal + Threads + Wait + Sync),
    word: &str,
    input: &[u8],
    disk: D,
) -> Result<Given<D>, Fail> {
    let alloc = rt.alloc();
    let (mut source, mut sink) = ends_of(alloc, input)?;
    let words = vec![in alloc; word.to_string(alloc)?]?;
    let Outcome { status, disk, .. } = run(rt, alloc, &words, &mut source, &mut sink, disk);
    let text = String::from_utf8_lossy(alloc, sink.written())?;
    Ok(Given { text, status, disk })
}

/// Whether the question of the third run was answered with these entries, or one more. It is not asked if the opening failed.
fn is_answered(text: &str, acknowledged: u64) -> bool {
    text == "no device\n" || is_kept(entries_in(text), acknowledged)
}

/// Runs a script, a checkpoint, another script, another checkpoint, and a script that retires a version.
fn run_all<D: Disk + Send + Drop>(
    rt: &(impl AllocGlobal + Threads + Wait + Sync),
    script: &[u8],
    disk: D,
) -> Result<Reported<D>, Fail> {
    let first = run_word(rt, "live", script, disk)?;
    let second = run_word(rt, "checkpoint", b"", first.disk)?;
    let third = run_word(rt, "live", b"insert W 40 1\nstreams\n", second.disk)?;
    let fourth = run_word(rt, "checkpoint", b"", third.disk)?;
    let last = run_word(rt, "live", b"retire U 1\n", fourth.disk)?;
    let statuses = [
        first.status,
        second.status,
        third.status,
        fourth.status,
        last.status,
    ];
    let failed = statuses.iter().filter(|status| **status == 5).count() as u64;
    let before = acknowledged_in(first.text.as_str()).saturating_add(acknowledged_in(
        third.text.as_str(),
    ));
    Ok(Reported {
        disk: last.disk,
        acknowledged: before.saturating_add(acknowledged_in(last.text.as_str())),
        failed,
        is_answered: is_answered(third.text.as_str(), before),
        is_whole: last.status == 0,
        first: first.text,
    })
}

/// Returns the number of entries of which a check says that they stand, if it does, and the device.
fn entries_on(
    rt: &(impl AllocGlobal + Threads + Wait + Sync),
    disk: MemDisk,
) -> Result<(Option<u64>, MemDisk), Fail> {
    let Given { text, status, disk } = run_word(rt, "check", b"", disk)?;
    if status != 0 {
        return Ok((None, disk));
    }
    Ok((standing(text.as_str()), disk))
}

/// Returns the number of the line `stands N`.
fn standing(text: &str) -> Option<u64> {
    let line = text.split('\n').next()?;
    read_unsigned(line.strip_prefix("stands ")?.as_bytes())
}

/// Whether a store has the entries that were acknowledged, or one more, and takes two more.
fn goes_on(
    rt: &(impl AllocGlobal + Threads + Wait + Sync),
    disk: MemDisk,
    acknowledged: u64,
) -> Result<bool, Fail> {
    let (before, disk) = entries_on(rt, disk)?;
    let ran = run_on(rt, "live", b"create X\ninsert X 1 1\n", disk)?;
    let is_taken = ran.gave("ok 0 0\nok 1 0\n", 0);
    let (after, _) = entries_on(rt, ran.disk)?;
    let are_two_more = after.is_some()
        && after.and_then(|entries| entries.checked_sub(2)) == before;
    Ok(is_kept(before, acknowledged) && is_taken && are_two_more)
}

/// Whether each store that a stop may leave goes on.
pub(super) fn images_go_on(
    rt: &(impl AllocGlobal + Threads + Wait + Sync),
    disk: &MemDisk,
    acknowledged: u64,
) -> Result<bool, Fail> {
    for fill in FILLS {
        if !goes_on(rt, disk.image(rt.alloc(), fill)?, acknowledged)? {
            return Ok(false);
        }
    }
    Ok(true)
}

/// Runs lines on a device that stops after this many calls. Returns whether the run did not fail, the number of entries that were
/// acknowledged, and the device.
pub(super) fn stopped_live(
    rt: &(impl AllocGlobal + Threads + Wait + Sync),
    script: &[u8],
    calls: u64,
) -> Result<(bool, u64, MemDisk), Fail> {
    let ran = run_word(
        rt,
        "live",
        script,
        FuseDisk::new(store_of(rt, "64")?, calls),
    )?;
    let acknowledged = acknowledged_in(ran.text.as_str());
    Ok((ran.status != 5, acknowledged, ran.disk.into_disk()))
}

/// Whether the first run says what it says if the device fails in this call, and the question of the third run is answered.
fn says<D>(reported: &Reported<D>, first: &str) -> bool {
    reported.is_answered && reported.first.as_str().starts_with(first)
}

/// Whether the runs say and leave what they must if the device stops after this many calls. Only after all calls no run fails.
fn is_good_stop(
    rt: &(impl AllocGlobal + Threads + Wait + Sync),
    script: &[u8],
    calls: u64,
) -> Result<bool, Fail> {
    let first = first_text(rt.alloc(), calls)?;
    let reported = run_all(rt, script, FuseDisk::new(store_of(rt, "64")?, calls))?;
    if !says(&reported, first.as_str()) || reported.is_whole != (calls >= CALLS) {
        return Ok(false);
    }
    images_go_on(rt, &reported.disk.into_disk(), reported.acknowledged)
}

/// Returns the first number of calls, of those from `from` to `to`, after which a stop is wrong.
fn first_wrong_stop(
    rt: &(impl AllocGlobal + Threads + Wait + Sync),
    from: u64,
    to: u64,
) -> Result<Option<usize>, Fail> {
    let script = first_script(rt.alloc())?;
    for calls in from..to {
        if !is_good_stop(rt, script.as_bytes(), calls)? {
            return Ok(Some(calls as usize));
        }
    }
    Ok(None)
}

/// Makes a store on a device on which a call after the format fails.
fn failing_store(
    rt: &(impl AllocGlobal + Threads + Wait + Sync),
    call: u64,
) -> Result<MemDisk, Fail> {
    let failing = [call.saturating_add(FORMAT_CALLS)];
    let empty = empty_device(rt.alloc(), &failing)?;
    Ok(run_on(rt, "format --blocks 64", b"", empty)?.disk)
}

/// Whether the runs say and leave what they must if this call of the device fails: one run fails, and the later ones go on.
fn is_good_fault(
    rt: &(impl AllocGlobal + Threads + Wait + Sync),
    script: &[u8],
    call: u64,
) -> Result<bool, Fail> {
    let first = first_text(rt.alloc(), call)?;
    let reported = run_all(rt, script, failing_store(rt, call)?)?;
    if !says(&reported, first.as_str()) || reported.failed != 1 || reported.disk.faults() != 1 {
        return Ok(false);
    }
    goes_on(rt, reported.disk, reported.acknowledged)
}

/// Returns the first call whose fault is wrong.
fn first_wrong_fault(
    rt: &(impl AllocGlobal + Threads + Wait + Sync),
) -> Result<Option<usize>, Fail> {
    let script = first_script(rt.alloc())?;
    for call in 0..CALLS {
        if !is_good_fault(rt, script.as_bytes(), call)? {
            return Ok(Some(call as usize));
        }
    }
    Ok(None)
}

#[test]
fn a_stop_in_the_first_run_keeps_what_was_acknowledged(rt: HostRuntime) -> Result<(), Fail> {
    no_wrong(first_wrong_stop(&rt, 0, FIRST_CALLS)?)
}

#[test]
fn a_stop_in_a_later_run_keeps_what_was_acknowledged(rt: HostRuntime) -> Result<(), Fail> {
    no_wrong(first_wrong_stop(&rt, FIRST_CALLS, CALLS + 1)?)
}

#[test]
fn each_call_of_the_runs_may_fail(rt: HostRuntime) -> Result<(), Fail> {
    no_wrong(first_wrong_fault(&rt)?)
}

/// Runs all on a device that does not fail. Returns its calls, and the acknowledged entries.
fn counted(rt: &(impl AllocGlobal + Threads + Wait + Sync)) -> Result<(u64, u64), Fail> {
    let script = first_script(rt.alloc())?;
    let reported = run_all(rt, script.as_bytes(), store_of(rt, "64")?)?;
    Ok((reported.disk.calls(), reported.acknowledged))
}

#[test]
fn the_runs_make_these_calls(rt: HostRuntime) -> Result<(), Fail> {
    assert!(rt; counted(&rt)? == (FORMAT_CALLS + CALLS, 12));
    Ok(())
}

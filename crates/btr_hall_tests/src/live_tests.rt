//! Scripts in lanes, over devices in memory. The expected replies are worked out by hand.
ghost use Rattle.std.specs.Prelude.{◌≤◌, IfOk};
ghost use Rattle.btr_text.specs.Input.{HaveLanes};

use crate::fixture::{begun_empty, close, no_wrong, wait_for};
use btr_disk::MemDisk;
use btr_engine::Engine;
use btr_hist::{Answer, At, Query, Rows};
use btr_jobs::{NoPace, Pace, System};
use btr_live::*;
use btr_text::{LineReply, ScriptLine, read_script, write_reply};
use btr_work::{Refreshed, Report};
use std::alloc::{AllocError, Global};
use std::marker::Sync;
use std::sync::Wait;
use std::sync::atomic::{AtomicU32, Ordering};
use std::test::Fail;
use std::thread::Threads;

/// Adds a line to a text. In place of each letter U, V or W it gets an id.
fn add_line(text: &mut Vec<u8>, line: &[u8]) -> Result<(), AllocError> {
    for byte in line {
        match byte {
            b'U' => text.extend_from_slice(b"11111111-1111-4111-8111-111111111111")?,
            b'V' => text.extend_from_slice(b"22222222-2222-4222-8222-222222222222")?,
            b'W' => text.extend_from_slice(b"33333333-3333-4333-8333-333333333333")?,
            _ => text.push(*byte)?,
        }
    }
    text.push(b'\n')?;
    Ok(())
}

/// The script of these lines.
fn script(alloc: Global, lines: &[&[u8]]) -> Result<Vec<ScriptLine>, AllocError>
    ensures { IfOk result (λ s. HaveLanes s.items) }
{
    let mut text = Vec::new(alloc);
    for line in lines {
        add_line(&mut text, line)?;
    }
    Ok(read_script(alloc, &text)?.into_lines())
}

/// The script with these lines in each lane, lane after lane.
fn in_each_lane(alloc: Global, lines: &[&[u8]]) -> Result<Vec<ScriptLine>, AllocError>
    ensures { IfOk result (λ s. HaveLanes s.items) }
{
    let mut text = Vec::new(alloc);
    for lane in b'0'..b'8' {
        for line in lines {
            text.extend_from_slice(&[b'@', lane, b' '])?;
            add_line(&mut text, line)?;
        }
    }
    Ok(read_script(alloc, &text)?.into_lines())
}

/// A device in memory: its blocks, and the calls that fail.
#[derive(Clone, Copy)]
struct Device<'a> {
    blocks: u32,
    failing: &'a [u64],
}

/// A device on which no call fails.
const SOUND: Device<'static> = Device {
    blocks: 512,
    failing: &[],
};

/// Runs two scripts on a store of their own, one after the other, the second with rounds beside its lanes if that is wanted. Points
/// are due by twos. Returns the report of the second, and the engine in the end.
fn run_both<R: Threads + Wait + Sync, P: Pace + Sync>(
    rt: &R,
    alloc: Global,
    device: Device<'_>,
    first: Vec<ScriptLine>,
    second: Vec<ScriptLine>,
    materialize: bool,
    pace: &P,
) -> Result<(LiveReport, Engine<MemDisk>), Fail>
    requires blocks { (8 ≤ device.blocks) × (device.blocks ≤ 100_000) }
    requires lanes { HaveLanes first.items × HaveLanes second.items }
{
    let (hall, mut session) = begun_empty(alloc, device.blocks, device.failing)?;
    let begun = lanes(
        System { rt, alloc },
        &hall,
        &mut session,
        first,
        2,
        false,
        &NoPace,
    );
    let report = lanes(
        System { rt, alloc },
        &hall,
        &mut session,
        second,
        2,
        materialize,
        pace,
    );
    let engine = close(hall, session);
    begun?;
    Ok((report?, engine))
}

/// Runs two scripts in this way. Returns the report of the second, and the number of entries in the end.
fn ran<R: Threads + Wait + Sync, P: Pace + Sync>(
    rt: &R,
    alloc: Global,
    device: Device<'_>,
    first: Vec<ScriptLine>,
    second: Vec<ScriptLine>,
    materialize: bool,
    pace: &P,
) -> Result<(LiveReport, u64), Fail>
    requires blocks { (8 ≤ device.blocks) × (device.blocks ≤ 100_000) }
    requires lanes { HaveLanes first.items × HaveLanes second.items }
{
    let (report, engine) = run_both(rt, alloc, device, first, second, materialize, pace)?;
    Ok((report, engine.entries()))
}

/// The text of replies.
fn text_of(alloc: Global, replies: &[LineReply]) -> Result<Vec<u8>, AllocError> {
    let mut text = Vec::new(alloc);
    for reply in replies {
        write_reply(reply, &mut text)?;
    }
    Ok(text)
}

/// Whether replies have this text.
fn have_text(alloc: Global, replies: &[LineReply], wanted: &[u8]) -> Result<bool, AllocError> {
    Ok(text_of(alloc, replies)?.as_slice() == wanted)
}

/// The lines of a script.
type Lines<'a> = &'a [&'a [u8]];

/// Runs two scripts without rounds. Returns the replies to the second one, whether it has no last round, and the number of entries.
fn replied<R: Threads + Wait + Sync>(
    rt: &R,
    alloc: Global,
    device: Device<'_>,
    first: Lines<'_>,
    second: Lines<'_>,
) -> Result<(Vec<LineReply>, bool, u64), Fail>
    requires blocks { (8 ≤ device.blocks) × (device.blocks ≤ 100_000) }
{
    let first = script(alloc, first)?;
    let second = script(alloc, second)?;
    let (report, entries) = ran(rt, alloc, device, first, second, false, &NoPace)?;
    Ok((report.replies, report.last.is_none(), entries))
}

/// Runs two scripts without rounds. Returns whether the replies to the second one have this text, whether it has no last round, and the
/// number of entries.
fn says<R: Threads + Wait + Sync>(
    rt: &R,
    alloc: Global,
    device: Device<'_>,
    first: Lines<'_>,
    second: Lines<'_>,
    wanted: &[u8],
) -> Result<(bool, bool, u64), Fail>
    requires blocks { (8 ≤ device.blocks) × (device.blocks ≤ 100_000) }
{
    let (replies, is_without_rounds, entries) = replied(rt, alloc, device, first, second)?;
    let has_text = have_text(alloc, &replies, wanted)?;
    Ok((has_text, is_without_rounds, entries))
}

/// The lines of lanes that do not touch what the others do.
const APART: Lines<'static> = &[
    b"@3 feed U 1 1",
    b"nonsense",
    b"@7 flush U",
    b"@7 create W",
    b"@3 feed U 2 2",
    b"@3 range U 0 5 latest",
    b"insert V 0 7",
    b"@0 feed V 3458764513820540928 1",
    b"@7 refresh W",
    b"@7 delete W 5 5",
    b"@0 flush V",
];

/// The replies to those lines.
const APART_REPLIES: &[u8] =
    b"held 1\nno line\nno empty\nok 0 0\nok 1 0\nok 1 2\n1 1\n2 2\nok 1 0\n\
no domain 3458764513820540928\nno plain\nno range\nno empty\n";

/// Lanes that do not touch what the others do have the replies that each has alone, in the order of the script. A lane has feeds of its
/// own, in which points wait by twos.
#[test]
fn replies_are_in_the_order_of_the_script(rt: HostRuntime) -> Result<(), Fail> {
    let first: Lines<'_> = &[b"create U", b"create V"];
    let said = says(&rt, rt.alloc(), SOUND, first, APART, APART_REPLIES)?;
    assert!(rt; said == (true, true, 5));
    Ok(())
}

/// Returns the version that a lane made and the one that it read, if it has such replies.
fn made_and_read(replies: &[LineReply]) -> Option<(u64, u64)> {
    match replies {
        [
            LineReply::Done { version: made },
            LineReply::Found { version: read, .. },
        ] => Some((*made, *read)),
        _ => None,
    }
}

/// Returns the number of the first pair of replies that are other ones, or of which the second reads an earlier version than the first
/// made.
fn first_wrong_lane(replies: &[LineReply]) -> Option<usize> {
    for (row, pair) in replies.chunks(2).enumerate() {
        match made_and_read(pair) {
            Some((made, read)) if made <= read => {}
            _ => return Some(row),
        }
    }
    None
}

/// Returns the latest version of stream 0 and the number of its points from time 0 on.
fn latest(alloc: Global, engine: &Engine<MemDisk>) -> Result<Option<(u64, usize)>, AllocError> {
    let query = Query::Points {
        stream: 0,
        from: 0,
        to: 1000,
        at: At::Latest,
    };
    match engine.admit()?.answer(alloc, &query)? {
        Answer::Found {
            version,
            rows: Rows::Points(points),
        } => Ok(Some((version, points.as_slice().len()))),
        _ => Ok(None),
    }
}

/// What is seen of eight lanes: the first lane with wrong replies, the number of replies, the number of entries, and the latest version
/// of the stream with the number of its points.
type LanesSeen = (Option<usize>, usize, u64, Option<(u64, usize)>);

/// Eight lanes write to one stream and read it.
fn eight_lanes<R: Threads + Wait + Sync>(rt: &R, alloc: Global) -> Result<LanesSeen, Fail> {
    let first = script(alloc, &[b"create U"])?;
    let second = in_each_lane(alloc, &[b"insert U 0 1", b"info U latest"])?;
    let (report, engine) = run_both(rt, alloc, SOUND, first, second, false, &NoPace)?;
    let wrong = first_wrong_lane(&report.replies);
    let latest = latest(alloc, &engine)?;
    Ok((wrong, report.replies.len(), engine.entries(), latest))
}

/// Eight lanes write to one stream: each then reads at least its own version. In the end there are eight versions, with eight points.
#[test]
fn eight_lanes_read_what_they_wrote(rt: HostRuntime) -> Result<(), Fail> {
    let (wrong, replies, entries, latest) = eight_lanes(&rt, rt.alloc())?;
    assert!(rt; (replies, entries) == (16, 9));
    assert!(rt; latest == Some((8, 8)));
    no_wrong(wrong)
}

/// Two lanes that feed one stream.
const FEEDS: Lines<'static> = &[
    b"@1 feed U 1 1",
    b"@1 feed U 2 2",
    b"@1 flush U",
    b"@2 flush U",
    b"@2 discard U",
    b"@1 feed U 3 3",
    b"@1 discard U",
    b"@1 flush U",
];

/// The replies to those lines, if the device has room for one entry.
const FEED_REPLIES: &[u8] =
    b"held 1\nno full 3 1\nno full 3 1\nno empty\nheld 0\nno full 3 1\nheld 0\nno empty\n";

/// A lane has feeds of its own: what one lane feeds, another one does not flush. Points whose commit is refused wait still. There is room
/// for one entry: the create takes two of the three blocks, and a commit needs three, one of them for the leaf of its points.
#[test]
fn a_full_device_leaves_points_in_the_feed_of_their_lane(rt: HostRuntime) -> Result<(), Fail> {
    let device = Device {
        blocks: 8,
        failing: &[],
    };
    let first: Lines<'_> = &[b"create U"];
    let said = says(&rt, rt.alloc(), device, first, FEEDS, FEED_REPLIES)?;
    assert!(rt; said == (true, true, 1));
    Ok(())
}

/// Returns how many lanes saw the device fail, or nothing if one has other replies than those of a device that failed.
fn failures_in(alloc: Global, replies: &[LineReply]) -> Result<Option<u32>, AllocError> {
    let mut failures = 0u32;
    for lane in replies.chunks(3) {
        if have_text(alloc, lane, b"no device\nno stopped 2\nok 1 1\n1 1\n")? {
            failures = failures.saturating_add(1);
        } else if !have_text(alloc, lane, b"no stopped 2\nno stopped 2\nok 1 1\n1 1\n")? {
            return Ok(None);
        }
    }
    Ok(Some(failures))
}

/// Eight lanes write to a device that fails. Returns how many saw it fail, the number of replies, and the number of entries.
fn failed_lanes<R: Threads + Wait + Sync>(
    rt: &R,
    alloc: Global,
) -> Result<(Option<u32>, usize, u64), Fail> {
    let first = script(alloc, &[b"create U", b"insert U 1 1"])?;
    let lines: Lines<'_> = &[b"insert U 2 2", b"insert U 3 3", b"range U 0 5 latest"];
    let second = in_each_lane(alloc, lines)?;
    let device = Device {
        blocks: 64,
        failing: &[9],
    };
    let (report, entries) = ran(rt, alloc, device, first, second, false, &NoPace)?;
    let failures = failures_in(alloc, &report.replies)?;
    Ok((failures, report.replies.len(), entries))
}

/// Each entry takes four calls of the device. Of the third one, call 9 fails: its first sync. One lane gets that as its reply, and all
/// later lines that commit are refused, but questions are answered.
#[test]
fn one_lane_sees_the_device_fail(rt: HostRuntime) -> Result<(), Fail> {
    assert!(rt; failed_lanes(&rt, rt.alloc())? == (Some(1), 24, 2));
    Ok(())
}

/// The first turn ends when another turn has begun, or after waiting in vain.
#[derive(Drop)]
struct Beside {
    other: u32,
    begun: AtomicU32,
    beside: AtomicU32,
}

impl Beside {
    fn new(other: u32) -> Beside {
        Beside {
            other,
            begun: AtomicU32::new(0),
            beside: AtomicU32::new(0),
        }
    }
}

impl Pace for Beside {
    fn begun(&self, turn: u32) {
        if turn == self.other {
            self.begun.store(1, Ordering::SeqCst);
        }
    }

    fn ended(&self, turn: u32) {
        if turn == 0 && wait_for(&self.begun, 1) {
            self.beside.store(1, Ordering::SeqCst);
        }
    }
}

/// Two lanes: the first defines an output, and the second makes a stream.
const TWO_LANES: Lines<'static> = &[
    b"create V",
    b"insert V 0 10 10 20 20 30",
    b"distiller W sum 10 0 V",
    b"@1 create U",
];

/// What is seen of a run in which turn 0 waits for another one: whether the replies are the wanted ones, whether both turns met, the
/// number of entries, and whether the output is at its first version after the last round.
type Met = (bool, u32, u64, bool);

/// Runs two lanes, of which turn 0 waits for this one.
fn met_with<R: Threads + Wait + Sync>(
    rt: &R,
    alloc: Global,
    other: u32,
    materialize: bool,
) -> Result<Met, Fail> {
    let none = script(alloc, &[])?;
    let outputs = script(alloc, TWO_LANES)?;
    let pace = Beside::new(other);
    let (report, entries) = ran(rt, alloc, SOUND, none, outputs, materialize, &pace)?;
    let has_text = have_text(alloc, &report.replies, b"ok 0 0\nok 1 0\nok 0 0\nok 0 0\n")?;
    let beside = pace.beside.load(Ordering::SeqCst);
    Ok((has_text, beside, entries, is_first_version(&report.last)))
}

/// The turn that turn 0 waits for, whether there are rounds, and what is then seen.
const MEETINGS: &[(u32, bool, Met)] = &[
    (1, false, (true, 1, 4, false)),
    (1, true, (true, 1, 5, true)),
    (8, true, (true, 1, 5, true)),
];

fn first_wrong_meeting<R: Threads + Wait + Sync>(
    rt: &R,
    alloc: Global,
) -> Result<Option<usize>, Fail> {
    for (row, (other, materialize, wanted)) in MEETINGS.iter().enumerate() {
        if met_with(rt, alloc, *other, *materialize)? != *wanted {
            return Ok(Some(row));
        }
    }
    Ok(None)
}

/// Another lane, and the rounds, begin before the first lane has ended. A derived stream is up to date after rounds, with one version.
#[test]
fn lanes_and_rounds_run_beside_each_other(rt: HostRuntime) -> Result<(), Fail> {
    no_wrong(first_wrong_meeting(&rt, rt.alloc())?)
}

/// Begins the lanes after the rounds have ended, or the rounds after all lanes have ended. It may wait in vain.
#[derive(Drop)]
struct InOrder {
    are_rounds_first: bool,
    lanes: AtomicU32,
    rounds: AtomicU32,
}

impl InOrder {
    fn new(are_rounds_first: bool) -> InOrder {
        InOrder {
            are_rounds_first,
            lanes: AtomicU32::new(0),
            rounds: AtomicU32::new(0),
        }
    }
}

impl Pace for InOrder {
    fn begun(&self, turn: u32) {
        if turn < 8 && self.are_rounds_first {
            wait_for(&self.rounds, 1);
        }
        if turn == 8 && !self.are_rounds_first {
            wait_for(&self.lanes, 8);
        }
    }

    fn ended(&self, turn: u32) {
        if turn == 8 {
            self.rounds.fetch_add(1, Ordering::SeqCst);
        } else {
            self.lanes.fetch_add(1, Ordering::SeqCst);
        }
    }
}

/// A stream, and an output of it.
const OUTPUT: Lines<'static> = &[
    b"create V",
    b"insert V 0 10 10 20 20 30",
    b"distiller W sum 0 0 V",
];

/// Asks for the output in a run with rounds. Returns whether the reply is this one, whether the last round had this result for the output,
/// and the number of entries.
fn asked_in_order<R: Threads + Wait + Sync>(
    rt: &R,
    alloc: Global,
    are_rounds_first: bool,
    reply: &[u8],
    refreshed: Refreshed,
) -> Result<(bool, bool, u64), Fail> {
    let outputs = script(alloc, OUTPUT)?;
    let question = script(alloc, &[b"range W 0 40 latest"])?;
    let pace = InOrder::new(are_rounds_first);
    let (report, entries) = ran(rt, alloc, SOUND, outputs, question, true, &pace)?;
    let has_text = have_text(alloc, &report.replies, reply)?;
    Ok((has_text, has_result(&report.last, refreshed), entries))
}

/// A round that is made before a lane begins lands what the lane then reads. No round begins after all lanes have ended, so that the
/// last round lands it.
#[test]
fn rounds_are_made_while_lanes_run(rt: HostRuntime) -> Result<(), Fail> {
    let alloc = rt.alloc();
    let before = b"ok 1 3\n0 10\n10 20\n20 30\n".as_slice();
    let current = Refreshed::Current { version: 1 };
    let landed = Refreshed::Landed { version: 1 };
    assert!(rt; asked_in_order(&rt, alloc, true, before, current)? == (true, true, 4));
    assert!(rt; asked_in_order(&rt, alloc, false, b"ok 0 0\n", landed)? == (true, true, 4));
    Ok(())
}

/// Runs a script in one lane. Returns the number of replies, and whether another turn began while turn 0 waited for it.
fn one_lane<R: Threads + Wait + Sync>(rt: &R, alloc: Global) -> Result<(usize, u32), Fail> {
    let none = script(alloc, &[])?;
    let lines = script(alloc, &[b"create U", b"streams"])?;
    let pace = Beside::new(1);
    let (report, _) = ran(rt, alloc, SOUND, none, lines, false, &pace)?;
    Ok((report.replies.len(), pace.beside.load(Ordering::SeqCst)))
}

/// The lines of one lane need no thread: all lanes run in turn, so that no other lane begins before the first one has ended.
#[test]
fn a_script_in_one_lane_runs_in_turn(rt: HostRuntime) -> Result<(), Fail> {
    assert!(rt; one_lane(&rt, rt.alloc())? == (2, 0));
    Ok(())
}

/// Whether the last round left the one output, stream 1, at its first version.
fn is_first_version(last: &Option<Result<Report, AllocError>>) -> bool {
    has_result(last, Refreshed::Landed { version: 1 })
        || has_result(last, Refreshed::Current { version: 1 })
}

/// Whether the last round had this result for the one output.
fn has_result(last: &Option<Result<Report, AllocError>>, wanted: Refreshed) -> bool {
    match last {
        Some(Ok(report)) => match report.lines() {
            [line] => line.result == wanted,
            _ => false,
        },
        _ => false,
    }
}

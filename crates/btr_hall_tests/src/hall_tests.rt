//! Sessions in one thread and in many, over devices in memory. The expected values are worked out by hand.
ghost use Rattle.std.specs.Prelude.{◌≡◌, ℕ, ◌<◌, ◌≤◌, Bool, true, false, List, IfOk, IfSome};
ghost use Rattle.std.specs.Thread.{IsSync};
ghost use Rattle.btr_hist.specs.declared.entry.Entry.{Entry as EntrySpec};
ghost use Rattle.btr_gate.specs.Shares.{on_path};
ghost use Rattle.btr_plan.specs.Plan.{IsPlanOf};
ghost use Rattle.btr_engine.specs.Engine.{IsEngineOf, is_home};
ghost use Rattle.btr_hall.specs.Trace.{history_of};
ghost use Rattle.btr_hall.specs.Session.{IsSessionOf, opening_of, seen_of, share_of};
ghost use Rattle.btr_hall.specs.Commit.{is_distillate};

use crate::fixture::{Place, Stepped, User, begun_empty, close, points_of, sums};
use btr_base::{Bag, Ranges};
use btr_disk::{Disk, MemDisk};
use btr_distil::Plan;
use btr_engine::{Engine, Receipt, StepFault};
use btr_entry::decode;
use btr_hall::*;
use btr_hist::{Answer, At, Entry, Query, Rejection, Rows, Spec};
use btr_log::{Found, HEAD_BYTES, Log};
use btr_plan::{Next, next_plan};
use std::alloc::{AllocError, Global};
use std::sync::Wait;
use std::test::Fail;
use std::thread::{Threads, join};

/// A commit that adds points to a stream.
fn insert(alloc: Global, stream: u32, pairs: &[(i64, i64)]) -> Result<Entry, AllocError>
    ensures { IfOk result (λ e. is_distillate e ≡ false) }
{
    Ok(Entry::Commit {
        stream,
        cut: Ranges::none(alloc),
        added: Bag::from_points(points_of(alloc, pairs)?),
    })
}

/// Commits an entry. The helper says only what the tests need.
fn commit<R: Threads + Wait + Sync>(
    rt: &R,
    alloc: Global,
    hall: &Place,
    user: &mut User,
    entry: &Entry,
) -> Result<Receipt, StepFault>
    requires own { IsSessionOf hall.now user.old }
    requires user { is_distillate entry.now ≡ false }
    ensures own { IsSessionOf hall.now user.new }
    ensures share { share_of user.new ≡ share_of user.old }
{
    user.commit(rt, alloc, hall, entry)
}

/// Plans what an output needs now, if it needs anything.
fn plan_now<R: Wait>(
    rt: &R,
    alloc: Global,
    hall: &Place,
    user: &mut User,
    stream: u32,
) -> Result<Option<Plan>, AllocError>
    requires { IsSessionOf hall.now user.old }
    ensures own { IsSessionOf hall.now user.new }
    ensures share { share_of user.new ≡ share_of user.old }
    ensures planned { (h : List EntrySpec) → IsEngineOf h (opening_of hall.now)
        → IfOk result (λ o. IfSome o (IsPlanOf (history_of h (seen_of user.new)))) }
{
    let snapshot = user.admit(rt, hall)?;
    match next_plan(alloc, &snapshot, stream)? {
        Next::Plan(plan) => Ok(Some(plan)),
        Next::NotOutput | Next::UpToDate { .. } => Ok(None),
    }
}

/// Lands a plan. The helper says only what the tests need.
fn land<R: Threads + Wait + Sync>(
    rt: &R,
    alloc: Global,
    hall: &Place,
    user: &mut User,
    plan: &Plan,
) -> Result<Receipt, LandFault>
    requires own { IsSessionOf hall.now user.old }
    requires planned { (h : List EntrySpec) → IsEngineOf h (opening_of hall.now) → IsPlanOf (history_of h (seen_of user.old)) plan.now }
    ensures own { IsSessionOf hall.now user.new }
    ensures share { share_of user.new ≡ share_of user.old }
{
    user.land(rt, alloc, hall, plan, 1)
}

/// Returns the latest version of a stream and the number of its points from time 0 on.
fn latest<R: Wait>(
    rt: &R,
    alloc: Global,
    hall: &Place,
    user: &mut User,
    stream: u32,
) -> Option<(u64, usize)>
    requires { IsSessionOf hall.now user.old }
    ensures own { IsSessionOf hall.now user.new }
    ensures share { share_of user.new ≡ share_of user.old }
{
    let query = Query::Points {
        stream,
        from: 0,
        to: 1_000_000,
        at: At::Latest,
    };
    match user.ask(rt, alloc, hall, &query) {
        Ok(
            Answer::Found {
                version,
                rows: Rows::Points(points),
            },
        ) => Some((version, points.as_slice().len())),
        _ => None,
    }
}

/// Adds points to a stream, and returns whether they were accepted.
fn add_points<R: Threads + Wait + Sync>(
    rt: &R,
    alloc: Global,
    hall: &Place,
    user: &mut User,
    pairs: &[(i64, i64)],
) -> Result<bool, AllocError>
    requires { IsSessionOf hall.now user.old }
    ensures own { IsSessionOf hall.now user.new }
    ensures share { share_of user.new ≡ share_of user.old }
{
    let entry = insert(alloc, 0, pairs)?;
    Ok(commit(rt, alloc, hall, user, &entry).is_ok())
}

/// Makes a plain stream with three points, and an output of this spec. Returns whether all was accepted.
fn define<R: Threads + Wait + Sync>(
    rt: &R,
    alloc: Global,
    hall: &Place,
    user: &mut User,
    spec: Spec,
) -> Result<bool, AllocError>
    requires { IsSessionOf hall.now user.old }
    ensures own { IsSessionOf hall.now user.new }
    ensures share { share_of user.new ≡ share_of user.old }
{
    let is_created = commit(rt, alloc, hall, user, &Entry::Create { id: 7 }).is_ok();
    let is_added = add_points(rt, alloc, hall, user, &[(0, 10), (10, 20), (20, 30)])?;
    let is_defined = commit(rt, alloc, hall, user, &Entry::Define { id: 8, spec }).is_ok();
    Ok(is_created && is_added && is_defined)
}

/// Makes a plain stream, and an output with its first version, and adds a point to the plain stream. Returns whether all was accepted.
fn prepare<R: Threads + Wait + Sync>(
    rt: &R,
    alloc: Global,
    hall: &Place,
    user: &mut User,
) -> Result<bool, AllocError>
    requires { IsSessionOf hall.now user.old }
    ensures own { IsSessionOf hall.now user.new }
    ensures share { share_of user.new ≡ share_of user.old }
{
    let is_defined = define(rt, alloc, hall, user, sums(0))?;
    let Some(plan) = plan_now(rt, alloc, hall, user, 1)? else {
        return Ok(false);
    };
    let is_landed = land(rt, alloc, hall, user, &plan).is_ok();
    let is_changed = add_points(rt, alloc, hall, user, &[(5, 1)])?;
    Ok(is_defined && is_landed && is_changed)
}

/// The result of a landing.
type Landed = Result<Receipt, LandFault>;

/// Both users plan the next version of the output. The first one lands, and then the second one. Returns the results.
fn both_land<R: Threads + Wait + Sync>(
    rt: &R,
    alloc: Global,
    hall: &Place,
    first: &mut User,
    second: &mut User,
) -> Result<Option<(Landed, Landed)>, AllocError>
    requires { IsSessionOf hall.now first.old × IsSessionOf hall.now second.old }
    ensures own { IsSessionOf hall.now first.new × IsSessionOf hall.now second.new }
    ensures share { (share_of first.new ≡ share_of first.old) × (share_of second.new ≡ share_of second.old) }
{
    let Some(ours) = plan_now(rt, alloc, hall, first, 1)? else {
        return Ok(None);
    };
    let Some(theirs) = plan_now(rt, alloc, hall, second, 1)? else {
        return Ok(None);
    };
    let landed = land(rt, alloc, hall, first, &ours);
    let superseded = land(rt, alloc, hall, second, &theirs);
    Ok(Some((landed, superseded)))
}

/// What two users found: whether all was prepared, the results of their landings, and the latest version of the output and the number of
/// its points.
type Planned = (bool, Option<(Landed, Landed)>, Option<(u64, usize)>);

/// Both users plan and land after a change of the input, and the second one asks for the output.
fn both_plan<R: Threads + Wait + Sync>(
    rt: &R,
    alloc: Global,
    hall: &Place,
    first: &mut User,
    second: &mut User,
) -> Result<Planned, AllocError>
    requires { IsSessionOf hall.now first.old × IsSessionOf hall.now second.old }
    ensures own { IsSessionOf hall.now first.new × IsSessionOf hall.now second.new }
    ensures share { (share_of first.new ≡ share_of first.old) × (share_of second.new ≡ share_of second.old) }
{
    let is_prepared = prepare(rt, alloc, hall, first)?;
    let landed = both_land(rt, alloc, hall, first, second)?;
    let found = latest(rt, alloc, hall, second, 1);
    Ok((is_prepared, landed, found))
}

/// Splits the user, lets both plan and land, and lets them meet again.
fn two_plan<R: Threads + Wait + Sync>(
    rt: &R,
    alloc: Global,
    hall: &Place,
    first: &mut User,
) -> Result<Planned, AllocError>
    requires { IsSessionOf hall.now first.old }
    ensures own { IsSessionOf hall.now first.new }
    ensures share { (path : ℕ → Bool) → on_path path (share_of first.new) ≡ on_path path (share_of first.old) }
{
    let mut second = first.split(hall);
    let outcome = both_plan(rt, alloc, hall, first, &mut second);
    first.meet(hall, second);
    outcome
}

/// Returns what two users of a new hall found, and the number of its entries in the end.
fn planned_by_two<R: Threads + Wait + Sync>(rt: &R, alloc: Global) -> Result<(Planned, u64), Fail> {
    let (hall, mut user) = begun_empty(alloc, 64, &[])?;
    let outcome = two_plan(rt, alloc, &hall, &mut user);
    let engine = close(hall, user);
    Ok((outcome?, engine.entries()))
}

#[test]
fn a_plan_of_an_output_that_has_moved_is_superseded(rt: HostRuntime) -> Result<(), Fail> {
    let ((is_prepared, landed, found), entries) = planned_by_two(&rt, rt.alloc())?;
    let receipt = Receipt {
        number: 6,
        stream: 1,
        version: 2,
    };
    let superseded = LandFault::Superseded { version: 2 };
    assert!(rt; is_prepared);
    assert!(rt; landed == Some((Ok(receipt), Err(superseded))));
    assert!(rt; found == Some((2, 4)));
    assert!(rt; entries == 6);
    Ok(())
}

/// Returns the id of a stream. The helper says only what the tests need.
fn id<R: Wait>(rt: &R, hall: &Place, user: &mut User, stream: u32) -> Option<u128>
    requires { IsSessionOf hall.now user.old }
    ensures own { IsSessionOf hall.now user.new }
    ensures share { share_of user.new ≡ share_of user.old }
{
    user.id(rt, hall, stream)
}

/// What a user found: whether all was prepared, the results of two retirements of versions of the plain stream, and the ids of the
/// streams 1 and 2.
type Retired = (bool, Stepped, Stepped, Option<u128>, Option<u128>);

/// Retires a version that the output holds, and one that it does not, in a new hall.
fn retired<R: Threads + Wait + Sync>(rt: &R, alloc: Global) -> Result<(Retired, u64), Fail> {
    let (hall, mut user) = begun_empty(alloc, 64, &[])?;
    let is_prepared = prepare(rt, alloc, &hall, &mut user);
    let second = Entry::Retire {
        stream: 0,
        first: 2,
    };
    let held = commit(rt, alloc, &hall, &mut user, &second);
    let first = Entry::Retire {
        stream: 0,
        first: 1,
    };
    let done = commit(rt, alloc, &hall, &mut user, &first);
    let known = id(rt, &hall, &mut user, 1);
    let unknown = id(rt, &hall, &mut user, 2);
    let engine = close(hall, user);
    Ok(((is_prepared?, held, done, known, unknown), engine.entries()))
}

#[test]
fn the_output_that_holds_a_version_has_its_id(rt: HostRuntime) -> Result<(), Fail> {
    let ((is_prepared, held, done, known, unknown), entries) = retired(&rt, rt.alloc())?;
    let why = Rejection::Held {
        output: 1,
        version: 1,
    };
    let receipt = Receipt {
        number: 6,
        stream: 0,
        version: 0,
    };
    assert!(rt; is_prepared && held == Err(StepFault::Rejected(why)));
    assert!(rt; done == Ok(receipt) && entries == 6);
    assert!(rt; known == Some(8) && unknown.is_none());
    Ok(())
}

/// Commits the next point of a stream and asks for the stream at once. Returns whether the answer has the commit.
fn write_and_read<R: Threads + Wait + Sync>(
    rt: &R,
    alloc: Global,
    hall: &Place,
    user: &mut User,
    stream: u32,
    index: u32,
) -> bool
    requires { IsSessionOf hall.now user.old }
    ensures own { IsSessionOf hall.now user.new }
    ensures share { share_of user.new ≡ share_of user.old }
{
    let Ok(entry) = insert(alloc, stream, &[(i64::from(index), 1)]) else {
        return false;
    };
    let count = u64::from(index) + 1;
    match commit(rt, alloc, hall, user, &entry) {
        Ok(receipt) => {
            receipt.version == count
                && latest(rt, alloc, hall, user, stream) == Some((count, count as usize))
        }
        Err(_) => false,
    }
}

/// Writes and reads so often. Returns the number of good answers.
fn write_and_read_often<R: Threads + Wait + Sync>(
    rt: &R,
    alloc: Global,
    hall: &Place,
    user: User,
    stream: u32,
    count: u32,
) -> (User, u32)
    requires { IsSessionOf hall.now user }
    ensures own { IsSessionOf hall.now result.0 }
    ensures share { share_of result.0 ≡ share_of user }
{
    let mut user = user;
    let mut good = 0u32;
    for index in 0..count {
        if write_and_read(rt, alloc, hall, &mut user, stream, index) {
            good = good.wrapping_add(1);
        }
    }
    (user, good)
}

/// Two threads write to their own streams and read them, 250 times each. Returns the numbers of good answers.
fn two_write_and_read<R: Threads + Wait + Sync>(
    rt: &R,
    alloc: Global,
    hall: &Place,
    user: User,
) -> (User, u32, u32)
    requires { IsSessionOf hall.now user }
    ensures own { IsSessionOf hall.now result.0 }
    ensures share { (path : ℕ → Bool) → on_path path (share_of result.0) ≡ on_path path (share_of user) }
{
    let mut user = user;
    let other = user.split(hall);
    let ((mut user, here), (other, there)) = join(
        rt,
        || -> (User, u32)
            requires { IsSessionOf hall.now user }
            ensures own { IsSessionOf hall.entry.now result.0 }
            ensures share { share_of result.0 ≡ share_of user }
        { write_and_read_often(rt, alloc, hall, user, 0, 250) },
        || -> (User, u32)
            requires { IsSessionOf hall.now other }
            ensures own { IsSessionOf hall.entry.now result.0 }
            ensures share { share_of result.0 ≡ share_of other }
        { write_and_read_often(rt, alloc, hall, other, 1, 250) },
    );
    user.meet(hall, other);
    (user, here, there)
}

/// Makes plain streams with these numbers as ids.
fn create<R: Threads + Wait + Sync>(
    rt: &R,
    alloc: Global,
    hall: &Place,
    user: User,
    count: u32,
) -> (User, u32)
    requires { IsSessionOf hall.now user }
    ensures own { IsSessionOf hall.now result.0 }
    ensures share { share_of result.0 ≡ share_of user }
{
    let mut user = user;
    let mut made = 0u32;
    for id in 0..count {
        let entry = Entry::Create { id: u128::from(id) };
        if commit(rt, alloc, hall, &mut user, &entry).is_ok() {
            made = made.wrapping_add(1);
        }
    }
    (user, made)
}

/// Makes two streams in a new hall, and lets two threads write and read. Returns how many streams were made, the numbers of good answers,
/// and the number of entries in the end.
fn read_by_two<R: Threads + Wait + Sync>(
    rt: &R,
    alloc: Global,
) -> Result<(u32, u32, u32, u64), Fail> {
    let (hall, user) = begun_empty(alloc, 2000, &[])?;
    let (user, made) = create(rt, alloc, &hall, user, 2);
    let (user, here, there) = two_write_and_read(rt, alloc, &hall, user);
    let engine = close(hall, user);
    Ok((made, here, there, engine.entries()))
}

#[test]
fn each_of_two_threads_reads_its_own_commits(rt: HostRuntime) -> Result<(), Fail> {
    assert!(rt; read_by_two(&rt, rt.alloc())? == (2, 250, 250, 502));
    Ok(())
}

/// What a thread knows of its commit: its number, its stream, and the time of its point.
#[derive(Clone, Copy, PartialEq, Eq)]
struct Reported {
    number: u64,
    stream: u32,
    time: i64,
}

/// What some threads know of their commits, or nothing if a commit was refused or memory ran out.
type List = Option<Vec<Reported>>;

/// Commits a point to a stream, and adds its receipt to a list.
fn tell<R: Threads + Wait + Sync>(
    rt: &R,
    alloc: Global,
    hall: &Place,
    user: &mut User,
    list: List,
    stream: u32,
    time: i64,
) -> List
    requires { IsSessionOf hall.now user.old }
    ensures own { IsSessionOf hall.now user.new }
    ensures share { share_of user.new ≡ share_of user.old }
{
    let mut list = list?;
    let entry = insert(alloc, stream, &[(time, 1)]).ok()?;
    let receipt = commit(rt, alloc, hall, user, &entry).ok()?;
    let number = receipt.number;
    list.push(Reported {
        number,
        stream,
        time,
    })
    .ok()?;
    Some(list)
}

/// The time between two points of a stream, `2^51` nanoseconds. A slot of the root has `2^56`, so it has at most 32 points and is a leaf.
const APART: i64 = 2_251_799_813_685_248;

/// Commits this many points to a stream, one after another.
fn tell_often<R: Threads + Wait + Sync>(
    rt: &R,
    alloc: Global,
    hall: &Place,
    user: User,
    stream: u32,
    count: u32,
) -> (User, List)
    requires { IsSessionOf hall.now user }
    ensures own { IsSessionOf hall.now result.0 }
    ensures share { share_of result.0 ≡ share_of user }
{
    let mut user = user;
    let mut list = Some(Vec::new(alloc));
    for index in 0..count {
        let time = i64::from(index).wrapping_mul(APART);
        list = tell(rt, alloc, hall, &mut user, list, stream, time);
    }
    (user, list)
}

/// Both lists as one.
fn both(first: List, second: List) -> List {
    let mut all = first?;
    for reported in second? {
        all.push(reported).ok()?;
    }
    Some(all)
}

/// Lets this many threads commit 1250 points each, to as many streams from `first` on.
#[cycle(tell_by_threads)]
fn tell_by_threads<R: Threads + Wait + Sync>(
    rt: &R,
    alloc: Global,
    hall: &Place,
    user: User,
    first: u32,
    threads: u32,
) -> (User, List)
    requires crossing { IsSync R.row }
    requires own { IsSessionOf hall.now user }
    ensures own { IsSessionOf hall.now result.0 }
    ensures share { (path : ℕ → Bool) → on_path path (share_of result.0) ≡ on_path path (share_of user) }
{
    if threads <= 1 {
        return tell_often(rt, alloc, hall, user, first, 1250);
    }
    let half = threads / 2;
    let rest = threads - half;
    let second = first.wrapping_add(half);
    let mut user = user;
    let other = user.split(hall);
    let ((mut user, here), (other, there)) = join(
        rt,
        || -> (User, List)
            requires { IsSync R.row × IsSessionOf hall.now user }
            ensures own { IsSessionOf hall.entry.now result.0 }
            ensures share { (path : ℕ → Bool) → on_path path (share_of result.0) ≡ on_path path (share_of user) }
        { tell_by_threads(rt, alloc, hall, user, first, half) },
        || -> (User, List)
            requires { IsSync R.row × IsSessionOf hall.now other }
            ensures own { IsSessionOf hall.entry.now result.0 }
            ensures share { (path : ℕ → Bool) → on_path path (share_of result.0) ≡ on_path path (share_of other) }
        { tell_by_threads(rt, alloc, hall, other, second, rest) },
    );
    user.meet(hall, other);
    (user, both(here, there))
}

/// Returns the stream and the first time of the commit in the body of an extent.
fn commit_in(alloc: Global, body: &[u8], length: u64) -> Option<(u32, i64)> {
    let end = HEAD_BYTES.wrapping_add(length as usize);
    let entry = decode(alloc, body.get(HEAD_BYTES..end)?).ok()??;
    match entry {
        Entry::Commit { stream, added, .. } => Some((stream, added.as_slice().first()?.time)),
        _ => None,
    }
}

/// Returns what the body of an extent says, if it has a commit.
fn reported_in(alloc: Global, number: u64, body: &[u8], length: u64) -> Option<Reported> {
    let (stream, time) = commit_in(alloc, body, length)?;
    Some(Reported {
        number,
        stream,
        time,
    })
}

/// Returns the streams and times of the commits in the log of a device, with the number of each extent. The first eight extents
/// have no commit.
fn commits_on(alloc: Global, disk: MemDisk) -> List {
    let blocks = disk.blocks();
    if blocks <= 4 || blocks > 1 << 32 {
        return None;
    }
    let mut log = Log::at(disk, 4, blocks, 0);
    let mut gate = 4;
    let mut list = Vec::new(alloc);
    for number in 1..u64::MAX {
        if gate >= blocks {
            return None;
        }
        match log.read_extent(alloc, gate).ok()? {
            Found::Closed => return Some(list),
            Found::Extent { head, body, next } => {
                if head.number != number {
                    return None;
                }
                if number > 8 {
                    list.push(reported_in(alloc, number, &body, head.length)?)
                        .ok()?;
                }
                gate = next;
            }
        }
    }
    None
}

/// Returns whether the commits in the log are those of the receipts of the threads.
fn is_log_of(log: &[Reported], reported: &mut [Reported]) -> bool {
    reported.sort_unstable_by_key(|each| each.number);
    log == reported
}

/// Lets eight threads commit ten thousand points to a new hall. Returns how many streams were made, the receipts of the threads, and the
/// engine in the end.
///
/// An entry needs its block, one for each new node, and one for the next gate. Of the 1250 commits of a stream, 252 have one new node,
/// the leaf of all points. The next one has nine: eight leaves, since 253 points are in eight slots, and their root. Each of the other
/// 997 has a leaf and the root. So a stream needs `252*3 + 11 + 997*4 = 4755` blocks beside the two of its create, and all need 38056.
fn committed_by_eight<R: Threads + Wait + Sync>(
    rt: &R,
    alloc: Global,
) -> Result<(u32, List, Engine<MemDisk>), Fail>
    ensures home { IfOk result (λ r. is_home r.2 ≡ true) }
{
    let (hall, user) = begun_empty(alloc, 40_000, &[])?;
    let (user, made) = create(rt, alloc, &hall, user, 8);
    let (user, reported) = tell_by_threads(rt, alloc, &hall, user, 0, 8);
    let engine = close(hall, user);
    Ok((made, reported, engine))
}

/// Returns how many commits the threads have receipts of, and how many the log has, and whether they are the same.
fn compared(alloc: Global, reported: List, engine: Engine<MemDisk>) -> Option<(usize, usize, bool)>
    requires home { is_home engine ≡ true }
{
    let mut reported = reported?;
    let log = commits_on(alloc, engine.into_disk())?;
    let is_same = is_log_of(&log, &mut reported);
    Some((reported.len(), log.len(), is_same))
}

/// Eight threads commit ten thousand points. The log of the device has each commit at the number of its receipt.
#[test]
fn the_log_has_the_commits_of_eight_threads(rt: HostRuntime) -> Result<(), Fail> {
    let alloc = rt.alloc();
    let (made, reported, engine) = committed_by_eight(&rt, alloc)?;
    let entries = engine.entries();
    let compared = compared(alloc, reported, engine);
    assert!(rt; (made, entries) == (8, 10_008));
    assert!(rt; compared == Some((10_000, 10_000, true)));
    Ok(())
}

/// Makes a stream as the first user, and adds a point as the second one. Returns whether both were accepted and the hall is not stopped.
fn add_one<R: Threads + Wait + Sync>(
    rt: &R,
    alloc: Global,
    hall: &Place,
    first: &mut User,
    second: &mut User,
) -> Result<bool, AllocError>
    requires { IsSessionOf hall.now first.old × IsSessionOf hall.now second.old }
    ensures own { IsSessionOf hall.now first.new × IsSessionOf hall.now second.new }
    ensures share { (share_of first.new ≡ share_of first.old) × (share_of second.new ≡ share_of second.old) }
{
    let is_created = commit(rt, alloc, hall, first, &Entry::Create { id: 7 }).is_ok();
    let is_added = add_points(rt, alloc, hall, second, &[(3, 7)])?;
    let stopped = first.stopped(rt, hall);
    Ok(is_created && is_added && stopped == None)
}

/// The second user's step of an entry, the first user's, and the second user's again.
type Refused = [Option<StepFault>; 3];

/// Adds a point as the second user, as the first one, and as the second one. Returns why each was refused.
fn refused_thrice<R: Threads + Wait + Sync>(
    rt: &R,
    alloc: Global,
    hall: &Place,
    first: &mut User,
    second: &mut User,
) -> Result<Refused, AllocError>
    requires { IsSessionOf hall.now first.old × IsSessionOf hall.now second.old }
    ensures own { IsSessionOf hall.now first.new × IsSessionOf hall.now second.new }
    ensures share { (share_of first.new ≡ share_of first.old) × (share_of second.new ≡ share_of second.old) }
{
    let entry = insert(alloc, 0, &[(3, 7)])?;
    let failed = commit(rt, alloc, hall, second, &entry).err();
    let ours = commit(rt, alloc, hall, first, &entry).err();
    let theirs = commit(rt, alloc, hall, second, &entry).err();
    Ok([failed, ours, theirs])
}

/// What a user sees of a hall: the number of entries if it is stopped, the latest version of stream 0 and the number of its points, and
/// two ids.
type Sight = (
    Option<u64>,
    Option<(u64, usize)>,
    Option<FoundStream>,
    Option<FoundStream>,
);

fn sight_of<R: Wait>(rt: &R, alloc: Global, hall: &Place, user: &mut User) -> Sight
    requires { IsSessionOf hall.now user.old }
    ensures own { IsSessionOf hall.now user.new }
    ensures share { share_of user.new ≡ share_of user.old }
{
    let stopped = user.stopped(rt, hall);
    let found = latest(rt, alloc, hall, user, 0);
    let there = user.find(rt, hall, 7);
    let absent = user.find(rt, hall, 8);
    (stopped, found, there, absent)
}

/// What two users saw: whether the first entries were accepted in a hall that was not stopped, why later ones were refused, and what each
/// sees after that.
type Faulted = (bool, Refused, Sight, Sight);

/// The device fails in the second user's step. Then no user's entry is accepted, but questions are answered.
fn fail_and_go_on<R: Threads + Wait + Sync>(
    rt: &R,
    alloc: Global,
    hall: &Place,
    first: &mut User,
    second: &mut User,
) -> Result<Faulted, AllocError>
    requires { IsSessionOf hall.now first.old × IsSessionOf hall.now second.old }
    ensures own { IsSessionOf hall.now first.new × IsSessionOf hall.now second.new }
    ensures share { (share_of first.new ≡ share_of first.old) × (share_of second.new ≡ share_of second.old) }
{
    let is_added = add_one(rt, alloc, hall, first, second)?;
    let refused = refused_thrice(rt, alloc, hall, first, second)?;
    let ours = sight_of(rt, alloc, hall, first);
    let theirs = sight_of(rt, alloc, hall, second);
    Ok((is_added, refused, ours, theirs))
}

/// Splits the user, lets both go on over the fault, and lets them meet again.
fn two_fail<R: Threads + Wait + Sync>(
    rt: &R,
    alloc: Global,
    hall: &Place,
    first: &mut User,
) -> Result<Faulted, AllocError>
    requires { IsSessionOf hall.now first.old }
    ensures own { IsSessionOf hall.now first.new }
    ensures share { (path : ℕ → Bool) → on_path path (share_of first.new) ≡ on_path path (share_of first.old) }
{
    let mut second = first.split(hall);
    let outcome = fail_and_go_on(rt, alloc, hall, first, &mut second);
    first.meet(hall, second);
    outcome
}

/// Returns what two users of a hall saw whose device fails, and in the end the entries, whether the engine is stopped, and the faults of
/// the device. Each entry takes four calls of the device. Of the third one, call 9 fails: its first sync.
fn failed_for_two<R: Threads + Wait + Sync>(
    rt: &R,
    alloc: Global,
) -> Result<(Faulted, (u64, bool, u64)), Fail> {
    let (hall, mut user) = begun_empty(alloc, 64, &[9])?;
    let outcome = two_fail(rt, alloc, &hall, &mut user);
    let engine = close(hall, user);
    let entries = engine.entries();
    let is_stopped = engine.stopped();
    let faults = engine.into_disk().faults();
    Ok((outcome?, (entries, is_stopped, faults)))
}

/// What each user sees after the fault.
const AFTER_FAULT: Sight = (
    Some(2),
    Some((1, 1)),
    Some(FoundStream {
        stream: 0,
        spec: None,
    }),
    None,
);

#[test]
fn after_a_fault_of_the_device_questions_are_answered(rt: HostRuntime) -> Result<(), Fail> {
    let ((is_added, refused, ours, theirs), end) = failed_for_two(&rt, rt.alloc())?;
    let stopped = Some(StepFault::Stopped { entries: 2 });
    assert!(rt; is_added);
    assert!(rt; refused == [Some(StepFault::DeviceFault), stopped, stopped]);
    assert!(rt; ours == AFTER_FAULT && theirs == AFTER_FAULT);
    assert!(rt; end == (2, true, 1));
    Ok(())
}

/// Makes a stream and adds a point by the only session of a hall.
fn step_alone<R: Threads + Wait + Sync>(
    rt: &R,
    alloc: Global,
    hall: &Place,
    user: &mut User,
) -> Result<[Stepped; 2], AllocError>
    requires { IsSessionOf hall.now user.old }
    ensures own { IsSessionOf hall.now user.new }
    ensures share { share_of user.new ≡ share_of user.old }
{
    let entry = insert(alloc, 0, &[(3, 7)])?;
    let created = commit(rt, alloc, hall, user, &Entry::Create { id: 7 });
    let added = commit(rt, alloc, hall, user, &entry);
    Ok([created, added])
}

/// What the only session of a hall sees: the stream with the id 7 and its spec, the number of entries if the engine is stopped, and the
/// entries and the latest version of stream 0 in a snapshot.
type AloneSight = (Option<FoundStream>, Option<u64>, u64, Option<u64>);

fn sight_alone<R: Wait>(rt: &R, hall: &Place, user: &mut User) -> Result<AloneSight, AllocError>
    requires { IsSessionOf hall.now user.old }
    ensures own { IsSessionOf hall.now user.new }
    ensures share { share_of user.new ≡ share_of user.old }
{
    let found = user.find(rt, hall, 7);
    let stopped = user.stopped(rt, hall);
    let snapshot = user.admit(rt, hall)?;
    Ok((found, stopped, snapshot.entries(), snapshot.latest(0)))
}

/// What the only session of a hall saw: the stream with the id 7 before, the steps, and the sight after them.
type Alone = (Option<FoundStream>, [Stepped; 2], AloneSight);

/// Uses a hall by its only session.
fn use_alone<R: Threads + Wait + Sync>(
    rt: &R,
    alloc: Global,
    hall: &Place,
    user: &mut User,
) -> Result<Alone, AllocError>
    requires { IsSessionOf hall.now user.old }
    ensures own { IsSessionOf hall.now user.new }
    ensures share { share_of user.new ≡ share_of user.old }
{
    let before = user.find(rt, hall, 7);
    let stepped = step_alone(rt, alloc, hall, user)?;
    let after = sight_alone(rt, hall, user)?;
    Ok((before, stepped, after))
}

/// Returns what the only session of a new hall saw, and in the end the entries and whether the engine is stopped.
fn used_alone<R: Threads + Wait + Sync>(rt: &R, alloc: Global) -> Result<(Alone, u64, bool), Fail> {
    let (hall, mut user) = begun_empty(alloc, 64, &[])?;
    let outcome = use_alone(rt, alloc, &hall, &mut user);
    let engine = close(hall, user);
    Ok((outcome?, engine.entries(), engine.stopped()))
}

/// The receipt of an entry.
fn receipt(number: u64, stream: u32, version: u64) -> Stepped {
    Ok(Receipt {
        number,
        stream,
        version,
    })
}

#[test]
fn a_session_alone_is_used_as_an_engine(rt: HostRuntime) -> Result<(), Fail> {
    let ((before, stepped, after), entries, is_stopped) = used_alone(&rt, rt.alloc())?;
    let found = FoundStream {
        stream: 0,
        spec: None,
    };
    assert!(rt; before == None);
    assert!(rt; stepped == [receipt(1, 0, 0), receipt(2, 0, 1)]);
    assert!(rt; after == (Some(found), None, 2, Some(1)));
    assert!(rt; entries == 2 && !is_stopped);
    Ok(())
}

//! What the tests of several modules share: halls over devices in memory, the spec of an output, paces by which turns meet, and tables.
ghost use Rattle.std.specs.Prelude.{◌≡◌, ◌≤◌, true, IfOk};
ghost use Rattle.btr_super.specs.Super.{first_super};
ghost use Rattle.btr_engine.specs.Engine.{is_home};
ghost use Rattle.btr_engine.specs.Raise.{IsFollowable};
ghost use Rattle.btr_hall.specs.Session.{IsSessionOf, IsAlone};
ghost use Rattle.btr_jobs.specs.Jobs.{IsAt};

use btr_base::Point;
use btr_disk::{Capacity, MemDisk};
use btr_engine::{Board, Engine, Receipt, StepFault};
use btr_hall::{Hall, Session};
use btr_hist::{Kernel, Spec};
use btr_jobs::Pace;
use btr_log::Log;
use btr_super::Super;
use std::alloc::{AllocError, Global};
use std::snapshot::Snapshot as State;
use std::sync::atomic::{AtomicU32, Ordering};
use std::test::Fail;
use std::thread::yield_now;

/// A hall over a device in memory.
pub(crate) type Place = Hall<MemDisk>;

/// A session of such a hall.
pub(crate) type User = Session<MemDisk>;

/// The result of a step.
pub(crate) type Stepped = Result<Receipt, StepFault>;

/// Fails with the number of the first wrong row of a table, if there is one.
pub(crate) fn no_wrong(row: Option<usize>) -> Result<(), Fail> {
    match row {
        None => Ok(()),
        Some(number) => Err(Fail::new(format_args!("row {number} is wrong"))),
    }
}

/// Returns points with these times and values.
pub(crate) fn points_of(alloc: Global, pairs: &[(i64, i64)]) -> Result<Vec<Point>, AllocError> {
    let mut points = Vec::new(alloc);
    for &(time, value) in pairs {
        points.push(Point { time, value })?;
    }
    Ok(points)
}

/// The spec of an output of the sums of a stream over 10 ns.
pub(crate) fn sums(first: u32) -> Spec {
    Spec {
        kernel: Kernel::Sum,
        lead: 10,
        grain: 0,
        first,
        second: None,
    }
}

/// Returns an engine of no entries over a device of this many blocks. The calls of the device in the list fail.
pub(crate) fn empty(
    alloc: Global,
    blocks: u32,
    failing: &[u64],
) -> Result<Engine<MemDisk>, AllocError>
    requires { (8 ≤ blocks) × (blocks ≤ 100_000) }
    ensures home { IfOk result (λ e. is_home e ≡ true) }
{
    let count = blocks as usize;
    let capacity = Capacity {
        calls: 4 * count,
        blocks: 2 * count,
    };
    let disk = MemDisk::new(alloc, count, capacity, failing.to_vec(alloc)?)?;
    let synced = State::of(&disk);
    let log = Log::at(disk, 4, u64::from(blocks), 0);
    Ok(Engine::over(log, Board::empty(), first_super(blocks), synced))
}

/// Returns the superblock of an empty store of this many blocks. The engines of these tests are not opened, so no device has it.
pub(crate) fn first_super(blocks: u32) -> Super
    ensures first { result ≡ first_super blocks }
    ensures followable { IsFollowable result }
{
    Super {
        seq: 1,
        side: 0,
        blocks: u64::from(blocks),
        tail: 4,
        checkpoint: 0,
        format: 1,
    }
}

/// Makes a hall of an engine, and its first session.
pub(crate) fn begun(alloc: Global, engine: Engine<MemDisk>) -> Result<(Place, User), Fail>
    requires home { is_home engine ≡ true }
    ensures at { IfOk result (λ r. IsAt r.0 r.1) }
    ensures own { IfOk result (λ r. IsSessionOf r.0 r.1) }
    ensures alone { IfOk result (λ r. IsAlone r.1) }
{
    match Hall::begin(alloc, engine) {
        Ok(made) => Ok(made),
        Err(_) => Err("out of memory".into()),
    }
}

/// Makes a hall of an engine of no entries, over a device of this many blocks, and its first session. The calls of the device in the
/// list fail.
pub(crate) fn begun_empty(
    alloc: Global,
    blocks: u32,
    failing: &[u64],
) -> Result<(Place, User), Fail>
    requires { (8 ≤ blocks) × (blocks ≤ 100_000) }
    ensures at { IfOk result (λ r. IsAt r.0 r.1) }
    ensures own { IfOk result (λ r. IsSessionOf r.0 r.1) }
    ensures alone { IfOk result (λ r. IsAlone r.1) }
{
    begun(alloc, empty(alloc, blocks, failing)?)
}

/// Takes the engine out of a hall with one session.
pub(crate) fn close(hall: Place, user: User) -> Engine<MemDisk>
    requires own { IsSessionOf hall user }
    requires alone { IsAlone user }
    ensures home { is_home result ≡ true }
{
    hall.close(user)
}

/// Waits for at most a million tries until a count has come to a number. Returns whether it has.
pub(crate) fn wait_for(count: &AtomicU32, number: u32) -> bool {
    for _ in 0..1_000_000u32 {
        if count.load(Ordering::SeqCst) >= number {
            return true;
        }
        yield_now();
    }
    false
}

/// Counts the turns that begin, adds up the numbers of those that end, and keeps the number of the last of them. The turn 0 waits until
/// another one has begun.
#[derive(Drop)]
pub(crate) struct Meeting {
    begun: AtomicU32,
    ended: AtomicU32,
    last: AtomicU32,
    beside: AtomicU32,
}

/// What a meeting saw: how many turns began, the sum of those that ended, the last of them, and whether turn 0 met another one.
#[derive(Clone, Copy, PartialEq, Eq)]
pub(crate) struct Met {
    pub(crate) begun: u32,
    pub(crate) ended: u32,
    pub(crate) last: u32,
    pub(crate) beside: u32,
}

impl Meeting {
    pub(crate) fn new() -> Meeting {
        Meeting {
            begun: AtomicU32::new(0),
            ended: AtomicU32::new(0),
            last: AtomicU32::new(0),
            beside: AtomicU32::new(0),
        }
    }

    pub(crate) fn met(&self) -> Met {
        Met {
            begun: self.begun.load(Ordering::SeqCst),
            ended: self.ended.load(Ordering::SeqCst),
            last: self.last.load(Ordering::SeqCst),
            beside: self.beside.load(Ordering::SeqCst),
        }
    }
}

impl Pace for Meeting {
    fn begun(&self, turn: u32) {
        self.begun.fetch_add(1, Ordering::SeqCst);
        if turn == 0 && wait_for(&self.begun, 2) {
            self.beside.store(1, Ordering::SeqCst);
        }
    }

    fn ended(&self, turn: u32) {
        self.ended.fetch_add(turn, Ordering::SeqCst);
        self.last.store(turn, Ordering::SeqCst);
    }
}

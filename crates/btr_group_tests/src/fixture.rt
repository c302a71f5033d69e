//! What the tests share: a hall with one plain stream, groups of it, and what is left of them.
ghost use Rattle.std.specs.Prelude.{◌≡◌, ◌≤◌, true, IfOk};
ghost use Rattle.btr_engine.specs.Engine.{is_home};
ghost use Rattle.btr_hall.specs.Session.{IsSessionOf, IsAlone};
ghost use Rattle.btr_group.specs.Seats.{IsGroupSeat, HasWholeShare, first_session, share_by};

use btr_base::Point;
use btr_disk::{Capacity, MemDisk};
use btr_engine::{Board, Engine, Receipt};
use btr_group::{Closed, Group, OfferFault, Offered, Outcome, Seat};
use btr_hall::{Hall, Session};
use btr_hist::Entry;
use btr_log::Log;
use btr_super::Super;
use std::alloc::{AllocError, Global};
use std::marker::Sync;
use std::snapshot::Snapshot as State;
use std::sync::Wait;
use std::test::Fail;
use std::thread::Threads;

/// A hall over a device in memory.
pub(crate) type Place = Hall<MemDisk>;

/// A session of such a hall.
pub(crate) type User = Session<MemDisk>;

/// A group over a device in memory.
pub(crate) type Buffer = Group<MemDisk>;

/// A seat of such a group.
pub(crate) type Giver = Seat<MemDisk>;

/// The result of an offer.
pub(crate) type Put = Result<Offered, OfferFault>;

/// The superblock of an empty store of 1,000 blocks. No device has it, since the engine is not opened.
const FIRST: Super = Super {
    seq: 1,
    side: 0,
    blocks: 1000,
    tail: 4,
    checkpoint: 0,
    format: 1,
};

/// An engine of no entries over a device of 1,000 blocks.
fn engine(alloc: Global) -> Result<Engine<MemDisk>, AllocError>
    ensures home { IfOk result (λ e. is_home e ≡ true) }
{
    let capacity = Capacity {
        calls: 4000,
        blocks: 2000,
    };
    let device = MemDisk::new(alloc, 1000, capacity, Vec::new(alloc))?;
    let synced = State::of(&device);
    let log = Log::at(device, 4, 1000, 0);
    Ok(Engine::over(log, Board::empty(), FIRST, synced))
}

/// Makes a plain stream. The helper says only what the tests need.
fn create<R: Threads + Wait + Sync>(rt: &R, alloc: Global, hall: &Place, user: &mut User) -> bool
    requires own { IsSessionOf hall.now user.old }
    requires alone { IsAlone user.old }
    ensures own { IsSessionOf hall.now user.new }
    ensures alone { IsAlone user.new }
{
    user.commit(rt, alloc, hall, &Entry::Create { id: 7 })
        .is_ok()
}

/// Makes a hall with one plain stream, and its session. The store has one entry then, and its device had four calls.
fn with_stream<R: Threads + Wait + Sync>(rt: &R, alloc: Global) -> Result<(Place, User), Fail>
    ensures own { IfOk result (λ r. IsSessionOf r.0 r.1) }
    ensures alone { IfOk result (λ r. IsAlone r.1) }
{
    let Ok((hall, user)) = Hall::begin(alloc, engine(alloc)?) else {
        return Err("out of memory".into());
    };
    let mut user = user;
    if create(rt, alloc, &hall, &mut user) {
        Ok((hall, user))
    } else {
        let _ = hall.close(user);
        Err("the stream was not made".into())
    }
}

/// Makes a hall with one plain stream, a group of its session for that stream, and the first seat of the group.
pub(crate) fn begun<R: Threads + Wait + Sync>(
    rt: &R,
    alloc: Global,
    threshold: u32,
) -> Result<(Place, Buffer, Giver), Fail>
    requires { (1 ≤ threshold) × (threshold ≤ 65536) }
    ensures own { IfOk result (λ r. IsGroupSeat r.1 r.2) }
    ensures whole { IfOk result (λ r. HasWholeShare r.2) }
    ensures hall { IfOk result (λ r. IsSessionOf r.0 (first_session r.1)) }
    ensures alone { IfOk result (λ r. IsAlone (first_session r.1)) }
{
    let (hall, user) = with_stream(rt, alloc)?;
    match Group::begin(alloc, user, 0, threshold) {
        Ok((group, seat)) => Ok((hall, group, seat)),
        Err((user, _)) => {
            let _ = hall.close(user);
            Err("out of memory".into())
        }
    }
}

/// Points with these times and values.
pub(crate) fn points_of(alloc: Global, pairs: &[(i64, i64)]) -> Result<Vec<Point>, AllocError> {
    let mut points = Vec::with_capacity(alloc, pairs.len())?;
    for (time, value) in pairs.iter().copied() {
        points.push(Point { time, value })?;
    }
    Ok(points)
}

/// Offers points. The helper says only what the tests need.
pub(crate) fn offer<R: Threads + Wait + Sync>(
    rt: &R,
    alloc: Global,
    hall: &Place,
    group: &Buffer,
    seat: &mut Giver,
    points: &[Point],
) -> Put
    requires own { IsGroupSeat group.now seat.old }
    requires hall { IsSessionOf hall.now (first_session group.now) }
    ensures own { IsGroupSeat group.now seat.new }
    ensures share { share_by seat.new ≡ share_by seat.old }
{
    seat.offer(rt, alloc, hall, group, points)
}

/// The receipt of the first version of a batch that is the second entry of the store.
pub(crate) const SECOND: Outcome = Outcome::Stored(Receipt {
    number: 2,
    stream: 0,
    version: 1,
});

/// What is left of a group and its hall: the first ticket, the number of tickets, the number of points and the outcome of each settled
/// batch; the points of the open batch; the number of entries of the store, and of the calls of its device.
#[derive(Drop)]
pub(crate) struct Remains {
    pub(crate) batches: Vec<(u64, u64, usize, Outcome)>,
    pub(crate) left: Vec<Point>,
    pub(crate) entries: u64,
    pub(crate) calls: u64,
}

/// Closes a group, and the hall of its session.
pub(crate) fn close(
    alloc: Global,
    hall: Place,
    group: Buffer,
    seat: Giver,
) -> Result<Remains, AllocError>
    requires own { IsGroupSeat group seat }
    requires whole { HasWholeShare seat }
    requires hall { IsSessionOf hall (first_session group) }
    requires alone { IsAlone (first_session group) }
{
    let Closed {
        session,
        batches,
        left,
    } = group.close(seat);
    let engine = hall.close(session);
    let mut noted = Vec::with_capacity(alloc, batches.len())?;
    for batch in batches.iter() {
        let count = batch.points.as_slice().len();
        noted.push((batch.first, batch.tickets, count, batch.outcome))?;
    }
    let entries = engine.entries();
    Ok(Remains {
        batches: noted,
        left,
        entries,
        calls: engine.into_disk().calls(),
    })
}

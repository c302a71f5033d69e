//! The groups of all streams of a hall, and seats of them.
ghost use Rattle.std.specs.Prelude.{◌≡◌, ◌≤◌, IfOk, OnErr};
ghost use Rattle.btr_base.specs.declared.limits.TheConstants.{MAX_COMMIT_POINTS};
ghost use Rattle.btr_hall.specs.Session.{IsSessionOf};
ghost use Rattle.btr_group.specs.Sets.{AreSeatsOf, BeginsGroups, IsAsBefore, SplitsSeats, MeetsSeats};
ghost use Rattle.btr_group.specs.SetSteps.{BeginsNext, IsIdlePart, TakesBack, MayEnd};

use crate::group::{Closed, Group, Seat};
use btr_disk::Disk;
use btr_hall::{Hall, Session};
use std::alloc::{AllocError, Global};
use std::mem;
use std::snapshot::Snapshot as State;

/// Makes a group for each stream from 0 on, as many as `streams`, and the first seat of each. The session is split once for each group.
/// An offer leads a batch of at least `threshold` points, which is from 1 to 65,536.
///
/// It waits for no turn. It takes time and memory linear in `streams`. An `Err` means out of memory: the groups that were made are
/// closed, and the session is as good as before.
pub fn begin_groups<D: Disk>(
    alloc: Global,
    hall: &Hall<D>,
    session: &mut Session<D>,
    streams: u32,
    threshold: u32,
) -> Result<(Vec<Group<D>>, Vec<Seat<D>>), AllocError>
    requires session { IsSessionOf hall.now session.old }
    requires least { 1 ≤ threshold }
    requires most { threshold ≤ MAX_COMMIT_POINTS }
    ensures session { IsSessionOf hall.now session.new }
    ensures begins { IfOk result (λ r. BeginsGroups hall.now threshold streams session.old session.new r.0.items r.1.items) }
    ensures refused { OnErr result (IsAsBefore session.old session.new) }
{
    let before = State::of(&*session);
    let mut seats = Vec::with_capacity(alloc, streams as usize)?;
    let mut groups = Vec::with_capacity(alloc, streams as usize)?;
    for stream in 0..streams {
        match begin_next(alloc, hall, session, stream, threshold) {
            Ok((group, seat)) => {
                groups.push_reserved(group);
                seats.push_reserved(seat);
            }
            Err(error) => {
                end_groups(hall, before, session, groups, seats);
                return Err(error);
            }
        }
    }
    Ok((groups, seats))
}

/// Splits the session, and makes a group of the new part. After an `Err` the session is as good as before.
fn begin_next<D: Disk>(
    alloc: Global,
    hall: &Hall<D>,
    session: &mut Session<D>,
    stream: u32,
    threshold: u32,
) -> Result<(Group<D>, Seat<D>), AllocError>
    requires session { IsSessionOf hall.now session.old }
    requires least { 1 ≤ threshold }
    requires most { threshold ≤ MAX_COMMIT_POINTS }
    ensures session { IsSessionOf hall.now session.new }
    ensures begins { IfOk result (λ r. BeginsNext hall.now stream threshold session.old session.new r.0 r.1) }
    ensures refused { OnErr result (IsAsBefore session.old session.new) }
{
    let other = session.split(hall);
    match Group::begin(alloc, other, stream, threshold) {
        Ok(begun) => Ok(begun),
        Err((other, error)) => {
            take_back(hall, session, other);
            Err(error)
        }
    }
}

/// Closes the groups, none of which was used, and takes their sessions back. `before` is the session of which they were split.
fn end_groups<D: Disk>(
    hall: &Hall<D>,
    before: State<Session<D>>,
    session: &mut Session<D>,
    groups: Vec<Group<D>>,
    seats: Vec<Seat<D>>,
)
    requires session { IsSessionOf hall.now session.old }
    requires may { MayEnd hall.now before.value session.old groups.items seats.items }
    ensures session { IsSessionOf hall.now session.new }
    ensures back { IsAsBefore before.value session.new }
{
    let mut groups = groups;
    let mut seats = seats;
    while let Some(group) = groups.pop() {
        let Some(seat) = seats.pop() else {
            unreachable!()
        };
        let Closed { session: other, .. } = group.close(seat);
        take_back(hall, session, other);
    }
    groups.destroy_empty();
}

/// Takes back a part of the session, which has seen the same and has no items of its own.
fn take_back<D: Disk>(hall: &Hall<D>, session: &mut Session<D>, other: Session<D>)
    requires session { IsSessionOf hall.now session.old }
    requires other { IsSessionOf hall.now other }
    requires idle { IsIdlePart session.old other }
    ensures session { IsSessionOf hall.now session.new }
    ensures takes { TakesBack session.old other session.new }
{
    // The part without items takes in the one with items, whose numbers then stay as they are.
    let first = mem::replace(session, other);
    session.meet(hall, first);
}

/// Splits a seat of each group. It waits for no turn, and takes time and memory linear in the groups. An `Err` means out of memory, and
/// the seats are as before.
pub fn split_seats<D: Disk>(
    alloc: Global,
    groups: &[Group<D>],
    seats: &mut Vec<Seat<D>>,
) -> Result<Vec<Seat<D>>, AllocError>
    requires seats { AreSeatsOf groups.now seats.old.items }
    ensures seats { AreSeatsOf groups.now seats.new.items }
    ensures others { IfOk result (λ others. AreSeatsOf groups.now others.items) }
    ensures splits { IfOk result (λ others. SplitsSeats seats.old.items seats.new.items others.items) }
    ensures refused { OnErr result (seats.new ≡ seats.old) }
{
    let mut others = Vec::with_capacity(alloc, groups.len())?;
    for place in 0..groups.len() {
        let other = seats[place].split(&groups[place]);
        others.push_reserved(other);
    }
    Ok(others)
}

/// Each seat takes in the one of `others` at its place. It waits for no turn, and takes time linear in the items of both, and no memory.
pub fn meet_seats<D: Disk>(groups: &[Group<D>], seats: &mut Vec<Seat<D>>, others: Vec<Seat<D>>)
    requires seats { AreSeatsOf groups.now seats.old.items }
    requires others { AreSeatsOf groups.now others.items }
    ensures seats { AreSeatsOf groups.now seats.new.items }
    ensures meets { MeetsSeats seats.old.items others.items seats.new.items }
{
    let mut place = 0;
    for other in others {
        seats[place].meet(&groups[place], other);
        place += 1;
    }
}

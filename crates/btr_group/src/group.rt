//! The group and its seats: the beginning and the close.
ghost use Rattle.std.specs.Prelude.{◌≡◌, ◌≤◌, false};
ghost use Rattle.btr_base.specs.declared.limits.TheConstants.{MAX_COMMIT_POINTS};
ghost use Rattle.btr_gate.specs.declared.view.Stage.TheVariants.{Idle};
ghost use Rattle.btr_gate.specs.Gates.{view};

use crate::state::GroupState;
use btr_base::{Bag, Point};
use btr_disk::Disk;
use btr_feed::Feed;
use btr_gate::{Gate, Pass};
use btr_hall::{GroupItem, Outcome, Session};
use std::alloc::{AllocError, Global};
use std::snapshot::Snapshot as State;

/// The setting of a group. No value of it is made.
pub struct GroupSetting<D: Disk> {
    /// The session with which the group began.
    pub session: Session<D>,
    /// The number of the stream.
    pub stream: u32,
    /// The number of points at which a batch is led.
    pub threshold: u32,
}

/// A batch and its outcome.
#[derive(Drop)]
pub struct SettledBatch {
    /// The ticket of its first offer.
    pub first: u64,
    /// The number of its tickets.
    pub tickets: u64,
    /// The points of its tickets, in order.
    pub points: Bag,
    /// The result of its commit.
    pub outcome: Outcome,
}

/// What is left of a group that is closed.
#[derive(Drop)]
pub struct Closed<D: Disk> {
    /// The session of the group.
    pub session: Session<D>,
    /// The settled batches, in order.
    pub batches: Vec<SettledBatch>,
    /// The points of the open batch, in the order of the offers. They are not committed.
    pub left: Vec<Point>,
}

/// A buffer of one stream for many threads, which share it by `&`. Each uses a seat of its own.
///
/// It has no `Drop`: call [`Group::close`] to take the session out.
pub struct Group<D: Disk> {
    pub(crate) gate: Gate<GroupState<D>, GroupItem, GroupSetting<D>>,
    pub(crate) stream: u32,
    /// The number of points at which a batch is led, for contracts alone.
    pub(crate) threshold: u32,
    /// The session with which the group began, for contracts alone.
    pub(crate) start: State<Session<D>>,
}

/// What one user of a group has seen of its list, and which items of the list are its own. It may go to another thread. It has no
/// bytes.
///
/// A seat that is dropped keeps its share, so the group can no more be closed.
#[derive(Drop)]
pub struct Seat<D: Disk> {
    pub(crate) pass: Pass<GroupState<D>, GroupItem, GroupSetting<D>>,
    ghost idle: { (view pass).stage ≡ Idle },
    ghost home: { (view pass).carries ≡ false },
}

impl<D: Disk> Group<D> {
    ghost use Rattle.std.specs.Prelude.{IfOk, IfErr};
    ghost use Rattle.btr_group.specs.Seats.{IsGroupSeat, HasWholeShare, BeginsGroup, HasEachItemOnce, first_session, seen_by};
    ghost use Rattle.btr_hall.specs.GroupBook.{book};
    ghost use Rattle.btr_group.specs.Serves.{CommitsEach};
    ghost use Rattle.btr_group.specs.Close.{ClosesGroup, ComesBack, CommitsInHalls};

    /// Makes a group of a session for a stream, and its first seat. An offer leads a batch of at least `threshold` points, which is
    /// from 1 to 65,536. It takes a constant amount of memory. An `Err` means out of memory, and returns the session.
    pub fn begin(
        alloc: Global,
        session: Session<D>,
        stream: u32,
        threshold: u32,
    ) -> Result<(Group<D>, Seat<D>), (Session<D>, AllocError)>
        requires least { 1 ≤ threshold }
        requires most { threshold ≤ MAX_COMMIT_POINTS }
        ensures begins { IfOk result (λ r. BeginsGroup session stream threshold r.0 r.1) }
        ensures refused { IfErr result (λ r. r.0 ≡ session) }
    {
        let start = State::of(&session);
        let state = GroupState {
            start: State::of(&session),
            session: Some(session),
            filling: Feed::new(alloc, stream, threshold),
            first: 0,
            given: 0,
            settled: Vec::new(alloc),
            items: 0,
        };
        match Gate::begin(alloc, state) {
            Ok((gate, pass)) => Ok((
                Group {
                    gate,
                    stream,
                    threshold,
                    start,
                },
                Seat { pass },
            )),
            Err((state, error)) => {
                let GroupState { session, .. } = state;
                let Some(session) = session else {
                    unreachable!()
                };
                Err((session, error))
            }
        }
    }

    /// Takes the session out, with the settled batches and the points that are left. The seat is the last one of the group, since
    /// its share covers: no batch is out. It takes constant time and no memory.
    ///
    /// The commits that the session made since the group began are the batches that are settled as stored, in order, each with the
    /// sorted points of its tickets. Each ticket is in one batch or among those left.
    pub fn close(self, seat: Seat<D>) -> Closed<D>
        requires seat { IsGroupSeat self seat }
        requires whole { HasWholeShare seat }
        ensures closes { ClosesGroup (book (seen_by seat)) result }
        ensures once { HasEachItemOnce seat }
        ensures session { ComesBack (first_session self) result.session }
        ensures served { CommitsInHalls self.stream (first_session self) (book (seen_by seat)).settled result.session }
        ensures commits { CommitsEach self.stream (first_session self) (book (seen_by seat)).settled result.session }
    {
        let Group {
            gate,
            stream: _,
            threshold: _,
            start: _,
        } = self;
        let Seat { pass } = seat;
        let GroupState {
            session,
            filling,
            settled,
            ..
        } = gate.close(pass);
        let Some(session) = session else {
            unreachable!()
        };
        let mut filling = filling;
        Closed {
            session,
            batches: settled,
            left: filling.take(),
        }
    }
}

//! The commit of a batch that is out, and the turn that settles it.
ghost use Rattle.std.specs.Prelude.{◌≡◌, ℕ, List, []};
ghost use Rattle.btr_base.specs.Range.{RangeValue};
ghost use Rattle.btr_base.specs.declared.point.Point.{Point};
ghost use Rattle.btr_base.specs.Bag.{sort};
ghost use Rattle.btr_hist.specs.declared.entry.Entry.TheVariants.{Commit};
ghost use Rattle.btr_gate.specs.Gates.{IsPassOf, view};
ghost use Rattle.btr_hall.specs.Session.{IsSessionOf};
ghost use Rattle.btr_group.specs.Seats.{first_session, setting_of};
ghost use Rattle.btr_group.specs.Serves.{commit_result, IsCommitIn};
ghost use Rattle.btr_group.specs.Turns.{MayCarry, CommitsLed, MaySettle, Carries};

use crate::group::{Group, GroupSetting, SettledBatch};
use crate::led::Led;
use crate::state::GroupState;
use btr_base::{Bag, Ranges};
use btr_disk::Disk;
use btr_engine::{Receipt, StepFault};
use btr_gate::Pass;
use btr_hall::{GroupItem, Hall, Outcome, Session};
use btr_hist::Entry;
use std::alloc::Global;
use std::marker::Sync;
use std::sync::Wait;
use std::thread::Threads;

/// A pass of the gate of a group.
pub(crate) type GroupPass<D> = Pass<GroupState<D>, GroupItem, GroupSetting<D>>;

/// Commits the batch that is out, and settles it in a turn. Others have their turns while it is committed.
pub(crate) fn carry<R: Threads + Wait + Sync, D: Disk>(
    rt: &R,
    alloc: Global,
    hall: &Hall<D>,
    group: &Group<D>,
    pass: &mut GroupPass<D>,
    led: Led<D>,
) -> Outcome
    requires own { IsPassOf group.now.gate pass.old }
    requires hall { IsSessionOf hall.now (first_session group.now) }
    requires may { MayCarry (setting_of group.now) (view pass.old) led }
    ensures own { IsPassOf group.now.gate pass.new }
    ensures carries { Carries (view pass.old) (view pass.new) result }
    ensures commit { IsCommitIn hall.now (Commit group.now.stream [] (sort led.points.items)) (commit_result result) }
{
    let (session, batch) = commit_led(rt, alloc, hall, group.stream, led);
    settle_in(rt, group, pass, session, batch)
}

/// Commits a batch.
fn commit_led<R: Threads + Wait + Sync, D: Disk>(
    rt: &R,
    alloc: Global,
    hall: &Hall<D>,
    stream: u32,
    led: Led<D>,
) -> (Session<D>, SettledBatch)
    requires hall { IsSessionOf hall.now led.session }
    ensures commits { CommitsLed stream led result.0 result.1 }
    ensures commit { IsCommitIn hall.now (Commit stream [] (sort led.points.items)) (commit_result result.1.outcome) }
{
    let Led {
        session,
        first,
        tickets,
        points,
    } = led;
    let mut session = session;
    let entry = Entry::Commit {
        stream,
        cut: Ranges::none(alloc),
        added: Bag::from_points(points),
    };
    let outcome = outcome_of(session.commit(rt, alloc, hall, &entry));
    let batch = SettledBatch {
        first,
        tickets,
        points: points_of(alloc, entry),
        outcome,
    };
    (session, batch)
}

/// Settles a batch in a turn.
fn settle_in<R: Wait, D: Disk>(
    rt: &R,
    group: &Group<D>,
    pass: &mut GroupPass<D>,
    session: Session<D>,
    batch: SettledBatch,
) -> Outcome
    requires own { IsPassOf group.now.gate pass.old }
    requires may { MaySettle (setting_of group.now) (view pass.old) session batch }
    ensures own { IsPassOf group.now.gate pass.new }
    ensures carries { Carries (view pass.old) (view pass.new) result }
    ensures outcome { result ≡ batch.outcome }
{
    let outcome = batch.outcome;
    let mut turn = group.gate.enter(rt, pass);
    turn.state.settle(session, batch);
    turn.added = Some(GroupItem::Settle { outcome });
    group.gate.leave(pass, turn);
    outcome
}

/// Returns the points that a commit adds. It takes no memory.
fn points_of(alloc: Global, entry: Entry) -> Bag
    ensures { (stream : ℕ) (cut : List RangeValue) (added : List Point) → entry ≡ Commit stream cut added → result ≡ added }
{
    match entry {
        Entry::Commit { added, .. } => added,
        _ => Bag::from_points(Vec::new(alloc)),
    }
}

/// What is noted of the result of a commit.
fn outcome_of(returned: Result<Receipt, StepFault>) -> Outcome
    ensures { commit_result result ≡ returned }
{
    match returned {
        Ok(receipt) => Outcome::Stored(receipt),
        Err(fault) => Outcome::Refused(fault),
    }
}

//! Tests of a leader and its follower, played: the lengths of their histories.
use crate::fixture::ID;
use btr_core::{Event, What};
use btr_follow::{FollowEvent, Lengths, world};
use btr_hist::Entry;
use std::alloc::{AllocError, Global};
use std::test::Fail;

/// What happens, in a table: a stream is made, or the event of that name.
#[derive(Clone, Copy)]
enum Happens {
    Create(u128),
    Ship(u64),
    Deliver(u64),
    Torn(u64, bool),
}

/// An event, and the lengths of leader and follower and what is acknowledged after it.
type Row = (Happens, [u64; 3]);

/// A frame is kept by a follower that stops, and comes again.
const KEPT: &[Row] = &[
    (Happens::Create(ID), [1, 0, 0]),
    (Happens::Ship(1), [1, 0, 0]),
    (Happens::Torn(0, true), [1, 1, 1]),
    (Happens::Deliver(0), [1, 1, 1]),
];

/// Frames are lost, come early, and are not there.
const LOST: &[Row] = &[
    (Happens::Ship(1), [0, 0, 0]),
    (Happens::Create(7), [1, 0, 0]),
    (Happens::Create(8), [2, 0, 0]),
    (Happens::Ship(2), [2, 0, 0]),
    (Happens::Deliver(0), [2, 0, 0]),
    (Happens::Ship(1), [2, 0, 0]),
    (Happens::Torn(1, false), [2, 0, 0]),
    (Happens::Deliver(1), [2, 1, 1]),
    (Happens::Deliver(2), [2, 1, 1]),
    (Happens::Deliver(0), [2, 2, 2]),
    (Happens::Create(8), [2, 2, 2]),
];

/// Returns the event of a row.
fn event_of(happens: Happens) -> FollowEvent {
    match happens {
        Happens::Create(id) => FollowEvent::Lead(Event {
            actor: 1,
            what: What::Commit(Entry::Create { id }),
        }),
        Happens::Ship(number) => FollowEvent::Ship(number),
        Happens::Deliver(frame) => FollowEvent::Deliver(frame),
        Happens::Torn(frame, kept) => FollowEvent::Torn { frame, kept },
    }
}

/// Plays the events of a table, and returns the lengths after each.
fn played(alloc: Global, rows: &[Row]) -> Result<Vec<Lengths>, AllocError> {
    let mut events = Vec::new(alloc);
    for (happens, _) in rows {
        events.push(event_of(*happens))?;
    }
    world(alloc, &events)
}

/// Returns whether these are the lengths of a table.
fn are_as_said(rows: &[Row], lengths: &[Lengths]) -> bool {
    rows.len() == lengths.len()
        && rows.iter().zip(lengths.iter()).all(|(row, lengths)| {
            row.1 == [lengths.leader, lengths.follower, lengths.acked]
        })
}

#[test]
fn a_kept_entry_is_found_after_a_stop(rt: HostRuntime) -> Result<(), Fail> {
    let lengths = played(rt.alloc(), KEPT)?;
    assert!(rt; are_as_said(KEPT, &lengths));
    Ok(())
}

#[test]
fn frames_come_in_any_order(rt: HostRuntime) -> Result<(), Fail> {
    let lengths = played(rt.alloc(), LOST)?;
    assert!(rt; are_as_said(LOST, &lengths));
    Ok(())
}

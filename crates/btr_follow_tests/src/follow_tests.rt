//! Tests of a follower: what it answers, and what it has.
use crate::fixture::{FIRST, MemFollower, SECOND, frames};
use btr_follow::{EntryBytes, Frame, Heard};
use std::alloc::Global;
use std::test::Fail;

#[test]
fn each_entry_is_taken_once(rt: HostRuntime) -> Result<(), Fail> {
    let bytes = frames(rt.alloc())?;
    let mut follower = MemFollower::fresh(rt.alloc())?;
    let first = follower.hear_all(rt.alloc(), &bytes)?;
    let second = follower.hear_all(rt.alloc(), &bytes)?;
    assert!(rt; first.as_slice() == [Heard::Taken(1), Heard::Taken(2)].as_slice());
    assert!(rt; second.as_slice() == [Heard::Stale { entries: 2 }; 2].as_slice());
    Ok(())
}

/// Hears bytes on an empty store, and returns the first answer and the number of acknowledged entries.
fn first_answer(alloc: Global, bytes: &[u8]) -> Result<(Option<Heard>, u64), Fail> {
    let mut follower = MemFollower::fresh(alloc)?;
    let answers = follower.hear_all(alloc, bytes)?;
    Ok((answers.first().copied(), follower.acked()))
}

#[test]
fn an_entry_before_is_missing(rt: HostRuntime) -> Result<(), Fail> {
    let early = first_answer(rt.alloc(), &SECOND)?;
    let taken = first_answer(rt.alloc(), &FIRST)?;
    assert!(rt; early == (Some(Heard::Early { entries: 0 }), 0));
    assert!(rt; taken == (Some(Heard::Taken(1)), 1));
    Ok(())
}

/// Hears a frame with this number and these bytes on an empty store.
fn answer_to(alloc: Global, number: u64, bytes: &[u8]) -> Result<Option<Heard>, Fail> {
    let frame = Frame {
        number,
        bytes: EntryBytes::copied(alloc, bytes)?,
    };
    let mut follower = MemFollower::fresh(alloc)?;
    Ok(follower.hear(alloc, &frame).ok())
}

#[test]
fn a_frame_is_answered_by_its_first_cause(rt: HostRuntime) -> Result<(), Fail> {
    let entry = SECOND.as_slice().split_at(20).1;
    let stale = answer_to(rt.alloc(), 0, &[9])?;
    let garbled = answer_to(rt.alloc(), 1, &[9])?;
    let foreign = answer_to(rt.alloc(), 1, entry)?;
    assert!(rt; stale == Some(Heard::Stale { entries: 0 }));
    assert!(rt; (garbled, foreign) == (Some(Heard::Garbled), Some(Heard::Foreign)));
    Ok(())
}

#[test]
fn a_promoted_follower_answers(rt: HostRuntime) -> Result<(), Fail> {
    let bytes = frames(rt.alloc())?;
    let mut follower = MemFollower::fresh(rt.alloc())?;
    let answers = follower.hear_all(rt.alloc(), &bytes)?;
    let points = follower.into_points(rt.alloc())?;
    assert!(rt; answers.len() == 2);
    assert!(rt; points.as_slice() == [(0, 5), (3, 7), (4, -2)].as_slice());
    Ok(())
}

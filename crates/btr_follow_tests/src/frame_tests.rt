//! Tests of frames: what a store ships, byte by byte, and what is read.
use crate::fixture::{FIRST, SECOND, frames, shipped, shipped_around};
use btr_follow::read_frames;
use std::alloc::Global;
use std::test::Fail;

#[test]
fn a_store_ships_all_entries(rt: HostRuntime) -> Result<(), Fail> {
    let wanted = frames(rt.alloc())?;
    let (count, bytes) = shipped(rt.alloc(), 1)?;
    assert!(rt; count == 2);
    assert!(rt; bytes.as_slice() == wanted.as_slice());
    Ok(())
}

#[test]
fn a_store_ships_the_last_entry(rt: HostRuntime) -> Result<(), Fail> {
    let (count, bytes) = shipped(rt.alloc(), 2)?;
    assert!(rt; count == 1);
    assert!(rt; bytes.as_slice() == SECOND.as_slice());
    Ok(())
}

#[test]
fn a_store_ships_nothing_after_its_last_entry(rt: HostRuntime) -> Result<(), Fail> {
    let (count, bytes) = shipped(rt.alloc(), 3)?;
    assert!(rt; count == 0);
    assert!(rt; bytes.is_empty());
    Ok(())
}

/// The sync and the superblocks take two calls, the gate of each extent one, and the rest of a body one more, if there is one. The commit
/// has a page, so its body has two blocks.
#[test]
fn a_log_is_read_from_its_checkpoint(rt: HostRuntime) -> Result<(), Fail> {
    let last = shipped_around(rt.alloc(), 3)?;
    let two = shipped_around(rt.alloc(), 2)?;
    assert!(rt; last == (1, 5));
    assert!(rt; two == (2, 9));
    Ok(())
}

/// Returns the number of frames that the first bytes of both frames begin with, the number of the first of them, and the bytes after them.
fn read_prefix(alloc: Global, length: usize) -> Result<(usize, u64, u64), Fail> {
    let bytes = frames(alloc)?;
    let Some(prefix) = bytes.as_slice().get(..length) else {
        return Err("there are fewer bytes".into());
    };
    let found = read_frames(alloc, prefix)?;
    let frames = found.frames.as_slice();
    let first = match frames {
        [] => 0,
        [frame, ..] => frame.number,
    };
    Ok((frames.len(), first, found.rest))
}

#[test]
fn whole_frames_are_read(rt: HostRuntime) -> Result<(), Fail> {
    let all = read_prefix(rt.alloc(), 126)?;
    let one = read_prefix(rt.alloc(), 100)?;
    let none = read_prefix(rt.alloc(), 36)?;
    assert!(rt; (all, one, none) == ((2, 1, 0), (1, 1, 63), (0, 0, 36)));
    Ok(())
}

#[test]
fn the_bytes_of_an_entry_are_read(rt: HostRuntime) -> Result<(), Fail> {
    let found = read_frames(rt.alloc(), &FIRST)?;
    if let [frame] = found.frames.as_slice() {
        assert!(rt; frame.bytes.as_slice() == FIRST.as_slice().split_at(20).1);
        return Ok(());
    }
    Err("it has other frames".into())
}

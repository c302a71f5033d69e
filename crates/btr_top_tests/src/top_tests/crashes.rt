//! A crash inside each call of a commit: what the blocks that are not synced may hold, and what the store then has.
ghost use Rattle.std.specs.Prelude.{◌≡◌, ◌%◌, length, IfOk};

use super::fixture::{device_of, no_wrong, run_on, store_of};
use std::alloc::{AllocError, Global};
use std::sync::Wait;
use std::test::Fail;
use std::thread::Threads;

/// What a block that was written and not synced may hold: its bytes before, the bytes written, or bytes of any kind.
#[derive(Clone, Copy)]
enum Torn {
    Old,
    New,
    Zeros,
    Ones,
    Gate,
}

const ALL: [Torn; 5] = [Torn::Old, Torn::New, Torn::Zeros, Torn::Ones, Torn::Gate];

/// Returns the byte at an offset of such a block.
fn byte_of(torn: Torn, offset: usize, old: u8, new: u8) -> u8 {
    match torn {
        Torn::Old => old,
        Torn::New => new,
        Torn::Zeros => 0,
        Torn::Ones => 0xff,
        Torn::Gate => match b"BTR-GATE".get(offset) {
            Some(byte) => *byte,
            None => 0xff,
        },
    }
}

/// Returns the bytes of a device before a write, but for the given blocks, each torn as given.
fn left_by(
    alloc: Global,
    before: &[u8],
    after: &[u8],
    blocks: &[(usize, Torn)],
) -> Result<Vec<u8>, AllocError>
    ensures { IfOk result (λ v. length v.items ≡ length before.now) }
{
    let mut bytes = before.to_vec(alloc)?;
    for (at, byte) in bytes.iter_mut().enumerate() {
        for (block, kind) in blocks {
            if at / 4096 == *block {
                let new = match after.get(at) {
                    Some(new) => *new,
                    None => 0,
                };
                *byte = byte_of(*kind, at % 4096, *byte, new);
            }
        }
    }
    Ok(bytes)
}

/// Returns the bytes of a store before a commit, and after it. The gate at the tail is block 9, since a create takes two blocks and a
/// commit of a point three. The body has the blocks 10, of the entry, and 11, the leaf of both points. The next gate is block 12.
fn before_and_after(
    rt: &(impl AllocGlobal + Threads + Wait + Sync),
) -> Result<(Vec<u8>, Vec<u8>), Fail>
    ensures { IfOk result (λ r. length r.0.items % 4096 ≡ 0) }
{
    let script = b"create U\ninsert U 1 1\n";
    let before = run_on(rt, "live", script, store_of(rt, "64")?)?
        .disk
        .into_bytes();
    let device = device_of(rt.alloc(), before.clone()?)?;
    let after = run_on(rt, "live", b"insert U 2 2\n", device)?
        .disk
        .into_bytes();
    Ok((before, after))
}

/// Returns whether a store opens after a crash that left these blocks so, has the commit or not, and takes one more.
fn reopens(
    rt: &(impl AllocGlobal + Threads + Wait + Sync),
    before: &[u8],
    after: &[u8],
    blocks: &[(usize, Torn)],
    has_it: bool,
) -> Result<bool, Fail>
    requires { length before.now % 4096 ≡ 0 }
{
    let alloc = rt.alloc();
    let bytes = left_by(alloc, before, after, blocks)?;
    let script = b"range U 0 9 latest\ninsert U 3 3\nrange U 0 9 latest\n";
    let ran = run_on(rt, "live", script, device_of(alloc, bytes)?)?;
    let want = if has_it {
        "ok 2 2\n1 1\n2 2\nok 3 0\nok 3 3\n1 1\n2 2\n3 3\n"
    } else {
        "ok 1 1\n1 1\nok 2 0\nok 2 2\n1 1\n3 3\n"
    };
    Ok(ran.text.as_slice() == want.as_bytes())
}

/// Returns whether a store reopens without the commit if the block of its entry is so torn, whatever the leaf and the next gate hold.
fn reopens_without(
    rt: &(impl AllocGlobal + Threads + Wait + Sync),
    before: &[u8],
    after: &[u8],
    body: Torn,
) -> Result<bool, Fail>
    requires { length before.now % 4096 ≡ 0 }
{
    for leaf in ALL {
        for next in ALL {
            let blocks = [(10, body), (11, leaf), (12, next)];
            if !reopens(rt, before, after, &blocks, false)? {
                return Ok(false);
            }
        }
    }
    Ok(true)
}

/// Returns the first torn body with which a store does not reopen without the commit.
fn first_wrong_body(
    rt: &(impl AllocGlobal + Threads + Wait + Sync),
    before: &[u8],
    after: &[u8],
) -> Result<Option<usize>, Fail>
    requires { length before.now % 4096 ≡ 0 }
{
    for (row, body) in ALL.iter().enumerate() {
        if !reopens_without(rt, before, after, *body)? {
            return Ok(Some(row));
        }
    }
    Ok(None)
}

/// Returns the first torn gate with which a store does not reopen, with the commit if the gate is open.
fn first_wrong_gate(
    rt: &(impl AllocGlobal + Threads + Wait + Sync),
    before: &[u8],
    after: &[u8],
) -> Result<Option<usize>, Fail>
    requires { length before.now % 4096 ≡ 0 }
{
    for (row, gate) in ALL.iter().enumerate() {
        let blocks = [
            (10, Torn::New),
            (11, Torn::New),
            (12, Torn::New),
            (9, *gate),
        ];
        let is_open = matches!(gate, Torn::New | Torn::Gate);
        if !reopens(rt, before, after, &blocks, is_open)? {
            return Ok(Some(row));
        }
    }
    Ok(None)
}

#[test]
fn a_commit_whose_body_was_cut_off_is_not_there(rt: HostRuntime) -> Result<(), Fail> {
    let (before, after) = before_and_after(&rt)?;
    no_wrong(first_wrong_body(&rt, &before, &after)?)
}

#[test]
fn a_commit_whose_gate_was_cut_off_is_there_or_not(rt: HostRuntime) -> Result<(), Fail> {
    let (before, after) = before_and_after(&rt)?;
    no_wrong(first_wrong_gate(&rt, &before, &after)?)
}

//! Runs of `ask --cold`: what they answer, what they refuse, damaged blocks and reads that fail.
ghost use Rattle.std.specs.Prelude.{◌≡◌, ◌%◌, length};

use super::fixture::{
    STORE, TWO_ENTRIES, device_of, no_wrong, play, play_failing, play_parts, run_on, with_piece,
};
use super::seals::{OUTPUT, SEAL, sealed_by_hand, sealed_bytes};
use std::sync::Wait;
use std::test::Fail;
use std::thread::Threads;

/// Questions of each form about two streams and an output, and lines that are none, as `ask` and `ask --cold` answer them.
const QUESTIONS: &str = "\
> streams
> range U 0 5 1
> range V 0 100 latest
> range V 0 100 1
> range W 0 100 latest
> range U 0 5 2
> range U 5 5 1
> range X 0 5 latest
> nearest V 11 next latest
> nearest V 11 prev 2
> nearest U 5 next 1
> aligned U 0 8 2 1
> windows V 0 30 10 latest
> changes V 1 2 0
> changes V 2 1 0
> info W latest
> info V 1
> info U 0
> create X
> insert U 9 9
> refresh W
> @1 range U 0 5 1
> no question
< ok 7 3
< 11111111-1111-4111-8111-111111111111 1 plain
< 22222222-2222-4222-8222-222222222222 2 plain
< 33333333-3333-4333-8333-333333333333 1 output
< ok 1 3
< 0 5
< 3 7
< 4 -2
< ok 2 4
< 0 10
< 5 1
< 10 20
< 20 30
< ok 1 3
< 0 10
< 10 20
< 20 30
< ok 1 3
< 0 10
< 10 30
< 20 50
< no version 2 1
< no range
< no stream
< ok 2 1
< 20 30
< ok 2 1
< 10 20
< ok 1 0
< ok 1 2
< 0 2 12 5 7
< 4 1 -2 -2 -2
< ok 2 3
< 0 2 11 1 10
< 10 1 20 20 20
< 20 1 30 30 30
< ok 2 1
< 5 6
< no range
< ok 1 2
< output 3 90 10 50
< reads 1
< ok 1 1
< plain 3 60 10 30
< ok 0 1
< plain 0 0
< no line
< no line
< no line
< no line
< no line
= 1
";

#[test]
fn cold_answers_are_those_of_ask(rt: HostRuntime) -> Result<(), Fail> {
    play_parts(
        &rt,
        &[
            STORE,
            OUTPUT,
            "$ ask\n",
            QUESTIONS,
            "$ ask --cold\n",
            QUESTIONS,
            "$ check\n< stands 7\n= 0\n",
        ],
    )
}

/// Stores that are not sealed, and none.
const UNSEALED: &str = "\
$ ask --cold
> streams
< no store
= 6
$ ask --cold 1
> streams
< no usage
= 2
$ format --blocks 64
< formatted 64
= 0
$ ask --cold
> streams
< no unsealed
= 1
$ ask --cold
< no unsealed
= 1
$ seal
< sealed 0
= 0
$ ask --cold
> streams
> range U 0 1 latest
< ok 0 0
< no stream
= 1
$ ask --cold
= 0
";

#[test]
fn only_a_sealed_store_is_asked_cold(rt: HostRuntime) -> Result<(), Fail> {
    play(&rt, &[], UNSEALED)?;
    play_parts(
        &rt,
        &[
            STORE,
            TWO_ENTRIES,
            "$ ask --cold\n> range U 0 5 1\n< no unsealed\n= 1\n",
        ],
    )
}

// ---- damage

/// A piece that is put into a sealed device of two entries, and the text and the status of two questions then, of which the first needs the
/// page in block 8: the number at offset 48, the format and the gate of the superblock; the gate and the streams of the checkpoint; the
/// gate at the tail; the page; and an entry, which is not read.
const CHANGED: &[(usize, &[u8], &str, u8)] = &[
    (3 * 4096 + 55, &[0], "no damaged 3\n", 7),
    (3 * 4096 + 11, &[3], "no damaged 3\n", 7),
    (2 * 4096, &[0], "no unsealed\n", 1),
    (9 * 4096, &[0], "no damaged 3\n", 7),
    (10 * 4096 + 67, &[2], "no damaged 10\n", 7),
    (11 * 4096, b"BTR-GATE", "no damaged 11\n", 7),
    (8 * 4096, &[0], "no damaged 8\nno stream\n", 7),
    (5 * 4096, &[0], "ok 1 1\n3 7\nno stream\n", 1),
];

fn first_wrong_piece(
    rt: &(impl AllocGlobal + Threads + Wait + Sync),
    whole: &Vec<u8>,
) -> Result<Option<usize>, Fail>
    requires { length whole.now.items % 4096 ≡ 0 }
{
    for (row, (at, piece, text, status)) in CHANGED.iter().enumerate() {
        let bytes = with_piece(whole.clone()?, *at, piece);
        let disk = device_of(rt.alloc(), bytes)?;
        let lines = b"range U 3 4 1\nrange X 0 1 1\n";
        if !run_on(rt, "ask --cold", lines, disk)?.gave(text, *status) {
            return Ok(Some(row));
        }
    }
    Ok(None)
}

#[test]
fn a_damaged_block_is_named_by_the_lines_that_need_it(rt: HostRuntime) -> Result<(), Fail> {
    let whole = sealed_bytes(&rt)?;
    no_wrong(first_wrong_piece(&rt, &whole)?)
}

#[test]
fn a_sealed_store_without_a_checkpoint_is_damaged(rt: HostRuntime) -> Result<(), Fail> {
    let ran = run_on(&rt, "ask --cold", b"streams\n", sealed_by_hand(&rt, b"")?)?;
    assert!(rt; ran.gave("no damaged 1\n", 7));
    Ok(())
}

// ---- reads that fail

/// The number of the first call of an `ask --cold` after a seal of the two entries. The format made the calls 0 to 7, the run of the
/// entries the calls 8 to 18, and the seal the calls 19 to 30.
const FIRST_CALL: u64 = 31;

/// The calls of the opening: of the superblocks, of the checkpoint, and of the gate at the tail.
const OPENING_CALLS: u64 = 3;

/// An opening that fails.
const NOT_OPENED: &str = "\
$ ask --cold
> range U 0 5 1
> range U 0 5 1
< no device
= 5
";

/// The first read of a page fails, and not the second.
const FAILING: &str = "\
$ ask --cold
> range U 0 5 1
> range U 0 5 1
< no device
< ok 1 3
< 0 5
< 3 7
< 4 -2
= 5
";

/// No read of the page fails that is needed twice, since it is kept.
const KEPT: &str = "\
$ ask --cold
> range U 0 5 1
> range U 0 5 1
< ok 1 3
< 0 5
< 3 7
< 4 -2
< ok 1 3
< 0 5
< 3 7
< 4 -2
= 0
";

#[test]
fn a_line_is_refused_whose_read_fails(rt: HostRuntime) -> Result<(), Fail> {
    for call in 0..OPENING_CALLS {
        play_failing(
            &rt,
            &[FIRST_CALL + call],
            &[STORE, TWO_ENTRIES, SEAL, NOT_OPENED, KEPT],
        )?;
    }
    let page = FIRST_CALL + OPENING_CALLS;
    play_failing(&rt, &[page], &[STORE, TWO_ENTRIES, SEAL, FAILING, KEPT])?;
    play_failing(&rt, &[page + 1], &[STORE, TWO_ENTRIES, SEAL, KEPT])
}

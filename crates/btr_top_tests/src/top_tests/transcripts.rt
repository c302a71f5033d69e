//! Transcripts of runs, in the form of the document on commands: `$` the words, `>` the input, `<` the output, `=` the
//! status. `U` is short for 11111111-1111-4111-8111-111111111111, `V` for 22222222-2222-4222-8222-222222222222, and `W` for
//! 33333333-3333-4333-8333-333333333333.
use super::fixture::play;
use std::test::Fail;

const FORMAT: &str = "\
$ format --blocks 65
< no small 65 64
= 8
$ format --blocks 4294967296
< no small 4294967296 64
= 8
$ live
> create U
< no store
= 6
$ ask
> streams
< no store
= 6
$ format --blocks 0064
< formatted 64
= 0
$ format --blocks 8
< no occupied
= 6
$ ask
= 0
";

const NO_COMMAND: &str = "\
$ format --blocks 7
< no usage
= 2
$ format --blocks 4294967297
< no usage
= 2
$ format --help
< no usage
= 2
$ live --batch 0
< no usage
= 2
$ live --batch 65537
< no usage
= 2
$ format --blocks 64 64
< no usage
= 2
$ Format --blocks 64
< no usage
= 2
$ ask x
< no usage
= 2
$ live 
< no usage
= 2
";

const LIVE: &str = "\
$ format --blocks 64
< formatted 64
= 0
$ live
> create U
> insert U 0 5 3 7 4 -2
> range U 0 5 1
> range U 5 0 2
> range U 5 5 1
< ok 0 0
< ok 1 0
< ok 1 3
< 0 5
< 3 7
< 4 -2
< no version 2 1
< no range
= 1
$ live
> create V
> create V
> range V 0 5 latest
> insert V -1152921504606846976 1 3458764513820540927 2
> insert V 3458764513820540928 3
> insert U 3 9
> nearest U 3 next 2
> nearest U 4 prev 2
> nearest U 4 prev 1
< ok 0 0
< no exists
< ok 0 0
< ok 1 0
< no domain 3458764513820540928
< ok 2 0
< ok 2 1
< 3 7
< ok 2 1
< 3 9
< ok 1 1
< 3 7
= 1
$ live
> insert V 0 9223372036854775807 1 9223372036854775807
> aligned V 0 1 62 2
> nonsense
>  #
> @8 create V
< ok 2 0
< ok 2 1
< -1152921504606846976 4 18446744073709551617 1 9223372036854775807
< no line
< no line
< no line
= 1
";

// an id in each form that it may have
const IDS: &str = "\
$ format --blocks 64
< formatted 64
= 0
$ live
> create aaaaaaaa-bbbb-4ccc-8ddd-eeeeeeeeeeee
> range aaaaaaaabbbb4ccc8dddeeeeeeeeeeee 0 1 0
> range {aaaaaaaa-bbbb-4ccc-8ddd-eeeeeeeeeeee} 0 1 0
> range urn:uuid:aaaaaaaa-bbbb-4ccc-8ddd-eeeeeeeeeeee 0 1 0
> create AAAAAAAABBBB4CCC8DDDEEEEEEEEEEEE
< ok 0 0
< ok 0 0
< ok 0 0
< ok 0 0
< no exists
= 1
";

// the least store has room for one entry, which takes two of its three blocks, and a commit of a point needs three; of two causes the
// status is the greater one
const FULL: &str = "\
$ format --blocks 8
< formatted 8
= 0
$ live
> create U
> insert V 0 5
> insert U 0 5
> range U 0 9 latest
< ok 0 0
< no stream
< no full 3 1
< ok 0 0
= 8
";

// a create needs its entry and the next gate; a commit of a point needs a block more, for its leaf; a smaller entry fits after that
const SMALLER: &str = "\
$ format --blocks 9
< formatted 9
= 0
$ live
> create U
> insert U 0 5
> create V
> create W
< ok 0 0
< no full 3 2
< ok 0 0
< no full 2 0
= 8
";

// points wait for two streams, and are dropped at the end of a run
const FEEDS: &str = "\
$ format --blocks 64
< formatted 64
= 0
$ live --batch 3
> create U
> feed U 1 1 2 2
> range U 0 5 latest
> feed U 3 3
> feed U 4 4
> flush U
> flush U
> discard U
< ok 0 0
< held 2
< ok 0 0
< ok 1 0
< held 1
< ok 2 0
< no empty
< held 0
= 1
$ live
> create V
> feed V 2 2
> feed U 9 9 8 8
> flush V
> range V 0 9 latest
> flush U
> range U 5 9 latest
> feed U 10 10
< ok 0 0
< held 1
< held 2
< ok 1 0
< ok 1 1
< 2 2
< ok 3 0
< ok 3 1
< 8 8
< held 1
= 0
$ ask
> feed U 1 1
> flush U
> discard U
> range U 9 99 latest
< no line
< no line
< no line
< ok 3 1
< 9 9
= 1
";

// a line that fits no form, a stream that is not there, a time outside the domain, and nothing to commit
const REFUSED_FEEDS: &str = "\
$ format --blocks 64
< formatted 64
= 0
$ live --batch=2
> create U
> feed V 1
> feed V 3458764513820540928 1
> flush V
> discard V
> feed U 0 0 3458764513820540928 1 -1152921504606846977 2
> flush U
> discard U
> feed U 5 5
> discard U
> feed U 6 6
> feed U 6 7
> range U 0 9 latest
< ok 0 0
< no line
< no stream
< no stream
< no stream
< no domain -1152921504606846977
< no empty
< held 0
< held 1
< held 0
< held 1
< ok 1 0
< ok 1 2
< 6 6
< 6 7
= 1
";

// the least store has room for one entry; after it one block is left, and a commit of points needs three
const FULL_FEEDS: &str = "\
$ format --blocks 8
< formatted 8
= 0
$ live --batch 3
> create U
> feed U 3 3 1 1
> flush U
> feed U 2 2
> flush U
> discard U
> flush U
< ok 0 0
< held 2
< no full 3 1
< no full 3 1
< no full 3 1
< held 0
< no empty
= 8
";

// the device fails in the first commit
const FAILED_FEEDS: &str = "\
$ format --blocks 64
< formatted 64
= 0
$ live --batch 2
> create U
> feed U 1 1
> feed U 2 2
> feed U 3 3
> flush U
> discard U
> flush U
> feed U 4 4
< ok 0 0
< held 1
< no device
< no stopped 1
< no stopped 1
< held 0
< no empty
< held 1
= 5
";

// each question; the window at 7 does not end in the range, and version 4's point is removed again in version 5
const ASK: &str = "\
$ format --blocks 64
< formatted 64
= 0
$ live
> create U
> insert U 0 5 3 7 4 -2
> delete U 3 4
> insert U 4 -2
> insert U 9 1
> delete U 9 10
> delete V 0 1
> delete U 5 5
< ok 0 0
< ok 1 0
< ok 2 0
< ok 3 0
< ok 4 0
< ok 5 0
< no stream
< no range
= 1
$ ask
> range U 0 9 2
> nearest U 4 prev 1
> nearest U 5 next 1
> aligned U 0 8 2 1
> windows U 1 8 3 1
> changes U 1 3 2
> changes U 1 2 0
> changes U 3 5 0
> info U 0
> info U 1
> streams
< ok 2 2
< 0 5
< 4 -2
< ok 1 1
< 3 7
< ok 1 0
< ok 1 2
< 0 2 12 5 7
< 4 1 -2 -2 -2
< ok 1 2
< 1 1 7 7 7
< 4 1 -2 -2 -2
< ok 3 1
< 0 8
< ok 2 1
< 3 4
< ok 5 0
< ok 0 1
< plain 0 0
< ok 1 1
< plain 3 10 -2 7
< ok 6 1
< U 5 plain
= 0
$ ask
> aligned U 0 8 63 1
> aligned U 0 8 256 1
> windows U 0 8 0 1
> changes U 3 1 0
> changes U 9 0 0
> nearest U 4 up 1
> streams U
> range V 0 9 latest
> create U
> insert U 9 9
> delete U 0 9
> nonsense
< no range
< no line
< no range
< no range
< no version 9 5
< no line
< no line
< no stream
< no line
< no line
< no line
< no line
= 1
";

#[test]
fn a_format_makes_one_store(rt: HostRuntime) -> Result<(), Fail> {
    play(&rt, &[], FORMAT)
}

#[test]
fn other_words_are_no_command(rt: HostRuntime) -> Result<(), Fail> {
    play(&rt, &[], NO_COMMAND)
}

#[test]
fn scripts_go_on_in_later_runs(rt: HostRuntime) -> Result<(), Fail> {
    play(&rt, &[], LIVE)
}

#[test]
fn an_id_is_the_same_in_each_form(rt: HostRuntime) -> Result<(), Fail> {
    play(&rt, &[], IDS)
}

#[test]
fn a_full_store_answers_on(rt: HostRuntime) -> Result<(), Fail> {
    play(&rt, &[], FULL)?;
    play(&rt, &[], SMALLER)
}

#[test]
fn points_wait_in_feeds(rt: HostRuntime) -> Result<(), Fail> {
    play(&rt, &[], FEEDS)?;
    play(&rt, &[], REFUSED_FEEDS)?;
    play(&rt, &[], FULL_FEEDS)?;
    play(&rt, &[16], FAILED_FEEDS)
}

#[test]
fn questions_are_answered_from_each_version(rt: HostRuntime) -> Result<(), Fail> {
    play(&rt, &[], ASK)
}

const FAILED_OPENING: &str = "\
$ format --blocks 64
< formatted 64
= 0
$ live
> create U
< no device
= 5
";

const FAILED_CREATE: &str = "\
$ format --blocks 64
< formatted 64
= 0
$ live
> create U
> insert U 1 1
< no device
< no stream
= 5
";

const FAILED_INSERT: &str = "\
$ format --blocks 64
< formatted 64
= 0
$ live
> create U
> insert U 1 1
> insert U 2 2
> delete U 0 1
> delete U 1 1
> range U 0 5 latest
< ok 0 0
< no device
< no stopped 1
< no stopped 1
< no range
< ok 0 0
= 5
";

/// A call of the device that fails, and a transcript. After the eight calls of the format come three to open, and four for each entry.
const FAILED: &[(u64, &str)] = &[
    (8, FAILED_OPENING),
    (10, FAILED_OPENING),
    (11, FAILED_CREATE),
    (14, FAILED_CREATE),
    (15, FAILED_INSERT),
    (16, FAILED_INSERT),
    (18, FAILED_INSERT),
];

#[test]
fn a_call_that_fails_has_its_reply(rt: HostRuntime) -> Result<(), Fail> {
    for (call, transcript) in FAILED {
        play(&rt, &[*call], transcript)?;
    }
    Ok(())
}

const FAILED_FORMAT: &str = "\
$ format --blocks 64
< no device
= 5
";

#[test]
fn a_format_that_fails_says_so(rt: HostRuntime) -> Result<(), Fail> {
    for call in 0..8 {
        play(&rt, &[call], FAILED_FORMAT)?;
    }
    Ok(())
}

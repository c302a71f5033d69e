//! Scripts whose lanes share the buffers of feeds.
use super::fixture::{STORE, no_wrong, play_failing, play_parts, run_on, store_of};
use super::lanes::versions_in;
use std::alloc::{AllocError, Global};
use std::sync::Wait;
use std::test::Fail;
use std::thread::Threads;

// a stream that is there at the opening of the next run
const STREAM: &str = "\
$ live
> create U
< ok 0 0
= 0
";

// a batch of four points, of which the last line is the one that commits them; the sixth point is dropped
const BATCHES: &str = "\
$ live --group 4
> feed U 0 1
> feed U 1 2 2 3
> feed U 3 4
> flush U
> feed U 7 5
> flush U
> feed U 8 6
< held 0
< held 1
< ok 1 0
< no empty
< held 3
< ok 2 0
< held 4
= 1
$ ask
> range U 0 9 1
> range U 0 9 latest
< ok 1 4
< 0 1
< 1 2
< 2 3
< 3 4
< ok 2 5
< 0 1
< 1 2
< 2 3
< 3 4
< 7 5
= 0
";

// each reason of a line whose points no buffer takes; what waits at the end is dropped
const REFUSED: &str = "\
$ live --group 2
> create V
> distiller W sum 10 0 U
> feed V 0 1
> flush V
> feed W 0 1
> flush W
> feed X 0 1
> discard U
> discard X
> feed U -1152921504606846977 0
> flush U
> feed U 0 1
< ok 0 0
< ok 0 0
< no group
< no group
< no output
< no output
< no stream
< no line
< no line
< no domain -1152921504606846977
< no empty
< held 0
= 1
$ live --group 2 --batch 2
< no usage
= 2
$ live --group 0
< no usage
= 2
$ live --group 65537
< no usage
= 2
$ ask
> info U latest
< ok 0 1
< plain 0 0
= 0
";

// the last round of the materializer sees the batch
const ROUNDS: &str = "\
$ live
> create V
> distiller W sum 10 0 V
< ok 0 0
< ok 0 0
= 0
$ live --materialize --group 3
> feed V 0 10 10 20 20 30
< ok 1 0
= 0
$ ask
> info W latest
< ok 1 2
< output 3 90 10 50
< reads 1
= 0
";

// a point needs three blocks, and two are left: it is dropped
const FULL: &str = "\
$ format --blocks 9
< formatted 9
= 0
$ live
> create U
< ok 0 0
= 0
$ live --group 1
> feed U 0 5
> flush U
< no full 3 2
< no empty
= 8
";

// the device fails in the commit of a batch
const FAILED: &str = "\
$ live --group 1
> feed U 0 1
> feed U 0 2
> flush U
< no device
< no stopped 1
< no empty
= 5
";

#[test]
fn points_wait_with_tickets(rt: HostRuntime) -> Result<(), Fail> {
    play_parts(&rt, &[STORE, STREAM, BATCHES])
}

#[test]
fn lines_of_shared_buffers_are_refused(rt: HostRuntime) -> Result<(), Fail> {
    play_parts(&rt, &[STORE, STREAM, REFUSED])
}

#[test]
fn the_last_round_sees_batches(rt: HostRuntime) -> Result<(), Fail> {
    play_parts(&rt, &[STORE, ROUNDS])
}

#[test]
fn a_full_device_drops_a_batch(rt: HostRuntime) -> Result<(), Fail> {
    play_parts(&rt, &[FULL])
}

/// The calls of the device: eight of the format, three to open and four for the create, and three to open before those of the batch.
#[test]
fn a_device_fails_for_a_batch(rt: HostRuntime) -> Result<(), Fail> {
    play_failing(&rt, &[18], &[STORE, STREAM, FAILED])
}

/// Returns a script that feeds this many points at time 0 and then one more, which makes the batch of a group.
fn crowded_script(alloc: Global, points: u32) -> Result<String, AllocError> {
    let mut script = String::new(alloc);
    script.push_str("feed U")?;
    for value in 0..points {
        let word = format!(in alloc; " 0 {value}")?;
        script.push_str(word.as_str())?;
    }
    script.push_str("\nfeed U 0 9\nflush U\ninfo U latest\n")?;
    Ok(script)
}

/// 253 points at one time are too many for their span. The batch is refused and dropped, and the stream has no new version.
#[test]
fn a_crowded_batch_is_dropped(rt: HostRuntime) -> Result<(), Fail> {
    let made = run_on(&rt, "live", b"create U\n", store_of(&rt, "64")?)?;
    let script = crowded_script(rt.alloc(), 252)?;
    let ran = run_on(&rt, "live --group 253", script.as_bytes(), made.disk)?;
    assert!(rt; ran.gave("held 0\nno crowded 0\nno empty\nok 0 1\nplain 0 0\n", 1));
    Ok(())
}

/// Returns a script in which each of four lanes feeds four points to one stream.
fn four_lanes(alloc: Global) -> Result<String, AllocError> {
    let mut script = String::new(alloc);
    for line in 0..16u32 {
        let lane = line % 4;
        let text = format!(in alloc; "@{lane} feed U {line} 1\n")?;
        script.push_str(text.as_str())?;
    }
    Ok(script)
}

/// Runs four lanes that feed one stream. Returns whether each line that led a batch made one version of the stream.
fn leads_each_once(
    rt: &(impl AllocGlobal + Threads + Wait + Sync),
    words: &str,
) -> Result<bool, Fail> {
    let alloc = rt.alloc();
    let made = run_on(rt, "live", b"create U\n", store_of(rt, "64")?)?;
    let ran = run_on(rt, words, four_lanes(alloc)?.as_bytes(), made.disk)?;
    let led = versions_in(alloc, &ran.text)?.iter().flatten().count();
    let asked = run_on(rt, "ask", b"info U latest\n", ran.disk)?;
    let first = format!(in alloc; "ok {led} 1\n")?;
    Ok(led > 0 && ran.status == 0 && asked.text.as_slice().starts_with(first.as_bytes()))
}

/// Words of scripts whose lanes share a buffer.
const LED: &[&str] = &[
    "live --group 1",
    "live --group 3",
    "live --group 2 --materialize",
];

fn first_not_led(rt: &(impl AllocGlobal + Threads + Wait + Sync)) -> Result<Option<usize>, Fail> {
    for (row, words) in LED.iter().enumerate() {
        if !leads_each_once(rt, words)? {
            return Ok(Some(row));
        }
    }
    Ok(None)
}

/// Of four lanes each line that commits a batch makes one version, and no other line does.
#[test]
fn lanes_lead_each_batch_once(rt: HostRuntime) -> Result<(), Fail> {
    no_wrong(first_not_led(&rt)?)
}

//! Outputs: lines that define them and bring them up to date, as transcripts in the form of the document on commands, and an output
//! that follows many changes of its input.
ghost use Rattle.std.specs.Prelude.{◌≤◌};

use super::fixture::{FOURTH_POINT, STORE, play, play_parts, run_on, store_of};
use std::alloc::{AllocError, Global};
use std::test::Fail;

// a sum of three points
const SUM: &str = "\
$ live
> create V
> insert V 0 10 10 20 20 30
> distiller W sum 10 0 V
> refresh W
> range W 0 100 1
< ok 0 0
< ok 1 0
< ok 0 0
< ok 1 0
< ok 1 3
< 0 10
< 10 30
< 20 50
= 0
";

// it follows a delete after an insert; and lines that ask about it or are refused
const SUM_AFTER_DELETE: &str = "\
$ live
> delete V 0 1
> refresh W
> range W 0 100 3
< ok 3 0
< ok 3 0
< ok 3 3
< 5 1
< 10 21
< 20 50
= 0
$ ask
> info W 0
> info W 3
> streams
> refresh W
> distiller X sum 0 0 V
< ok 0 1
< output 0 0
< ok 3 2
< output 3 72 1 50
< reads 3
< ok 8 2
< V 3 plain
< W 3 output
< no line
< no line
= 1
$ live
> insert W 0 1
> delete W 0 1
> feed W 0 1
> flush W
> discard W
> refresh V
> distiller X minus 0 0 V
> distiller X sum 0 63 V
> distiller W sum 0 0 V
< no output
< no output
< no output
< no output
< held 0
< no plain
< no spec
< no spec
< no exists
= 1
";

// a version without points, and a refresh that has nothing to do
const DELTA: &str = "\
$ format --blocks 64
< formatted 64
= 0
$ live
> create V
> distiller W delta 10 0 V
> refresh W
> insert V 7 1
> refresh W
> info W 1
> refresh W
< ok 0 0
< ok 0 0
< ok 0 0
< ok 1 0
< ok 1 0
< ok 1 2
< output 0 0
< reads 1
< ok 1 0
= 0
";

// the first input is the first of the line
const ANGLE: &str = "\
$ format --blocks 64
< formatted 64
= 0
$ live
> create U
> create V
> insert U 0 170000
> insert V 0 -170000
> distiller W angle 0 0 U V
> refresh W
> range W 0 1 1
> info W 1
< ok 0 0
< ok 0 0
< ok 1 0
< ok 1 0
< ok 0 0
< ok 1 0
< ok 1 1
< 0 -20000
< ok 1 2
< output 1 -20000 -20000 -20000
< reads 1 1
= 0
";

const MEAN: &str = "\
$ format --blocks 64
< formatted 64
= 0
$ live
> create V
> insert V 0 -1 0 -2
> distiller W mean 0 0 V
> refresh W
> range W 0 1 1
< ok 0 0
< ok 1 0
< ok 0 0
< ok 1 0
< ok 1 1
< 0 -2
= 0
";

// an output of an output
const CHAIN: &str = "\
$ format --blocks 64
< formatted 64
= 0
$ live
> create V
> insert V 0 10 10 20 20 30
> distiller W sum 10 0 V
> distiller X affine 2 1 3 0 0 W
> refresh W
> refresh X
> range X 0 100 1
< ok 0 0
< ok 1 0
< ok 0 0
< ok 0 0
< ok 1 0
< ok 1 0
< ok 1 3
< 0 7
< 10 20
< 20 33
= 0
";

// inputs that are not there, and numbers that no output has
const REFUSED: &str = "\
$ format --blocks 64
< formatted 64
= 0
$ live
> distiller W sum 0 0 V
> refresh W
> create V
> distiller W hold 5 0 V U
> distiller W hold 5 0 V V V
> distiller W sum 0 0 V V
> distiller W affine 1 0 0 0 0 V
> distiller W sum 1152921504606846977 0 V
> distiller W sum 0 256 V
> streams
< no stream
< no stream
< ok 0 0
< no stream
< no line
< no spec
< no spec
< no spec
< no line
< ok 1 1
< V 0 plain
= 1
";

// the store has room for three entries: a stream or an output that is made needs two blocks of the nine, and a commit of a point three,
// one of them for the leaf of the points
const FULL: &str = "\
$ format --blocks 14
< formatted 14
= 0
$ live
> create V
> distiller W count 0 0 V
> insert V 1 1
> refresh W
> range W 0 5 latest
< ok 0 0
< ok 0 0
< ok 1 0
< no full 3 2
< ok 0 0
= 8
";

// the device fails in the fourth commit
const FAILED: &str = "\
$ format --blocks 64
< formatted 64
= 0
$ live
> create V
> distiller W count 0 0 V
> insert V 1 1
> refresh W
> refresh W
> refresh V
> delete W 0 1
> feed W 1 1
> range W 0 5 latest
< ok 0 0
< ok 0 0
< ok 1 0
< no device
< no stopped 3
< no plain
< no stopped 3
< no output
< ok 0 0
= 5
";

#[test]
fn outputs_follow_their_inputs(rt: HostRuntime) -> Result<(), Fail> {
    play_parts(&rt, &[STORE, SUM, FOURTH_POINT, SUM_AFTER_DELETE])?;
    play(&rt, &[], DELTA)?;
    play(&rt, &[], ANGLE)?;
    play(&rt, &[], MEAN)?;
    play(&rt, &[], CHAIN)
}

#[test]
fn lines_of_outputs_are_refused(rt: HostRuntime) -> Result<(), Fail> {
    play(&rt, &[], REFUSED)?;
    play(&rt, &[], FULL)?;
    play(&rt, &[24], FAILED)
}

/// Returns a number below a bound, another for each step.
fn drawn(step: u64, below: u64) -> u64
    requires { 1 ≤ below }
{
    step.wrapping_mul(step)
        .wrapping_add(step.wrapping_mul(7919))
        % below
}

/// Returns the points that are not in a range of times.
fn outside(
    alloc: Global,
    points: &[(u64, u64)],
    from: u64,
    to: u64,
) -> Result<Vec<(u64, u64)>, AllocError> {
    let mut kept = Vec::new(alloc);
    for (time, value) in points {
        if *time < from || *time >= to {
            kept.push((*time, *value))?;
        }
    }
    Ok(kept)
}

/// Adds the line of a change to a script, and returns the points after the change. Each third change is a delete.
fn changed(
    alloc: Global,
    step: u64,
    script: &mut String,
    points: Vec<(u64, u64)>,
) -> Result<Vec<(u64, u64)>, AllocError> {
    let time = drawn(step, 31);
    let value = drawn(step, 11);
    if step % 3 == 2 {
        let end = time.saturating_add(8);
        script.push_str(format!(in alloc; "delete V {time} {end}\n")?.as_str())?;
        return outside(alloc, &points, time, end);
    }
    let mut points = points;
    script.push_str(format!(in alloc;
        "insert V {time} {value} {} 9\n",
        time.saturating_add(4)
    )?.as_str())?;
    points.push((time, value))?;
    points.push((time.saturating_add(4), 9))?;
    Ok(points)
}

/// Returns the sum of the values from 10 ns before a time up to it, if there is a point at the time.
fn sum_at(points: &[(u64, u64)], at: u64) -> Option<u64> {
    let mut sum = 0u64;
    let mut is_there = false;
    for (time, value) in points {
        if *time <= at && at <= time.saturating_add(10) {
            sum = sum.saturating_add(*value);
        }
        if *time == at {
            is_there = true;
        }
    }
    if is_there { Some(sum) } else { None }
}

/// Returns the reply with all sums.
fn sums(alloc: Global, version: u64, points: &[(u64, u64)]) -> Result<String, AllocError> {
    let mut rows = String::new(alloc);
    let mut count = 0u64;
    for at in 0..64u64 {
        if let Some(sum) = sum_at(points, at) {
            rows.push_str(format!(in alloc; "{at} {sum}\n")?.as_str())?;
            count = count.saturating_add(1);
        }
    }
    format!(in alloc; "ok {version} {count}\n{}", rows.as_str())
}

/// A script, the replies to it, and the points after its changes.
#[derive(Drop)]
struct Changes {
    script: String,
    want: String,
    points: Vec<(u64, u64)>,
}

/// Adds a change to a script, and the questions after it, with the replies.
fn with_change(alloc: Global, step: u64, changes: Changes) -> Result<Changes, AllocError> {
    let Changes {
        mut script,
        mut want,
        points,
    } = changes;
    let points = changed(alloc, step, &mut script, points)?;
    script.push_str("refresh W\nrange W 0 64 latest\n")?;
    let version = step.saturating_add(1);
    want.push_str(format!(in alloc; "ok {version} 0\nok {version} 0\n")?.as_str())?;
    want.push_str(sums(alloc, version, &points)?.as_str())?;
    Ok(Changes {
        script,
        want,
        points,
    })
}

/// Returns a script of nine changes, and the replies to it.
fn nine_changes(alloc: Global) -> Result<Changes, AllocError> {
    let mut changes = Changes {
        script: "create V\ndistiller W sum 10 2 V\n".to_string(alloc)?,
        want: "ok 0 0\nok 0 0\n".to_string(alloc)?,
        points: Vec::new(alloc),
    };
    for step in 0..9u64 {
        changes = with_change(alloc, step, changes)?;
    }
    Ok(changes)
}

#[test]
fn an_output_is_its_kernel_after_many_changes(rt: HostRuntime) -> Result<(), Fail> {
    let changes = nine_changes(rt.alloc())?;
    let ran = run_on(&rt, "live", changes.script.as_bytes(), store_of(&rt, "64")?)?;
    assert!(rt; ran.gave(changes.want.as_str(), 0));
    Ok(())
}

//! Runs of `load`, `distil` and `sample`, as transcripts in the form of the document on commands.
use super::fixture::{STORE, no_wrong, play, play_parts, run_beside, run_on, store_of};
use btr_disk::MemDisk;
use std::sync::Wait;
use std::test::Fail;
use std::thread::Threads;

// rows, refused ones among them, and then more points of the same stream
const ROWS: &str = "\
$ load
< no store
= 6
$ format --blocks 64
< formatted 64
= 0
$ load
< loaded 0 refused 0
= 0
$ load --workers 2
> U,0,5
> nonsense,1,1
> U,2
> \"U\",\"3\",\"7\"
> U,4,-2
< row 2: no id
< row 3: no fields
< U 1 3
< loaded 3 refused 2
= 1
$ ask
> range U 0 10 1
< ok 1 3
< 0 5
< 3 7
< 4 -2
= 0
$ load --batch 1
> U,5,1
> V,5,1
> U,6,2
< U 3 2
< V 1 1
< loaded 3 refused 0
= 0
";

// each way in which a row is refused
const BAD_ROWS: &str = "\
$ format --blocks 64
< formatted 64
= 0
$ load
> id,time,value
> 
> U
> U,1,2,3
> 11111111111141118111111111111111,1,1
> {U},2,2
> urn:uuid:U,3,3
> \"U\"\"\",4,4
> U,+5,1
> U,5.0,1
> U,9223372036854775808,1
> U,3458764513820540928,1
> U,-9223372036854775808,1
> U,5,
> U,5,x
> U,6,6
> \"U,7,7
< row 1: no id
< row 2: no fields
< row 3: no fields
< row 7: no id
< row 8: no time
< row 9: no time
< row 10: no time
< row 11: no domain 3458764513820540928
< row 12: no domain -9223372036854775808
< row 13: no value
< row 14: no value
< row 16: no fields
< U 1 4
< loaded 4 refused 12
= 1
";

// two outputs without a version, of which the second has the first as its input
const OUTPUTS: &str = "\
$ live
> create V
> insert V 0 10 10 20 20 30
> distiller W sum 10 0 V
> distiller X affine 2 1 3 0 0 W
< ok 0 0
< ok 1 0
< ok 0 0
< ok 0 0
= 0
";

// rows of an output are refused one by one, among the others
const OUTPUT_ROWS: &str = "\
$ load
> W,1,1
> x
> V,30,1
> W,2,2
< row 1: no output
< row 2: no fields
< row 4: no output
< V 2 1
< loaded 1 refused 3
= 1
$ distil --workers 2
< W 1 2
< X 1 1
= 0
$ distil
< W 1 2
< X 1 1
= 0
$ ask
> range X 0 100 1
< ok 1 4
< 0 7
< 10 20
< 20 33
< 30 21
= 0
";

// no store, and then one without outputs
const NO_OUTPUTS: &str = "\
$ distil
< no store
= 6
$ format --blocks 64
< formatted 64
= 0
$ distil
= 0
";

// outputs of a chain, each after its inputs
const CHAIN: &str = "\
$ distil --workers 2
< W 1 1
< X 1 1
= 0
$ ask
> range X 0 100 1
< ok 1 3
< 0 7
< 10 20
< 20 33
= 0
$ live
> insert V 5 1
< ok 2 0
= 0
$ distil --workers 16
< W 2 2
< X 2 2
= 0
$ ask
> range X 0 100 2
< ok 2 4
< 0 7
< 5 7
< 10 21
< 20 33
= 0
";

// the device becomes full in the middle of the batches: a create needs two blocks of the nine, and each batch three, one of them for the
// leaf of its stream's points
const FULL: &str = "\
$ format --blocks 14
< formatted 14
= 0
$ load --batch 1
> U,0,1
> U,1,2
> V,2,3
< U rows 2 2: no full 3 2
< U 1 1
< V rows 3 3: no full 3 2
< V 0 0
< loaded 1 refused 2
= 8
";

// a stream cannot be created: that needs two blocks, and there is one after the first stream, whose batches need three
const NOT_CREATED: &str = "\
$ format --blocks 8
< formatted 8
= 0
$ load --batch 1
> U,0,1
> V,1,1
> U,2,2
> V,3,3
< U rows 1 1: no full 3 1
< U rows 3 3: no full 3 1
< U 0 0
< V rows 2 4: no full 2 1
< loaded 0 refused 4
= 8
";

// a small sample, and a second one
const SAMPLE: &str = "\
$ sample 1 1 3
< no store
= 6
$ format --blocks 64
< formatted 64
= 0
$ sample 1 1 3
< 00000000-0000-0000-0000-000000000001 1 3 -306 -892 756
< 00000000-0000-0001-0000-000000000001 1 3 55 -170 293
= 0
$ sample 1 1 3
< no used 4
= 1
$ distil
< 00000000-0000-0001-0000-000000000001 1 1
= 0
";

#[test]
fn rows_are_loaded(rt: HostRuntime) -> Result<(), Fail> {
    play(&rt, &[], ROWS)?;
    play(&rt, &[], BAD_ROWS)?;
    play_parts(&rt, &[STORE, OUTPUTS, OUTPUT_ROWS])?;
    play(&rt, &[], FULL)?;
    play(&rt, &[], NOT_CREATED)?;
    Ok(())
}

#[test]
fn outputs_are_refreshed_up_to_date(rt: HostRuntime) -> Result<(), Fail> {
    play_parts(&rt, &[NO_OUTPUTS, OUTPUTS, CHAIN])?;
    Ok(())
}

/// Returns a device with a store of an output and an output of that.
fn chain(rt: &(impl AllocGlobal + Threads + Wait + Sync)) -> Result<MemDisk, Fail> {
    let lines =
        b"create V\ninsert V 0 10 10 20 20 30\ndistiller W sum 10 0 V\ndistiller X minus 0 0 W V\n";
    Ok(run_on(rt, "live", lines, store_of(rt, "64")?)?.disk)
}

/// Returns the bytes of the device after `distil` with this many workers, a late point in the middle, and `distil` again.
fn distilled_by(
    rt: &(impl AllocGlobal + Threads + Wait + Sync),
    workers: u8,
) -> Result<Vec<u8>, Fail> {
    let words = format!(in rt.alloc(); "distil --workers {workers}")?;
    let early = run_on(rt, words.as_str(), b"", chain(rt)?)?;
    let late = run_on(rt, "live", b"insert V 5 1\n", early.disk)?;
    Ok(
        run_on(rt, words.as_str(), b"", late.disk)?
            .disk
            .into_bytes(),
    )
}

/// Returns the first number of workers in a list with which the device is another one than with one worker.
fn first_other_device(
    rt: &(impl AllocGlobal + Threads + Wait + Sync),
) -> Result<Option<usize>, Fail> {
    let wanted = distilled_by(rt, 1)?;
    for (row, workers) in [2, 4, 16].iter().enumerate() {
        if distilled_by(rt, *workers)?.as_slice() != wanted.as_slice() {
            return Ok(Some(row));
        }
    }
    Ok(None)
}

#[test]
fn any_number_of_workers_leaves_the_same_device(rt: HostRuntime) -> Result<(), Fail> {
    no_wrong(first_other_device(&rt)?)
}

#[test]
fn an_empty_store_is_filled_with_a_sample(rt: HostRuntime) -> Result<(), Fail> {
    play(&rt, &[], SAMPLE)?;
    Ok(())
}

/// What a run of two workers gave: its status, and whether the second turn began while the first one waited for it.
type Beside = (u8, bool);

/// Loads rows of two streams, and brings outputs of them up to date, on one device.
fn loaded_and_distilled(
    rt: &(impl AllocGlobal + Threads + Wait + Sync),
) -> Result<(Beside, Beside), Fail> {
    let rows = b"U,0,1\nV,1,1\n".as_slice();
    let (loaded, is_loaded) = run_beside(rt, 1, "load --workers 2", rows, store_of(rt, "64")?)?;
    let outputs = b"distiller W sum 0 0 U\ndistiller X sum 0 0 V\n".as_slice();
    let defined = run_on(rt, "live", outputs, loaded.disk)?;
    let (distilled, is_distilled) = run_beside(rt, 1, "distil --workers 2", b"", defined.disk)?;
    Ok(((loaded.status, is_loaded), (distilled.status, is_distilled)))
}

/// Fills an empty store with two streams.
fn sampled(rt: &(impl AllocGlobal + Threads + Wait + Sync)) -> Result<Beside, Fail> {
    let (sample, is_beside) = run_beside(rt, 1, "sample 1 2 3", b"", store_of(rt, "64")?)?;
    Ok((sample.status, is_beside))
}

/// Of two streams, and of two outputs, the second is worked on while the first one waits for that.
#[test]
fn workers_run_beside_each_other(rt: HostRuntime) -> Result<(), Fail> {
    assert!(rt; loaded_and_distilled(&rt)? == ((0, true), (0, true)));
    assert!(rt; sampled(&rt)? == (0, true));
    Ok(())
}

//! Sealed stores as shelves: answers from nodes that are fetched, by one thread and by two, and devices that are no shelf.
use crate::fixture::{
    Change, ID, MemEngine, changed, device_of, empty_store, insert, no_wrong, opened, step,
    two_entries,
};
use btr_base::Toward;
use btr_disk::MemDisk;
use btr_engine::Snapshot;
use btr_hist::{Answer, At, Entry, Query, Rows};
use btr_open::{SealedFault, Shelf, open_sealed};
use btr_shelf::DiskNodes;
use btr_tree::NodeFault;
use std::alloc::{AllocError, Global};
use std::test::Fail;
use std::thread::{Threads, join};

/// Seals a store, and returns the bytes of its device.
fn sealed(alloc: Global, engine: MemEngine) -> Result<Vec<u8>, Fail> {
    let mut engine = engine;
    match engine.seal(alloc) {
        Ok(_) => Ok(engine.into_disk().into_bytes()),
        Err(_) => Err("a seal was refused".into()),
    }
}

/// The bytes of a sealed store of two entries. The checkpoint has the gate 9, superblock B names it, and the tail is 11.
fn small_store(alloc: Global) -> Result<Vec<u8>, Fail> {
    sealed(alloc, two_entries(alloc, 64, &[])?)
}

/// A commit: its first time, the step to the next, and the number of points.
type Commit = (i64, i64, i64);

/// Commits of a stream: a leaf; points so far away that the root is an inner node with two leaves; and two points between others.
const COMMITS: &[Commit] = &[(0, 1, 200), (1_152_921_504_606_846_976, 1, 100), (7, 0, 2)];

/// The bytes of a sealed store with these commits of its first stream, and a second stream without points.
fn large_store(alloc: Global) -> Result<Vec<u8>, Fail> {
    let mut engine = empty_store(alloc, 64, &[])?;
    step(alloc, &mut engine, &Entry::Create { id: ID })?;
    for (first, by, count) in COMMITS {
        let mut points = Vec::new(alloc);
        for k in 0..*count {
            points.push((first.wrapping_add(by.wrapping_mul(k)), k))?;
        }
        step(alloc, &mut engine, &insert(alloc, 0, points.as_slice())?)?;
    }
    step(alloc, &mut engine, &Entry::Create { id: 7 })?;
    sealed(alloc, engine)
}

/// A time between the last points of the first stream.
const FAR: i64 = 1_152_921_504_606_847_026;

/// Questions of each form: of versions that are there, empty or missing, of a stream without points and of one that is missing.
const QUESTIONS: &[Query] = &[
    Query::Streams,
    Query::Points {
        stream: 0,
        from: -5,
        to: FAR,
        at: At::Latest,
    },
    Query::Points {
        stream: 0,
        from: 250,
        to: 2_000_000,
        at: At::Number(2),
    },
    Query::Points {
        stream: 0,
        from: 0,
        to: 9,
        at: At::Number(0),
    },
    Query::Points {
        stream: 0,
        from: 0,
        to: 9,
        at: At::Number(9),
    },
    Query::Points {
        stream: 0,
        from: 9,
        to: 0,
        at: At::Latest,
    },
    Query::Points {
        stream: 1,
        from: 0,
        to: 9,
        at: At::Latest,
    },
    Query::Points {
        stream: 2,
        from: 0,
        to: 9,
        at: At::Latest,
    },
    Query::Nearest {
        stream: 0,
        time: 260,
        toward: Toward::Forward,
        at: At::Latest,
    },
    Query::Nearest {
        stream: 0,
        time: -1,
        toward: Toward::Backward,
        at: At::Number(3),
    },
    Query::Aligned {
        stream: 0,
        from: 0,
        to: FAR,
        p: 40,
        at: At::Latest,
    },
    Query::Windows {
        stream: 0,
        from: 3,
        to: 3_000_003,
        width: 1_000,
        at: At::Number(2),
    },
    Query::Changes {
        stream: 0,
        old: 1,
        new: 3,
        p: 10,
    },
    Query::Changes {
        stream: 0,
        old: 2,
        new: 3,
        p: 0,
    },
    Query::Info {
        stream: 0,
        at: At::Latest,
    },
    Query::Info {
        stream: 0,
        at: At::Number(1),
    },
];

/// Whether rows are the same, but for what versions of outputs have read: there is no output here.
fn are_same_rows(a: &Rows, b: &Rows) -> bool {
    match (a, b) {
        (Rows::Points(a), Rows::Points(b)) => a.as_slice() == b.as_slice(),
        (Rows::Cells(a), Rows::Cells(b)) => a.as_slice() == b.as_slice(),
        (Rows::Ranges(a), Rows::Ranges(b)) => a.as_slice() == b.as_slice(),
        (Rows::Streams(a), Rows::Streams(b)) => a.as_slice() == b.as_slice(),
        (
            Rows::Info {
                output: a,
                agg: x,
                ..
            },
            Rows::Info {
                output: b,
                agg: y,
                ..
            },
        ) => { *a == *b && *x == *y }
        _ => false,
    }
}

/// Whether an answer of a shelf is that of the engine.
fn is_same(a: &Answer, b: &Answer) -> bool {
    match (a, b) {
        (
            Answer::Found {
                version: v,
                rows: a,
            },
            Answer::Found {
                version: w,
                rows: b,
            },
        ) => { *v == *w && are_same_rows(a, b) }
        (Answer::Refused(a), Answer::Refused(b)) => *a == *b,
        _ => false,
    }
}

/// Opens the device of these bytes as a shelf, or says that it was not opened.
fn shelf_of(alloc: Global, bytes: &[u8]) -> Result<Shelf, Fail> {
    let mut disk = device_of(alloc, bytes.to_vec(alloc)?, 64)?;
    match open_sealed(alloc, &mut disk) {
        Ok(shelf) => Ok(shelf),
        Err(_) => Err("it is no shelf".into()),
    }
}

/// The number of the first question whose answer from the nodes of a device is not that of the snapshot.
fn first_other(
    alloc: Global,
    shelf: &Shelf,
    disk: MemDisk,
    snapshot: &Snapshot,
) -> Result<Option<usize>, AllocError> {
    let mut nodes = DiskNodes::new(disk);
    for (number, query) in QUESTIONS.iter().enumerate() {
        let right = snapshot.answer(alloc, query)?;
        let is_right = match shelf.answer(&mut nodes, alloc, query) {
            Ok(answer) => is_same(&answer, &right),
            Err(_) => false,
        };
        if !is_right {
            return Ok(Some(number));
        }
    }
    Ok(None)
}

/// A device of these bytes that remembers many calls.
fn disk_of(alloc: Global, bytes: &[u8]) -> Result<MemDisk, Fail> {
    device_of(alloc, bytes.to_vec(alloc)?, 600)
}

#[test]
fn a_shelf_answers_as_the_engine(rt: HostRuntime) -> Result<(), Fail> {
    let alloc = rt.alloc();
    let bytes = large_store(alloc)?;
    let shelf = shelf_of(alloc, &bytes)?;
    let snapshot = opened(alloc, disk_of(alloc, &bytes)?)?.admit()?;
    no_wrong(first_other(alloc, &shelf, disk_of(alloc, &bytes)?, &snapshot)?)
}

#[test]
fn a_shelf_finds_its_streams(rt: HostRuntime) -> Result<(), Fail> {
    let shelf = shelf_of(rt.alloc(), &large_store(rt.alloc())?)?;
    assert!(rt;
        (
            shelf.entries(),
            shelf.find(ID),
            shelf.find(7),
            shelf.find(8)
        ) == (5, Some(0), Some(1), None)
    );
    Ok(())
}

/// What two threads find that ask the same at once.
type InTwo = (
    Result<Option<usize>, AllocError>,
    Result<Option<usize>, AllocError>,
);

/// Asks one shelf in two threads, each with a device and a snapshot of its own.
fn ask_in_two<R: Threads>(
    rt: &R,
    alloc: Global,
    shelf: &Shelf,
    disks: (MemDisk, MemDisk),
    snapshots: (Snapshot, Snapshot),
) -> InTwo {
    let (here, there) = disks;
    let (mine, other) = snapshots;
    join(
        rt,
        move || first_other(alloc, shelf, here, &mine),
        move || first_other(alloc, shelf, there, &other),
    )
}

#[test]
fn two_threads_ask_one_shelf(rt: HostRuntime) -> Result<(), Fail> {
    let alloc = rt.alloc();
    let bytes = large_store(alloc)?;
    let shelf = shelf_of(alloc, &bytes)?;
    let snapshot = opened(alloc, disk_of(alloc, &bytes)?)?.admit()?;
    let snapshots = (snapshot.share()?, snapshot);
    let disks = (disk_of(alloc, &bytes)?, disk_of(alloc, &bytes)?);
    let (here, there) = ask_in_two(&rt, alloc, &shelf, disks, snapshots);
    no_wrong(here?)?;
    no_wrong(there?)
}

// ---- what is no shelf

/// Why a device of these bytes is no shelf, if it is none.
fn refusal_of(alloc: Global, bytes: Vec<u8>) -> Result<Option<SealedFault>, Fail> {
    let mut disk = device_of(alloc, bytes, 64)?;
    Ok(open_sealed(alloc, &mut disk).err())
}

#[test]
fn only_a_sealed_store_is_a_shelf(rt: HostRuntime) -> Result<(), Fail> {
    let alloc = rt.alloc();
    let open = two_entries(alloc, 64, &[])?.into_disk().into_bytes();
    assert!(rt; refusal_of(alloc, open)? == Some(SealedFault::Unsealed));
    assert!(rt; refusal_of(alloc, vec![in alloc; 0; 8 * 4096]?)? == Some(SealedFault::NotAStore));
    assert!(rt; refusal_of(alloc, small_store(alloc)?)? == None);
    Ok(())
}

/// What is changed of a sealed store of two entries, and the block that is then damaged: the superblocks, the gate, the head, the length
/// and the streams of the checkpoint, and the gate at the tail. Without the gate of superblock B the store is not sealed. A page is not
/// looked at.
const CHANGES: &[(&[Change], Option<SealedFault>)] = &[
    (&[(3, 55, 0)], Some(SealedFault::Damaged { block: 3 })),
    (&[(3, 11, 3)], Some(SealedFault::Damaged { block: 3 })),
    (&[(3, 11, 5)], Some(SealedFault::Damaged { block: 3 })),
    (&[(1, 55, 1)], Some(SealedFault::Damaged { block: 1 })),
    (&[(2, 0, 0)], Some(SealedFault::Unsealed)),
    (&[(9, 0, 0)], Some(SealedFault::Damaged { block: 3 })),
    (&[(10, 0, 0)], Some(SealedFault::Damaged { block: 10 })),
    (&[(10, 39, 62)], Some(SealedFault::Damaged { block: 10 })),
    (&[(10, 67, 2)], Some(SealedFault::Damaged { block: 10 })),
    (
        &[
            (11, 0, b'B'),
            (11, 1, b'T'),
            (11, 2, b'R'),
            (11, 3, b'-'),
            (11, 4, b'G'),
            (11, 5, b'A'),
            (11, 6, b'T'),
            (11, 7, b'E'),
        ],
        Some(SealedFault::Damaged { block: 11 }),
    ),
    (&[(8, 0, 0)], None),
];

fn first_wrong_change(alloc: Global, whole: &Vec<u8>) -> Result<Option<usize>, Fail> {
    for (number, (changes, want)) in CHANGES.iter().enumerate() {
        if refusal_of(alloc, changed(alloc, whole, changes, 0)?)? != *want {
            return Ok(Some(number));
        }
    }
    Ok(None)
}

#[test]
fn changed_bytes_make_no_shelf(rt: HostRuntime) -> Result<(), Fail> {
    let whole = small_store(rt.alloc())?;
    no_wrong(first_wrong_change(rt.alloc(), &whole)?)
}

/// The refusal of a question about the three points of a sealed store of two entries, if a byte of the page in block 8 is another.
fn refusal_with(alloc: Global, whole: &Vec<u8>, at: usize) -> Result<Option<NodeFault>, Fail> {
    let bytes = changed(alloc, whole, &[(8, at, 0xa5)], 0)?;
    let shelf = shelf_of(alloc, &bytes)?;
    let mut nodes = DiskNodes::new(device_of(alloc, bytes, 64)?);
    let query = Query::Points {
        stream: 0,
        from: 0,
        to: 5,
        at: At::Latest,
    };
    Ok(shelf.answer(&mut nodes, alloc, &query).err())
}

/// The first byte of the header of the page in block 8 that may be another without being seen.
fn first_free_byte(alloc: Global, whole: &Vec<u8>) -> Result<Option<usize>, Fail> {
    for at in 0..64 {
        if refusal_with(alloc, whole, at)? != Some(NodeFault::Damaged { block: 8 }) {
            return Ok(Some(at));
        }
    }
    Ok(None)
}

#[test]
fn a_lost_root_is_named(rt: HostRuntime) -> Result<(), Fail> {
    let whole = small_store(rt.alloc())?;
    no_wrong(first_free_byte(rt.alloc(), &whole)?)
}

//! What the tests share: a store of two entries, the bytes of its frames by hand, and a follower.
ghost use Rattle.std.specs.Prelude.{◌≡◌, true};
ghost use Rattle.btr_engine.specs.Engine.{is_home};

use btr_base::{Bag, Point, Ranges};
use btr_disk::{Capacity, MemDisk};
use btr_engine::{Engine, StepFault};
use btr_follow::{Follower, Frame, Heard, read_frames, ship};
use btr_hist::{Answer, At, Entry, Query, Rows};
use btr_io::MemSink;
use btr_open::open_store;
use btr_super::format;
use std::alloc::{AllocError, Global};
use std::test::Fail;

/// The id of the stream of the store.
pub(crate) const ID: u128 = 0x11111111_1111_4111_8111_111111111111;

/// The frame of the entry that makes the stream.
pub(crate) const FIRST: [u8; 37] = [
    0x42, 0x54, 0x52, 0x46, 0, 0, 0, 0, 0, 0, 0, 1, 0, 0, 0, 0, 0, 0, 0, 17, 1, 0x11, 0x11, 0x11,
    0x11, 0x11, 0x11, 0x41, 0x11, 0x81, 0x11, 0x11, 0x11, 0x11, 0x11, 0x11, 0x11,
];

/// The frame of its first commit: the points (0, 5), (3, 7) and (4, -2).
pub(crate) const SECOND: [u8; 89] = [
    0x42, 0x54, 0x52, 0x46, 0, 0, 0, 0, 0, 0, 0, 2, 0, 0, 0, 0, 0, 0, 0, 69, 2, 0, 0, 0, 0, 0, 0,
    0, 0, 0, 0, 0, 0, 0, 0, 0, 0, 0, 0, 0, 3, 0, 0, 0, 0, 0, 0, 0, 0, 0, 0, 0, 0, 0, 0, 0, 5, 0, 0,
    0, 0, 0, 0, 0, 3, 0, 0, 0, 0, 0, 0, 0, 7, 0, 0, 0, 0, 0, 0, 0, 4, 255, 255, 255, 255, 255, 255,
    255, 254,
];

/// What a device in memory remembers.
const CAPACITY: Capacity = Capacity {
    calls: 64,
    blocks: 160,
};

/// Returns the bytes of both frames.
pub(crate) fn frames(alloc: Global) -> Result<Vec<u8>, AllocError> {
    let mut bytes = Vec::from_slice(alloc, &FIRST)?;
    bytes.extend_from_slice(&SECOND)?;
    Ok(bytes)
}

/// A store on a device in memory. Its calls say only what the tests need, so the proofs of the tests do not go through those of the engine.
#[derive(Drop)]
struct MemStore {
    engine: Engine<MemDisk>,
    ghost home: { is_home engine ≡ true },
}

impl MemStore {
    ghost use Rattle.std.specs.Prelude.{◌≡◌, true};
    ghost use Rattle.btr_engine.specs.Engine.{is_home};

    /// An empty store of 64 blocks.
    fn empty(alloc: Global) -> Result<MemStore, Fail> {
        let mut disk = MemDisk::new(alloc, 64, CAPACITY, Vec::new(alloc))?;
        if format(&mut disk, 64).is_err() {
            return Err("no store was made".into());
        }
        match open_store(alloc, disk) {
            Ok(engine) => Ok(MemStore { engine }),
            Err(_) => Err("it was not opened".into()),
        }
    }

    /// Adds an entry, and returns whether it was accepted.
    fn adds(&mut self, alloc: Global, entry: &Entry) -> bool {
        self.engine.step(alloc, entry).is_ok()
    }

    /// Adds a checkpoint, and returns whether it was accepted.
    fn marks(&mut self, alloc: Global) -> bool {
        self.engine.checkpoint(alloc).is_ok()
    }

    /// Returns the engine.
    fn into_engine(self) -> Engine<MemDisk>
        ensures home { is_home result ≡ true }
    {
        let MemStore { engine } = self;
        engine
    }
}

/// Returns a commit of three points to stream 0.
fn commit(alloc: Global) -> Result<Entry, AllocError> {
    let mut points = Vec::new(alloc);
    for (time, value) in [(0, 5), (3, 7), (4, -2)] {
        points.push(Point { time, value })?;
    }
    Ok(Entry::Commit {
        stream: 0,
        cut: Ranges::none(alloc),
        added: Bag::from_points(points),
    })
}

/// Returns the device of a store with the two entries.
fn leader(alloc: Global) -> Result<MemDisk, Fail> {
    let entry = commit(alloc)?;
    let mut store = MemStore::empty(alloc)?;
    if store.adds(alloc, &Entry::Create { id: ID }) && store.adds(alloc, &entry) {
        return Ok(store.into_engine().into_disk());
    }
    Err("an entry was refused".into())
}

/// Returns the device of a store with the two entries, a checkpoint, and a third entry.
fn marked_leader(alloc: Global) -> Result<MemDisk, Fail> {
    let entry = commit(alloc)?;
    let mut store = MemStore::empty(alloc)?;
    let is_begun = store.adds(alloc, &Entry::Create { id: ID }) && store.adds(alloc, &entry);
    if is_begun && store.marks(alloc) && store.adds(alloc, &Entry::Create { id: 7 }) {
        return Ok(store.into_engine().into_disk());
    }
    Err("an entry or a checkpoint was refused".into())
}

/// Ships the entries of a store with a checkpoint after two entries from this number on. Returns the number of frames, and how many calls
/// of the device that took.
pub(crate) fn shipped_around(alloc: Global, from: u64) -> Result<(u64, u64), Fail> {
    let mut disk = marked_leader(alloc)?;
    let mut sink = MemSink::new(alloc, 1000, 50, Vec::new(alloc))?;
    let before = disk.calls();
    match ship(alloc, &mut disk, from, &mut sink) {
        Ok(count) => Ok((count, disk.calls().saturating_sub(before))),
        Err(_) => Err("it was not shipped".into()),
    }
}

/// Ships the entries of the store from this number on, and returns the number of frames and their bytes.
pub(crate) fn shipped(alloc: Global, from: u64) -> Result<(u64, Vec<u8>), Fail> {
    let mut disk = leader(alloc)?;
    let mut sink = MemSink::new(alloc, 1000, 50, Vec::new(alloc))?;
    match ship(alloc, &mut disk, from, &mut sink) {
        Ok(count) => Ok((count, Vec::from_slice(alloc, sink.written())?)),
        Err(_) => Err("it was not shipped".into()),
    }
}

/// A follower over a device in memory. Its calls have no clauses, so the proofs of the tests do not go through those of the follower.
#[derive(Drop)]
pub(crate) struct MemFollower {
    follower: Follower<MemDisk>,
}

impl MemFollower {
    /// A follower of an empty store.
    pub(crate) fn fresh(alloc: Global) -> Result<MemFollower, Fail> {
        Ok(MemFollower {
            follower: Follower::start(MemStore::empty(alloc)?.into_engine()),
        })
    }

    /// Hears a frame.
    pub(crate) fn hear(&mut self, alloc: Global, frame: &Frame) -> Result<Heard, StepFault> {
        self.follower.hear(alloc, frame)
    }

    /// Hears the frames that the bytes begin with, and returns the answers.
    pub(crate) fn hear_all(&mut self, alloc: Global, bytes: &[u8]) -> Result<Vec<Heard>, Fail> {
        let found = read_frames(alloc, bytes)?;
        let mut answers = Vec::new(alloc);
        for frame in found.frames.as_slice() {
            match self.hear(alloc, frame) {
                Ok(answer) => answers.push(answer)?,
                Err(_) => return Err("a frame was not answered".into()),
            }
        }
        Ok(answers)
    }

    /// The number of entries that it has acknowledged.
    pub(crate) fn acked(&self) -> u64 {
        self.follower.acked()
    }

    /// Promotes it, and returns the points of stream 0 between 0 and 100 by the engine.
    pub(crate) fn into_points(self, alloc: Global) -> Result<Vec<(i64, i64)>, Fail> {
        let query = Query::Points {
            stream: 0,
            from: 0,
            to: 100,
            at: At::Latest,
        };
        let snapshot = self.follower.promote().admit()?;
        let mut pairs = Vec::new(alloc);
        if let Answer::Found {
            rows: Rows::Points(points),
            ..
        } = snapshot.answer(alloc, &query)?
        {
            for point in points.as_slice() {
                pairs.push((point.time, point.value))?;
            }
        }
        Ok(pairs)
    }
}

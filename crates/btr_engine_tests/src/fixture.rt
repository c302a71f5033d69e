//! What the tests of several modules share.
ghost use Rattle.std.specs.Prelude.{◌≡◌, ◌≤◌, true};
ghost use Rattle.btr_engine.specs.Engine.{is_home};

use btr_base::{Bag, Point, Ranges};
use btr_disk::{Capacity, MemDisk};
use btr_engine::{Engine, Receipt, Snapshot, StepFault};
use btr_hist::Entry;
use btr_open::{OpenCause, open_store};
use btr_super::format;
use std::alloc::{AllocError, Global};
use std::test::Fail;

/// Points as pairs of a time and a value, or ranges as pairs of bounds.
pub(crate) type Pairs<'a> = &'a [(i64, i64)];

/// Fails with the number of the first wrong row of a table, if there is one.
pub(crate) fn no_wrong(row: Option<usize>) -> Result<(), Fail> {
    match row {
        None => Ok(()),
        Some(number) => Err(Fail::new(format_args!("row {number} is wrong"))),
    }
}

/// Returns a commit of these points to a stream.
pub(crate) fn insert(alloc: Global, stream: u32, pairs: Pairs<'_>) -> Result<Entry, AllocError> {
    let mut points = Vec::new(alloc);
    for (time, value) in pairs {
        points.push(Point {
            time: *time,
            value: *value,
        })?;
    }
    Ok(Entry::Commit {
        stream,
        cut: Ranges::none(alloc),
        added: Bag::from_points(points),
    })
}

/// What a device in memory remembers.
const CAPACITY: Capacity = Capacity {
    calls: 64,
    blocks: 160,
};

/// What a checkpoint or a seal returns.
pub(crate) type Marked = Result<u64, StepFault>;

/// An engine over a device in memory, whose log is at home. Its calls have no clauses, so the proofs of the tests do not go through those
/// of the engine.
#[derive(Drop)]
pub(crate) struct MemEngine {
    engine: Engine<MemDisk>,
    ghost home: { is_home engine ≡ true },
}

impl MemEngine {
    /// Adds an entry.
    pub(crate) fn step(&mut self, alloc: Global, entry: &Entry) -> Result<Receipt, StepFault> {
        self.engine.step(alloc, entry)
    }

    /// Adds a checkpoint.
    pub(crate) fn checkpoint(&mut self, alloc: Global) -> Marked {
        self.engine.checkpoint(alloc)
    }

    /// Seals the store.
    pub(crate) fn seal(&mut self, alloc: Global) -> Marked {
        self.engine.seal(alloc)
    }

    /// Returns whether the store is sealed.
    pub(crate) fn sealed(&self) -> bool {
        self.engine.sealed()
    }

    /// Returns a snapshot.
    pub(crate) fn admit(&self) -> Result<Snapshot, AllocError> {
        self.engine.admit()
    }

    /// Returns the number of entries.
    pub(crate) fn entries(&self) -> u64 {
        self.engine.entries()
    }

    /// Returns whether the engine is stopped.
    pub(crate) fn stopped(&self) -> bool {
        self.engine.stopped()
    }

    /// Returns the device.
    pub(crate) fn into_disk(self) -> MemDisk {
        self.engine.into_disk()
    }
}

/// Returns the engine of the store on a device, if it is opened.
pub(crate) fn engine_on(alloc: Global, disk: MemDisk) -> Option<MemEngine> {
    match open_store(alloc, disk) {
        Ok(engine) => Some(MemEngine { engine }),
        Err(_) => None,
    }
}

/// Opens a device, or says that it was not opened.
pub(crate) fn opened(alloc: Global, disk: MemDisk) -> Result<MemEngine, Fail> {
    Ok(engine_on(alloc, disk).ok_or("it was not opened")?)
}

/// Returns an engine of an empty store of this many blocks, which are all of its device. The format made the calls 0 to 7 of the device,
/// and the opening the calls 8 to 10. The calls in the list fail.
pub(crate) fn empty_store(alloc: Global, blocks: usize, failing: &[u64]) -> Result<MemEngine, Fail>
    requires { (8 ≤ blocks) × (blocks ≤ 64) }
{
    let mut disk = MemDisk::new(alloc, blocks, CAPACITY, failing.to_vec(alloc)?)?;
    if format(&mut disk, blocks as u64).is_err() {
        return Err("no store was made".into());
    }
    opened(alloc, disk)
}

/// Adds an entry.
pub(crate) fn step(alloc: Global, engine: &mut MemEngine, entry: &Entry) -> Result<(), Fail> {
    match engine.step(alloc, entry) {
        Ok(_) => Ok(()),
        Err(_) => Err("an entry was refused".into()),
    }
}

/// Adds a checkpoint of this many entries.
pub(crate) fn mark(alloc: Global, engine: &mut MemEngine, entries: u64) -> Result<(), Fail> {
    if engine.checkpoint(alloc) == Ok(entries) {
        return Ok(());
    }
    Err("a checkpoint was refused, or is of other entries".into())
}

/// The id of the stream of [`two_entries`].
pub(crate) const ID: u128 = 0x11111111_1111_4111_8111_111111111111;

/// Returns an engine of a store of this many blocks with a stream and a commit of three points. Their extents have the gates 4 and 6, the
/// leaf of the commit is block 8, and the tail is 9. The entries made the calls 11 to 18 of the device.
pub(crate) fn two_entries(alloc: Global, blocks: usize, failing: &[u64]) -> Result<MemEngine, Fail>
    requires { (8 ≤ blocks) × (blocks ≤ 64) }
{
    let mut engine = empty_store(alloc, blocks, failing)?;
    step(alloc, &mut engine, &Entry::Create { id: ID })?;
    let entry = insert(alloc, 0, &[(0, 5), (3, 7), (4, -2)])?;
    step(alloc, &mut engine, &entry)?;
    Ok(engine)
}

/// A byte of a device: its block, its offset there, and its new value.
pub(crate) type Change = (usize, usize, u8);

/// A row: what is changed, and the block that is then damaged, if any is.
pub(crate) type Row = (&'static [Change], Option<u64>);

/// The bytes with these changes, each in a block this many blocks later.
pub(crate) fn changed(
    alloc: Global,
    whole: &Vec<u8>,
    changes: &[Change],
    later: usize,
) -> Result<Vec<u8>, AllocError> {
    let mut bytes = whole.as_slice().to_vec(alloc)?;
    for (block, offset, value) in changes {
        let block = block.saturating_add(later);
        let at = block.saturating_mul(4096).saturating_add(*offset);
        if let Some(byte) = bytes.get_mut(at) {
            *byte = *value;
        }
    }
    Ok(bytes)
}

/// A device of these bytes, with room for this number of calls.
pub(crate) fn device_of(alloc: Global, bytes: Vec<u8>, calls: usize) -> Result<MemDisk, Fail> {
    if bytes.len() % 4096 != 0 {
        return Err("the bytes are no blocks".into());
    }
    let capacity = Capacity { calls, blocks: 160 };
    Ok(MemDisk::from_bytes(alloc, bytes, capacity, Vec::new(alloc))?)
}

/// Puts bytes at an offset of a block, if there is room.
pub(crate) fn put_piece(bytes: &mut Vec<u8>, block: usize, offset: usize, piece: &[u8]) {
    let at = block.saturating_mul(4096).saturating_add(offset);
    if at <= bytes.len() && piece.len() <= bytes.len() - at {
        bytes[at..at + piece.len()].copy_from_slice(piece);
    }
}

/// The number of entries of the store on a device of these bytes, and the number of calls of the device that an opening makes.
pub(crate) fn calls_of_opening(alloc: Global, bytes: Vec<u8>) -> Result<(u64, u64), Fail> {
    let engine = opened(alloc, device_of(alloc, bytes, 16)?)?;
    Ok((engine.entries(), engine.into_disk().calls()))
}

/// Which block is damaged on a device of these bytes, if any is.
pub(crate) fn damaged(alloc: Global, bytes: Vec<u8>) -> Result<Option<u64>, Fail> {
    match open_store(alloc, device_of(alloc, bytes, 64)?) {
        Ok(_) => Ok(None),
        Err(fault) => match fault.cause {
            OpenCause::Damaged { block } => Ok(Some(block)),
            _ => Err("it was not opened for another cause".into()),
        },
    }
}

/// The first row that is wrong, on a device of these bytes.
pub(crate) fn first_wrong(
    alloc: Global,
    whole: &Vec<u8>,
    rows: &[Row],
) -> Result<Option<usize>, Fail> {
    for (number, (changes, want)) in rows.iter().enumerate() {
        if damaged(alloc, changed(alloc, whole, changes, 0)?)? != *want {
            return Ok(Some(number));
        }
    }
    Ok(None)
}

/// The first row whose changes, this many blocks later, do not damage this block, if any, on a device of these bytes. It is not looked at
/// what the row says.
pub(crate) fn first_other(
    alloc: Global,
    whole: &Vec<u8>,
    rows: &[Row],
    later: usize,
    want: Option<u64>,
) -> Result<Option<usize>, Fail> {
    for (number, (changes, _)) in rows.iter().enumerate() {
        if damaged(alloc, changed(alloc, whole, changes, later)?)? != want {
            return Ok(Some(number));
        }
    }
    Ok(None)
}

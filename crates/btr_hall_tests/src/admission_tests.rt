//! An admission while a commit waits for the device.
ghost use Rattle.std.specs.Prelude.{◌≡◌, ℕ, Bool, true, IfOk};
ghost use Rattle.btr_gate.specs.Shares.{on_path};
ghost use Rattle.btr_engine.specs.Engine.{is_home};
ghost use Rattle.btr_hall.specs.Session.{IsSessionOf, share_of};

use crate::fixture::{Stepped, first_super, wait_for};
use btr_disk::{BlockSource, Capacity, Disk, Failed, MemDisk, Parts};
use btr_engine::{Board, Engine, Receipt};
use btr_hall::{Hall, Session};
use btr_hist::Entry;
use btr_log::Log;
use std::alloc::{AllocError, Global};
use std::snapshot::Snapshot as State;
use std::sync::Wait;
use std::sync::atomic::{AtomicU32, Ordering};
use std::test::Fail;
use std::thread::{Threads, join};

/// What two threads tell each other: that a sync has begun, that an admission has returned, and that a sync met the admission.
#[derive(Drop)]
struct Signals {
    syncing: AtomicU32,
    admitted: AtomicU32,
    met: AtomicU32,
}

impl Signals {
    fn new() -> Signals {
        Signals {
            syncing: AtomicU32::new(0),
            admitted: AtomicU32::new(0),
            met: AtomicU32::new(0),
        }
    }

    /// Tells that a sync has begun, and waits until an admission has returned, or in vain.
    fn wait_in_sync(&self) {
        self.syncing.store(1, Ordering::SeqCst);
        if wait_for(&self.admitted, 1) {
            self.met.store(1, Ordering::SeqCst);
        }
    }
}

/// A device in memory. In each sync it waits for an admission.
#[derive(Drop)]
struct WaitingDisk<'a> {
    disk: MemDisk,
    signals: &'a Signals,
}

impl<'a> Disk for WaitingDisk<'a> {
    ghost use Rattle.btr_disk.specs.contracts.memory.MemDiskDisk.TheImpl.{ghosts};

    ghost is_observable = { ⊥ };

    ghost size = { λ waiting. ghosts.size waiting.disk };

    ghost contents = { λ waiting address. 0 };

    ghost images_now = { λ waiting c. ⊥ };

    ghost images_since = { λ waiting t c. ⊥ };

    ghost calls = { λ waiting. ghosts.calls waiting.disk };

    ghost faults = { λ waiting. ghosts.faults waiting.disk };

    fn blocks(&self) -> u64 {
        self.disk.blocks()
    }

    fn read(&mut self, first: u64, buf: &mut [u8]) -> Result<(), Failed> {
        self.disk.read(first, buf)
    }

    fn write(&mut self, first: u64, bytes: &[u8]) -> Result<(), Failed> {
        self.disk.write(first, bytes)
    }

    fn write_parts<S: BlockSource>(
        &mut self,
        first: u64,
        prefix: &Parts,
        rest: &S,
    ) -> Result<(), Failed> {
        self.disk.write_parts(first, prefix, rest)
    }

    fn sync(&mut self) -> Result<(), Failed> {
        self.signals.wait_in_sync();
        self.disk.sync()
    }

    ghost image_bytes = { λ observable. absurd observable };

    ghost reads_as_image = { λ observable. absurd observable };

    ghost counts_now = { λ observable. absurd observable };

    ghost only_now = { λ observable. absurd observable };

    ghost fewer_later = { λ observable. absurd observable };
}

/// Returns an engine of no entries over a device of 64 blocks, which waits in each sync.
fn waiting<'a>(alloc: Global, signals: &'a Signals) -> Result<Engine<WaitingDisk<'a>>, AllocError>
    ensures { IfOk result (λ e. is_home e ≡ true) }
{
    let capacity = Capacity {
        calls: 256,
        blocks: 128,
    };
    let disk = WaitingDisk {
        disk: MemDisk::new(alloc, 64, capacity, Vec::new(alloc))?,
        signals,
    };
    let synced = State::of(&disk);
    let log = Log::at(disk, 4, 64, 0);
    Ok(Engine::over(log, Board::empty(), first_super(64), synced))
}

/// Makes a stream.
fn create<R: Threads + Wait + Sync, D: Disk>(
    rt: &R,
    alloc: Global,
    hall: &Hall<D>,
    user: Session<D>,
) -> (Session<D>, Stepped)
    requires { IsSessionOf hall.now user }
    ensures own { IsSessionOf hall.now result.0 }
    ensures share { share_of result.0 ≡ share_of user }
{
    let mut user = user;
    let stepped = user.commit(rt, alloc, hall, &Entry::Create { id: 7 });
    (user, stepped)
}

/// Waits for a sync, admits, and tells it. Returns the number of entries in the snapshot.
fn admit<R: Wait, D: Disk>(
    rt: &R,
    hall: &Hall<D>,
    user: Session<D>,
    signals: &Signals,
) -> (Session<D>, Option<u64>)
    requires { IsSessionOf hall.now user }
    ensures own { IsSessionOf hall.now result.0 }
    ensures share { share_of result.0 ≡ share_of user }
{
    let mut user = user;
    wait_for(&signals.syncing, 1);
    let entries = match user.admit(rt, hall) {
        Ok(snapshot) => Some(snapshot.entries()),
        Err(_) => None,
    };
    signals.admitted.store(1, Ordering::SeqCst);
    (user, entries)
}

/// Lets one thread make a stream, and another one admit while the device syncs. Returns the result of the step, and the number of entries
/// in the snapshot.
fn create_and_admit<R: Threads + Wait + Sync, D: Disk + Send>(
    rt: &R,
    alloc: Global,
    hall: &Hall<D>,
    user: Session<D>,
    signals: &Signals,
) -> (Session<D>, Stepped, Option<u64>)
    requires own { IsSessionOf hall.now user }
    ensures own { IsSessionOf hall.now result.0 }
    ensures share { (path : ℕ → Bool) → on_path path (share_of result.0) ≡ on_path path (share_of user) }
{
    let mut user = user;
    let other = user.split(hall);
    let ((mut user, stepped), (other, entries)) = join(
        rt,
        || -> (Session<D>, Stepped)
            requires { IsSessionOf hall.now user }
            ensures own { IsSessionOf hall.entry.now result.0 }
            ensures share { share_of result.0 ≡ share_of user }
        { create(rt, alloc, hall, user) },
        || -> (Session<D>, Option<u64>)
            requires { IsSessionOf hall.now other }
            ensures own { IsSessionOf hall.entry.now result.0 }
            ensures share { share_of result.0 ≡ share_of other }
        { admit(rt, hall, other, signals) },
    );
    user.meet(hall, other);
    (user, stepped, entries)
}

/// What is seen of an admission beside a commit: the result of the commit, the number of entries in the snapshot, and whether a sync met
/// the admission.
type Seen = (Stepped, Option<u64>, u32);

/// Makes a hall over a device that waits, and lets two threads use it.
fn seen_beside<R: Threads + Wait + Sync>(rt: &R, alloc: Global) -> Result<Seen, Fail> {
    let signals = Signals::new();
    let Ok((hall, user)) = Hall::begin(alloc, waiting(alloc, &signals)?) else {
        return Err("out of memory".into());
    };
    let (user, stepped, entries) = create_and_admit(rt, alloc, &hall, user, &signals);
    let _engine = hall.close(user);
    Ok((stepped, entries, signals.met.load(Ordering::SeqCst)))
}

/// A device waits in its sync until a snapshot was taken. So the snapshot has no entry, though the commit is then accepted.
#[test]
fn a_snapshot_is_taken_while_the_device_syncs(rt: HostRuntime) -> Result<(), Fail> {
    let (stepped, entries, met) = seen_beside(&rt, rt.alloc())?;
    let receipt = Receipt {
        number: 1,
        stream: 0,
        version: 0,
    };
    assert!(rt; stepped == Ok(receipt));
    assert!(rt; (entries, met) == (Some(0), 1));
    Ok(())
}

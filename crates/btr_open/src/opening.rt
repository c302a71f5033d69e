//! The opening of a store: which history a device holds.
ghost use Rattle.std.specs.Prelude.{◌≡◌, ℕ, List, IfErr, IfOk};
ghost use Rattle.btr_disk.specs.Causes.{KeepsCounts};
ghost use Rattle.btr_super.specs.Super.{IsSuper};
ghost use Rattle.btr_super.specs.Choose.{IsChosen};
ghost use Rattle.btr_hist.specs.declared.entry.Entry.{Entry as EntrySpec};
ghost use Rattle.btr_engine.specs.Holds.{HoldsHistory};
ghost use Rattle.btr_open.specs.Opening.{KeepsDisk, SyncsFirst, IsOpenedEngine, IsOpenedOn, IsNotOpened};
ghost use Rattle.btr_open.specs.Reading.{CauseBetween, StoreCause, IsReadEngine};
ghost use Rattle.btr_log.specs.Reads.{OnlyReads};

use crate::judge::AnyEntry;
use crate::loading::Loader;
use crate::log_walk::LogWalk;
use btr_disk::{Disk, Failed};
use btr_engine::Engine;
use btr_log::{ExtentFault, Log};
use btr_super::{ChooseFault, Super, choose};
use std::alloc::{AllocError, Global};
use std::snapshot::Snapshot;

/// Why a device was not opened.
#[derive(Clone, Copy, PartialEq, Eq)]
pub enum OpenCause {
    /// Neither superblock has an open gate: the device holds no store.
    NotAStore,

    /// This block breaks the format of a store. In a log it is the first block that does.
    Damaged { block: u64 },

    /// The device failed.
    Fault,

    /// There was not enough memory.
    Want,
}

/// A device that was not opened, and why.
#[derive(Drop)]
pub struct OpenFault<D> {
    pub cause: OpenCause,

    /// The device, as the calls left it.
    pub disk: D,
}

/// Opens the store on a device: returns an engine of the history that the device holds.
///
/// The first call is a sync. All later calls are reads, so nothing is written. After the sync a crash leaves exactly what a
/// read returns: all that the engine answers from is durable.
///
/// The opening chooses the superblock. If it names a checkpoint, the opening reads that, the pages to which its roots lead, and the extents
/// after it, up to the first closed gate; what is before the checkpoint is not read, but for pages. If it names none, the opening reads the
/// extents from block 4 on. A sealed store has no extent after these: if the gate at the tail that its superblock names is open, that gate
/// is damaged.
///
/// Each entry is tested against what is before it: the id and the spec of a new stream; of a commit the stream, its times, its size and
/// the number of versions; of a distillate also what it has read. The trees of all versions are made of the pages: nothing is computed
/// anew from the entries. Each page is tested by itself and against those of its children, and each root by its page. It is not tested
/// that the points of a tree are those of the entries, that the first checkpoint has the streams of the entries before it, or that the
/// cut and the points of a distillate are those of the definition. A later checkpoint is compared with what is before it.
///
/// The block that is named breaks the format: `specs/Start.antt` says which ones may be named of a checkpoint and the pages before it,
/// `specs/Walk.antt` which one is named of the log after it, where it is the first. An observable device without a store, or with a
/// damaged block, is not opened.
///
/// The time is linear in what is read, but for logarithms of the streams, versions and ids. The log is read in pieces of 1 MiB, or of an
/// extent that is larger. Pages before a checkpoint are read in runs of up to 1 MiB, in the order of the versions' roots. The engine keeps
/// all nodes and no entries. Beside them about 128 bytes for each node and 4 bytes for each block of the log are kept while the log is
/// read; at a checkpoint also the streams with their versions, as a list and as bytes.
pub fn open_store<D: Disk>(alloc: Global, disk: D) -> Result<Engine<D>, OpenFault<D>>
    ensures opened { IfOk result (IsOpenedEngine ⟦<D as Disk>⟧ disk) }
    ensures stood { D.is_observable → (h : List EntrySpec) → HoldsHistory (D.size disk) (D.contents disk) h
        → IfOk result (IsOpenedOn ⟦<D as Disk>⟧ h) }
    ensures refused { IfErr result (IsNotOpened ⟦<D as Disk>⟧ disk) }
{
    let mut disk = disk;
    match read_super(&mut disk) {
        Ok((found, synced)) => open_log(alloc, disk, synced, found),
        Err(cause) => Err(OpenFault { cause, disk }),
    }
}

impl From<AllocError> for OpenCause {
    ghost use Rattle.std.specs.Prelude.{◌≡◌};
    ghost use Rattle.btr_open.specs.declared.opening.OpenCause.TheVariants.{Want};

    ghost from_gives = { λ _ e. e ≡ Want };

    fn from(_: AllocError) -> OpenCause {
        OpenCause::Want
    }
}

impl From<Failed> for OpenCause {
    ghost use Rattle.std.specs.Prelude.{◌≡◌};
    ghost use Rattle.btr_open.specs.declared.opening.OpenCause.TheVariants.{Fault};

    ghost from_gives = { λ _ e. e ≡ Fault };

    fn from(_: Failed) -> OpenCause {
        OpenCause::Fault
    }
}

/// Syncs the device and chooses its superblock. It returns the superblock, and the device as the sync left it.
fn read_super<D: Disk>(disk: &mut D) -> Result<(Super, Snapshot<D>), OpenCause>
    ensures kept { KeepsDisk ⟦<D as Disk>⟧ disk.old disk.new }
    ensures synced { IfOk result (λ r. SyncsFirst ⟦<D as Disk>⟧ disk.old r.1.value disk.new) }
    ensures table { IfOk result (λ r. IsSuper (D.size disk.old) r.0) }
    ensures chosen { D.is_observable → IfOk result (λ r. IsChosen (D.size disk.old) (D.contents disk.old) r.0) }
    ensures cause { IfErr result (CauseBetween ⟦<D as Disk>⟧ D.is_observable disk.old disk.new) }
{
    disk.sync()?;
    let synced = Snapshot::of(&*disk);
    match choose(disk) {
        Ok(found) => Ok((found, synced)),
        Err(fault) => Err(cause_of_choice(fault)),
    }
}

/// Converts a fault of the choice of a superblock.
fn cause_of_choice(fault: ChooseFault) -> OpenCause
    ensures none { fault ≡ ChooseFault.NotAStore → result ≡ OpenCause.NotAStore }
    ensures damaged { (block : ℕ) → fault ≡ ChooseFault.Damaged block → result ≡ OpenCause.Damaged block }
    ensures fault { fault ≡ ChooseFault.Fault → result ≡ OpenCause.Fault }
{
    match fault {
        ChooseFault::NotAStore => OpenCause::NotAStore,
        ChooseFault::Damaged { block } => OpenCause::Damaged { block },
        ChooseFault::Fault => OpenCause::Fault,
    }
}

/// Reads the log of the store of this superblock, on a device that was synced, and returns its engine.
fn open_log<D: Disk>(
    alloc: Global,
    disk: D,
    synced: Snapshot<D>,
    found: Super,
) -> Result<Engine<D>, OpenFault<D>>
    requires table { IsSuper (D.size disk) found }
    requires synced { KeepsCounts D.size D.calls D.faults synced.value disk }
    ensures read { IfOk result (IsReadEngine ⟦<D as Disk>⟧ found disk synced.value) }
    ensures reads { IfErr result (λ f. OnlyReads ⟦<D as Disk>⟧ disk f.disk) }
    ensures cause { IfErr result (λ f. StoreCause ⟦<D as Disk>⟧ found disk f.disk f.cause) }
{
    let mut walk = LogWalk::new(alloc, disk, found);
    let read = walk.read_log(&mut AnyEntry);
    let (disk, loader, place) = walk.into_parts();
    match read {
        Ok(()) => {
            let Loader { board, .. } = loader;
            let log = Log::at(disk, place.gate, found.blocks, place.extents);
            Ok(Engine::over(log, board, found, synced))
        }
        Err(cause) => Err(OpenFault { cause, disk }),
    }
}

/// Converts a fault of the log.
pub(crate) fn cause_of(fault: ExtentFault) -> OpenCause
    ensures damaged { (block : ℕ) → fault ≡ ExtentFault.Damaged block → result ≡ OpenCause.Damaged block }
    ensures fault { fault ≡ ExtentFault.Fault → result ≡ OpenCause.Fault }
    ensures want { fault ≡ ExtentFault.Want → result ≡ OpenCause.Want }
{
    match fault {
        ExtentFault::Damaged { block } => OpenCause::Damaged { block },
        ExtentFault::Fault => OpenCause::Fault,
        ExtentFault::Want => OpenCause::Want,
    }
}

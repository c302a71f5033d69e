//! The opening of a sealed store as a shelf. It reads the superblocks, the checkpoint and the gate at the tail, and no node.
ghost use Rattle.std.specs.Prelude.{◌≡◌, ◌⊎◌, ◌+◌, ◌<◌, ◌≤◌, ℕ, List, IfErr, IfOk, OnOk, Err, true, false};
ghost use Rattle.btr_disk.specs.Gate.{IsClosed};
ghost use Rattle.btr_log.specs.Found.{IsWhole, IsWholeExtent, MatchesDevice, FindCause};
ghost use Rattle.btr_log.specs.Reads.{OnlyReads};
ghost use Rattle.btr_super.specs.declared.superblock.Super.{Super as SuperSpec};
ghost use Rattle.btr_super.specs.Super.{IsSuper, has_seal};
ghost use Rattle.btr_super.specs.Choose.{IsChosen};
ghost use Rattle.btr_hist.specs.declared.entry.Entry.{Entry as EntrySpec};
ghost use Rattle.btr_open.specs.declared.sealed.SealedFault.TheVariants.{Unsealed, Fault};
ghost use Rattle.btr_open.specs.Start.{IsWrongStart};
ghost use Rattle.btr_open.specs.Walk.{IsOpenTail};
ghost use Rattle.btr_open.specs.Reads.{PartCause};
ghost use Rattle.btr_open.specs.Sealed.{IsDamagedSealed, IsShelfRead, HoldsSealed, IsHarmlessCause, IsOpenedShelf, SealedCause};
ghost use Rattle.btr_open.specs.Sealed.{IsShelfOfBody, IsWrongBody, IsShelfIn, IsWrongIn};

use crate::log_walk::may_stand;
use crate::opening::{OpenCause, cause_of};
use crate::roll_content::decode_checkpoint;
use crate::shelf::Shelf;
use crate::start::no_checkpoint;
use btr_disk::Disk;
use btr_log::{ExtentFault, Found, Head, find_extent};
use btr_super::{ChooseFault, Super, choose};
use std::alloc::Global;

/// Why a device was not opened as a shelf.
#[derive(Clone, Copy, PartialEq, Eq)]
pub enum SealedFault {
    /// Neither superblock has an open gate: the device holds no store.
    NotAStore,

    /// The store is not sealed.
    Unsealed,

    /// This block breaks the format of a sealed store: that of an open superblock, one of the checkpoint, or the gate at the tail.
    Damaged { block: u64 },

    /// The device failed.
    Fault,

    /// There was not enough memory.
    Want,
}

/// Opens the sealed store on a device as a shelf. All calls are reads, at most five of them: of the superblocks, of the checkpoint that the
/// chosen one names, and of the gate at its tail. No node is read, and no entry.
///
/// A sealed store without a checkpoint is damaged in the body of its superblock. The checkpoint is tested as `open_store` tests it, but for
/// the roots: a walk tests a root when it fetches the root's page. If the gate at the tail is open, its own block is damaged.
///
/// If the device holds a history, the shelf is that of the history, over the pages of the device. The time and the memory are linear in
/// the numbers of streams and of versions.
pub fn open_sealed<D: Disk>(alloc: Global, disk: &mut D) -> Result<Shelf, SealedFault>
    ensures reads { OnlyReads ⟦<D as Disk>⟧ disk.old disk.new }
    ensures calls { D.calls disk.new ≤ D.calls disk.old + 5 }
    ensures opened { IfOk result (IsOpenedShelf ⟦<D as Disk>⟧ disk.old) }
    ensures stood { D.is_observable → (h : List EntrySpec) → HoldsSealed (D.size disk.old) (D.contents disk.old) h
        → IfErr result IsHarmlessCause }
    ensures unsealed { D.is_observable → (s : SuperSpec) → IsChosen (D.size disk.old) (D.contents disk.old) s → has_seal s ≡ false
        → (result ≡ Err Unsealed) ⊎ (result ≡ Err Fault) }
    ensures cause { IfErr result (SealedCause ⟦<D as Disk>⟧ disk.old disk.new) }
{
    let found = match choose(disk) {
        Ok(found) => found,
        Err(fault) => return Err(fault_of_choice(fault)),
    };
    if !found.is_sealed() {
        return Err(SealedFault::Unsealed);
    }
    match read_sealed(alloc, disk, found) {
        Ok(shelf) => Ok(shelf),
        Err(cause) => Err(fault_of(cause)),
    }
}

/// Converts a fault of the choice of a superblock.
fn fault_of_choice(fault: ChooseFault) -> SealedFault
    ensures none { fault ≡ ChooseFault.NotAStore → result ≡ SealedFault.NotAStore }
    ensures damaged { (block : ℕ) → fault ≡ ChooseFault.Damaged block → result ≡ SealedFault.Damaged block }
    ensures fault { fault ≡ ChooseFault.Fault → result ≡ SealedFault.Fault }
{
    match fault {
        ChooseFault::NotAStore => SealedFault::NotAStore,
        ChooseFault::Damaged { block } => SealedFault::Damaged { block },
        ChooseFault::Fault => SealedFault::Fault,
    }
}

/// Converts a cause of an opening.
fn fault_of(cause: OpenCause) -> SealedFault
    ensures none { cause ≡ OpenCause.NotAStore → result ≡ SealedFault.NotAStore }
    ensures damaged { (block : ℕ) → cause ≡ OpenCause.Damaged block → result ≡ SealedFault.Damaged block }
    ensures fault { cause ≡ OpenCause.Fault → result ≡ SealedFault.Fault }
    ensures want { cause ≡ OpenCause.Want → result ≡ SealedFault.Want }
{
    match cause {
        OpenCause::NotAStore => SealedFault::NotAStore,
        OpenCause::Damaged { block } => SealedFault::Damaged { block },
        OpenCause::Fault => SealedFault::Fault,
        OpenCause::Want => SealedFault::Want,
    }
}

/// Reads the checkpoint and the gate at the tail of the sealed store of this superblock.
fn read_sealed<D: Disk>(alloc: Global, disk: &mut D, found: Super) -> Result<Shelf, OpenCause>
    requires table { IsSuper (D.size disk.old) found }
    requires sealed { has_seal found ≡ true }
    ensures reads { OnlyReads ⟦<D as Disk>⟧ disk.old disk.new }
    ensures calls { D.calls disk.new ≤ D.calls disk.old + 4 }
    ensures read { IfOk result (IsShelfRead D.is_observable (D.contents disk.old) found) }
    ensures cause { IfErr result (PartCause ⟦<D as Disk>⟧ (IsDamagedSealed (D.contents disk.old) found) disk.old disk.new) }
{
    if found.checkpoint == 0 {
        return Err(no_checkpoint(found));
    }
    let shelf = match read_shelf(alloc, disk, found) {
        Ok(shelf) => shelf,
        Err(cause) => return Err(cause),
    };
    match read_tail(alloc, disk, found) {
        Ok(()) => Ok(shelf),
        Err(cause) => Err(cause),
    }
}

/// Reads the checkpoint that a superblock names.
fn read_shelf<D: Disk>(alloc: Global, disk: &mut D, found: Super) -> Result<Shelf, OpenCause>
    requires table { IsSuper (D.size disk.old) found }
    requires some { 0 < found.checkpoint }
    ensures reads { OnlyReads ⟦<D as Disk>⟧ disk.old disk.new }
    ensures calls { D.calls disk.new ≤ D.calls disk.old + 2 }
    ensures read { IfOk result (IsShelfRead D.is_observable (D.contents disk.old) found) }
    ensures cause { IfErr result (PartCause ⟦<D as Disk>⟧ (IsWrongStart (D.contents disk.old) found) disk.old disk.new) }
{
    match find_at(alloc, disk, found, found.checkpoint) {
        Ok(there) => shelf_at(alloc, found, there),
        Err(fault) => Err(cause_of(fault)),
    }
}

/// Returns the shelf of what was found at the gate that a superblock names.
fn shelf_at(alloc: Global, found: Super, there: Found) -> Result<Shelf, OpenCause>
    requires some { 0 < found.checkpoint }
    requires side { found.side ≤ 1 }
    requires whole { IsWhole found.blocks found.checkpoint there }
    ensures read { IfOk result (IsShelfIn found there) }
    ensures wrong { IfErr result (IsWrongIn found there) }
{
    match there {
        Found::Extent { head, body, next } => shelf_in(alloc, found, head, &body, next),
        Found::Closed => Err(no_checkpoint(found)),
    }
}

/// Returns the shelf of a checkpoint with this head and this body at the gate that a superblock names.
fn shelf_in(
    alloc: Global,
    found: Super,
    head: Head,
    body: &[u8],
    next: u64,
) -> Result<Shelf, OpenCause>
    requires some { 0 < found.checkpoint }
    requires side { found.side ≤ 1 }
    requires whole { IsWholeExtent found.blocks found.checkpoint head body.now next }
    ensures read { IfOk result (IsShelfOfBody found body.now) }
    ensures wrong { IfErr result (IsWrongBody found body.now) }
{
    if head.kind != 2 || next != found.tail {
        return Err(no_checkpoint(found));
    }
    if !may_stand(&found, &head) {
        return Err(OpenCause::Damaged {
            block: found.checkpoint + 1,
        });
    }
    match decode_checkpoint(alloc, &head, body, found.checkpoint) {
        Ok(Some(roll)) => match Shelf::of(alloc, roll, head.number) {
            Ok(shelf) => Ok(shelf),
            Err(_) => Err(OpenCause::Want),
        },
        Ok(None) => Err(OpenCause::Damaged {
            block: found.checkpoint + 1,
        }),
        Err(_) => Err(OpenCause::Want),
    }
}

/// Reads the gate at the tail of the sealed store of this superblock, which must be closed.
fn read_tail<D: Disk>(alloc: Global, disk: &mut D, found: Super) -> Result<(), OpenCause>
    requires table { IsSuper (D.size disk.old) found }
    requires sealed { has_seal found ≡ true }
    ensures reads { OnlyReads ⟦<D as Disk>⟧ disk.old disk.new }
    ensures calls { D.calls disk.new ≤ D.calls disk.old + 2 }
    ensures closed { D.is_observable → OnOk result (IsClosed (D.contents disk.old) found.tail) }
    ensures cause { IfErr result (PartCause ⟦<D as Disk>⟧ (IsOpenTail (D.contents disk.old) found found.tail) disk.old disk.new) }
{
    match find_at(alloc, disk, found, found.tail) {
        Ok(Found::Closed) => Ok(()),
        Ok(Found::Extent { .. }) | Err(ExtentFault::Damaged { .. }) => {
            Err(OpenCause::Damaged { block: found.tail })
        }
        Err(ExtentFault::Fault) => Err(OpenCause::Fault),
        Err(ExtentFault::Want) => Err(OpenCause::Want),
    }
}

/// Reads what is at a gate of the store of this superblock.
fn find_at<D: Disk>(
    alloc: Global,
    disk: &mut D,
    found: Super,
    gate: u64,
) -> Result<Found, ExtentFault>
    requires table { IsSuper (D.size disk.old) found }
    requires gate { gate < found.blocks }
    ensures reads { OnlyReads ⟦<D as Disk>⟧ disk.old disk.new }
    ensures calls { D.calls disk.new ≤ D.calls disk.old + 2 }
    ensures whole { IfOk result (IsWhole found.blocks gate) }
    ensures matches { D.is_observable → IfOk result (MatchesDevice (D.contents disk.old) gate) }
    ensures cause { IfErr result (FindCause D.is_observable (D.contents disk.old) found.blocks gate
        (D.faults disk.old) (D.faults disk.new)) }
{
    find_extent(alloc, disk, found.blocks, gate)
}

//! The check of a device.
ghost use Rattle.std.specs.Prelude.{◌≡◌, ◌^◌, ◌≤◌, IfErr, IfOk};
ghost use Rattle.btr_super.specs.declared.superblock.Super.{Super as SuperSpec};
ghost use Rattle.btr_super.specs.Super.{IsSuper};
ghost use Rattle.btr_super.specs.Choose.{IsChosen};
ghost use Rattle.btr_log.specs.Reads.{OnlyReads};
ghost use Rattle.btr_open.specs.Seen.{EndsInside};
ghost use Rattle.btr_verify.specs.Trees.{VerifyCause};
ghost use Rattle.btr_check.specs.declared.verdict.Verdict.{Verdict as VerdictSpec};
ghost use Rattle.btr_check.specs.Verdict.{IsVerdict, named_block};
ghost use Rattle.btr_check.specs.Check.{VerdictHolds, IsUnlessEnded};
ghost use Rattle.btr_check.specs.Checking.{verdict_of_choice, verdict_of_cause, verdict_of_trees};
ghost use Rattle.btr_check.specs.Checking.{VerdictBetween, IsCheckedLog, WasChecked, AreTreesFound};

use crate::checker::Checker;
use crate::checkpoints::{ends_at_seal, is_named};
use crate::remains::CheckRemains;
use crate::verdict::Verdict;
use btr_disk::Disk;
use btr_open::{OpenCause, WholeLog, read_judged};
use btr_super::{ChooseFault, Super, choose};
use btr_verify::{VerifyFault, first_wrong_node};
use std::alloc::Global;

/// A device that was checked, the verdict on it, and what the check leaves in memory.
#[derive(Drop)]
pub struct Checked<D> {
    pub verdict: Verdict,

    /// The device, as the calls left it.
    pub disk: D,

    /// What the check leaves in memory, if it read the whole log.
    pub remains: Option<CheckRemains>,
}

/// Checks whether a device holds a legal history, and returns the verdict. It writes and syncs nothing.
///
/// It chooses the superblock, and reads the whole log from its first gate, whatever checkpoint the superblock names. Each entry is tested
/// against those before it: whether it may follow them, and whether its root is 0 exactly if its version has no point. Each distillate is
/// computed anew from what it has read, and compared. Each checkpoint is compared with the entries before it, and the superblock is to name
/// one of them, or the first gate. The log of a sealed store is to end at the superblock's tail. Then each stored page is compared once
/// with the node of its span in the tree of its version, which is made of the entries, so that for each root it is known whether it leads
/// to the tree of its version.
///
/// The first block that is wrong is named; but in a sealed store, if the log breaks the format after the tail, the tail.
/// `specs/Verdict.antt` says which block this is. At most one verdict is right ([`one_verdict_holds`](crate::one_verdict_holds)), and this
/// call returns it, unless the device fails or memory runs out.
///
/// The log is read once as an opening reads it, in pieces of 1 MiB or of an extent that is larger; then its pages are read once more, in
/// runs of 1 MiB. The time is linear in the bytes of the log and in what the commits and the distillates cost when they are made. The
/// memory is what two engines of the history take, one made of the pages and one made of the entries, and 24 bytes for each entry, 16 bytes
/// for each checkpoint and a few bytes for each block of the log.
pub fn check<D: Disk>(alloc: Global, disk: D) -> Checked<D>
    ensures reads { OnlyReads ⟦<D as Disk>⟧ disk result.disk }
    ensures verdict { VerdictHolds D.is_observable (D.size disk) (D.contents disk) (D.faults disk) (D.faults result.disk) result.verdict }
    ensures exactly { D.is_observable → (v : VerdictSpec) → IsVerdict (D.size disk) (D.contents disk) v → IsUnlessEnded v result.verdict }
{
    let mut disk = disk;
    match choose(&mut disk) {
        Ok(found) => check_store(alloc, disk, found),
        Err(fault) => Checked {
            verdict: verdict_of_choice(fault),
            disk,
            remains: None,
        },
    }
}

/// Checks the store of the superblock that was chosen.
fn check_store<D: Disk>(alloc: Global, disk: D, found: Super) -> Checked<D>
    requires table { IsSuper (D.size disk) found }
    requires chosen { D.is_observable → IsChosen (D.size disk) (D.contents disk) found }
    ensures reads { OnlyReads ⟦<D as Disk>⟧ disk result.disk }
    ensures verdict { VerdictBetween ⟦<D as Disk>⟧ disk result.disk result.verdict }
{
    let mut checker = Checker::empty(alloc);
    let (disk, read) = read_judged(alloc, disk, found, &mut checker);
    match read {
        Ok(whole) => {
            let (verdict, disk) = check_whole(alloc, disk, found, &checker, &whole);
            Checked {
                verdict,
                disk,
                remains: Some(CheckRemains { checker, whole }),
            }
        }
        Err(cause) => Checked {
            verdict: verdict_of_cause(&found, cause),
            disk,
            remains: None,
        },
    }
}

/// Checks what is left when the log was read whole: the start that the superblock names, the end that it names if the store is sealed, and
/// the trees.
fn check_whole<D: Disk>(
    alloc: Global,
    disk: D,
    found: Super,
    checker: &Checker,
    whole: &WholeLog,
) -> (Verdict, D)
    requires table { IsSuper (D.size disk) found }
    requires chosen { D.is_observable → IsChosen (D.size disk) (D.contents disk) found }
    requires ends { EndsInside found.blocks whole.now }
    requires read { WasChecked ⟦<D as Disk>⟧ disk found checker.now whole.now }
    ensures reads { OnlyReads ⟦<D as Disk>⟧ disk result.1 }
    ensures verdict { VerdictBetween ⟦<D as Disk>⟧ disk result.1 result.0 }
{
    if !is_named(&checker.checkpoints, &found) {
        let block = 2 * (found.side as u64) + 1;
        return (Verdict::Wrong { block }, disk);
    }
    if !ends_at_seal(&found, whole.tail) {
        return (Verdict::Wrong { block: found.tail }, disk);
    }
    let mut disk = disk;
    let trees = judge_trees(alloc, &mut disk, checker, whole);
    let verdict = verdict_of_trees(checker.board.entries(), trees);
    (verdict, disk)
}

/// Judges the trees that are stored on a device, by the entries of the whole log. Returns the block of the first wrong node, if there is
/// one.
fn judge_trees<D: Disk>(
    alloc: Global,
    disk: &mut D,
    checker: &Checker,
    whole: &WholeLog,
) -> Result<Option<u64>, VerifyFault>
    requires ends { EndsInside (D.size disk.old) whole.now }
    requires addressable { whole.now.tail ≤ 2 ^ 32 }
    ensures reads { OnlyReads ⟦<D as Disk>⟧ disk.old disk.new }
    ensures found { D.is_observable → (s : SuperSpec) (l : IsCheckedLog (D.contents disk.old) s checker.now whole.now)
        → IfOk result (AreTreesFound l.log.pages l.seen.entries l.seen.roots) }
    ensures cause { IfErr result (VerifyCause ⟦<D as Disk>⟧ disk.old disk.new) }
{
    let snapshot = checker.board.admit()?;
    first_wrong_node(
        alloc,
        disk,
        &whole.nodes,
        &snapshot,
        &checker.made,
        whole.tail,
    )
}

/// The verdict on a device whose superblock was not chosen.
fn verdict_of_choice(fault: ChooseFault) -> Verdict
    ensures { result ≡ verdict_of_choice fault }
{
    match fault {
        ChooseFault::NotAStore => Verdict::NotAStore,
        ChooseFault::Damaged { block } => Verdict::Wrong { block },
        ChooseFault::Fault => Verdict::Fault,
    }
}

/// The verdict on a device whose log was not read whole.
fn verdict_of_cause(found: &Super, cause: OpenCause) -> Verdict
    ensures { result ≡ verdict_of_cause found.now cause }
{
    match cause {
        OpenCause::NotAStore => Verdict::NotAStore,
        OpenCause::Damaged { block } => verdict_of_damage(found, block),
        OpenCause::Fault => Verdict::Fault,
        OpenCause::Want => Verdict::Want,
    }
}

/// The verdict on a device whose log is damaged in this block. The log of a sealed store has to end at its tail: if the damage is after the
/// tail, the tail is named.
fn verdict_of_damage(found: &Super, block: u64) -> Verdict
    ensures { result ≡ Verdict.Wrong (named_block found.now block) }
{
    if found.is_sealed() {
        let block = block.min(found.tail);
        Verdict::Wrong { block }
    } else {
        Verdict::Wrong { block }
    }
}

/// The verdict on a device whose log is legal, with this number of entries, by what was found out of its trees.
fn verdict_of_trees(entries: u64, trees: Result<Option<u64>, VerifyFault>) -> Verdict
    ensures { result ≡ verdict_of_trees entries trees }
{
    match trees {
        Ok(None) => Verdict::Stands { entries },
        Ok(Some(block)) => Verdict::Wrong { block },
        Err(VerifyFault::Fault) => Verdict::Fault,
        Err(VerifyFault::Want) => Verdict::Want,
    }
}

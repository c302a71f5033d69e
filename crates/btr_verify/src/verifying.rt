//! The first wrong node of the trees that are stored on a device.
ghost use Rattle.std.specs.Prelude.{◌^◌, ◌<◌, ◌≤◌, ℕ, List, IfErr, IfOk, IsSome};
ghost use Rattle.btr_tree.specs.PageNodes.{Pages};
ghost use Rattle.btr_pages.specs.Known.{node_at};
ghost use Rattle.btr_hist.specs.declared.entry.Entry.{Entry as EntrySpec};
ghost use Rattle.btr_log.specs.Reads.{OnlyReads};
ghost use Rattle.btr_verify.specs.Trees.{AreToVerify, IsVerified, VerifyCause};

use crate::descending::descend;
use crate::marking::mark_blocks;
use crate::roots::{first_that_fails, has_tree_version};
use btr_disk::Disk;
use btr_log::Piece;
use btr_pages::Trees;
use btr_streams::Snapshot;
use std::alloc::{AllocError, Global};

/// A commit of a log: which version of which stream it made, and the block of its root, or 0 if its tree has no node.
#[derive(Clone, Copy)]
pub struct Made {
    /// The number of the stream.
    pub stream: u32,

    /// The version of the stream.
    pub version: u64,

    /// The block of the root of the version's tree, or 0 if the tree has no node.
    pub root: u64,
}

/// Why nothing was found out.
#[derive(Clone, Copy, PartialEq, Eq)]
pub enum VerifyFault {
    /// The device failed.
    Fault,

    /// There was no memory.
    Want,
}

impl From<AllocError> for VerifyFault {
    ghost use Rattle.std.specs.Prelude.{◌≡◌};
    ghost use Rattle.btr_verify.specs.declared.verifying.VerifyFault.TheVariants.{Want};

    ghost from_gives = { λ _ e. e ≡ Want };

    fn from(_: AllocError) -> VerifyFault {
        VerifyFault::Want
    }
}

/// Returns `None` if each root leads to the tree of its version, as the entries have it. Else it returns the block of the first wrong
/// node: of the first commit in `made` whose root does not lead to its version's tree, parents before children, and slots in order. That
/// is the root's own block, and so it may be 0, if there is a root exactly where the version has no point, or if the root's page is wrong.
///
/// `nodes` has the trees of all pages of the device, which are in blocks below the tail, and `snapshot` the trees of the entries. The
/// commits are those of the entries. It reads each block below the tail that has a page once, in runs of 1 MiB, compares it with the node
/// of its span in the tree of its version, which takes time linear in its points or slots, and takes one byte of memory for each block
/// below the tail. Then it takes logarithmic time for each commit, and reads at most 11 blocks again.
pub fn first_wrong_node<D: Disk>(
    alloc: Global,
    disk: &mut D,
    nodes: &Trees,
    snapshot: &Snapshot,
    made: &[Made],
    tail: u64,
) -> Result<Option<u64>, VerifyFault>
    requires below { (block : ℕ) → IsSome (node_at nodes.now block) → block < tail }
    requires inside { tail ≤ D.size disk.old }
    requires addressable { tail ≤ 2 ^ 32 }
    ensures reads { OnlyReads ⟦<D as Disk>⟧ disk.old disk.new }
    ensures verified { D.is_observable → (pages : Pages) (h : List EntrySpec)
        → AreToVerify (D.contents disk.old) pages h nodes.now snapshot.now made.now → IfOk result (IsVerified pages h made.now) }
    ensures cause { IfErr result (VerifyCause ⟦<D as Disk>⟧ disk.old disk.new) }
{
    let mut piece = Piece::new(alloc);
    let marks = mark_blocks(alloc, &mut piece, disk, nodes, snapshot, tail)?;
    let Some(commit) = first_that_fails(nodes, snapshot, &marks, made) else {
        return Ok(None);
    };
    if !has_tree_version(nodes, snapshot, &commit) {
        return Ok(Some(commit.root));
    }
    let block = descend(&mut piece, disk, &marks, tail, commit.root)?;
    Ok(Some(block))
}

//! The marks of all blocks: each page is judged once, children before their parents.
ghost use Rattle.std.specs.Prelude.{◌≡◌, ◌<◌, ℕ, List, [], ◌∷◌, ◌++◌, IfErr, IfOk, IfSome, OnOk};
ghost use Rattle.btr_disk.specs.Bytes.{Image};
ghost use Rattle.btr_node.specs.Page.{Keeps};
ghost use Rattle.btr_tree.specs.PageNodes.{Pages};
ghost use Rattle.btr_hist.specs.declared.entry.Entry.{Entry as EntrySpec};
ghost use Rattle.btr_verify.specs.Trees.{VerifyCause};
ghost use Rattle.btr_verify.specs.Judging.{AreMarksOf, CanJudge, CanReadTo, IsKnownPage, IsMarkOf, ReadsBelow};

use crate::judging::{Mark, judge};
use crate::reading::read_page;
use crate::verifying::VerifyFault;
use btr_disk::Disk;
use btr_log::Piece;
use btr_node::NodePage;
use btr_pages::Trees;
use btr_streams::Snapshot;
use std::alloc::{AllocError, Global};

/// Judges the pages of all blocks below the tail. It reads each of them once.
pub(crate) fn mark_blocks<D: Disk>(
    alloc: Global,
    piece: &mut Piece,
    disk: &mut D,
    nodes: &Trees,
    snapshot: &Snapshot,
    tail: u64,
) -> Result<Vec<Mark>, VerifyFault>
    requires can { CanReadTo ⟦<D as Disk>⟧ tail piece.old disk.old }
    ensures reads { ReadsBelow ⟦<D as Disk>⟧ tail disk.old disk.new piece.new }
    ensures marked { D.is_observable → IfOk result (λ marks. AreMarksOf (D.contents disk.old) nodes.now snapshot.now tail marks.items) }
    ensures cause { IfErr result (VerifyCause ⟦<D as Disk>⟧ disk.old disk.new) }
{
    let mut marks = Vec::new(alloc);
    for block in 0..tail {
        let page = known_page(piece, disk, nodes, tail, block)?;
        let mark = mark_of(snapshot, &marks, &page);
        add(&mut marks, mark)?;
    }
    Ok(marks)
}

/// Reads the page in a block below the tail, if a tree was made of it. `None` is that the block has no page.
fn known_page<D: Disk>(
    piece: &mut Piece,
    disk: &mut D,
    nodes: &Trees,
    tail: u64,
    block: u64,
) -> Result<Option<NodePage>, VerifyFault>
    requires below { block < tail }
    requires can { CanReadTo ⟦<D as Disk>⟧ tail piece.old disk.old }
    ensures reads { ReadsBelow ⟦<D as Disk>⟧ tail disk.old disk.new piece.new }
    ensures keeps { IfOk result (λ o. IfSome o (λ page. Keeps page)) }
    ensures page { D.is_observable → IfOk result (IsKnownPage (D.contents disk.old) nodes.now block) }
    ensures cause { IfErr result (VerifyCause ⟦<D as Disk>⟧ disk.old disk.new) }
{
    if nodes.get(block).is_none() {
        return Ok(None);
    }
    read_page(piece, disk, tail, block)
}

/// Judges the page of a block, by the marks of the blocks below it. A block without a page is marked as wrong.
fn mark_of(snapshot: &Snapshot, marks: &[Mark], page: &Option<NodePage>) -> Mark
    requires { IfSome page.now (λ p. Keeps p) }
    ensures { (pages : Pages) (h : List EntrySpec) (image : Image) (block : ℕ)
        → CanJudge pages h image block marks.now snapshot.now page.now → IfSome page.now (IsMarkOf pages h block result) }
{
    match page {
        None => Mark::Wrong,
        Some(page) => judge(snapshot, marks, page),
    }
}

/// Adds a mark. An `Err` is out of memory.
fn add(marks: &mut Vec<Mark>, mark: Mark) -> Result<(), AllocError>
    ensures { OnOk result (marks.new.items ≡ marks.old.items ++ mark ∷ []) }
{
    marks.push(mark)?;
    Ok(())
}

//! The way from a root that does not lead to its version's tree to the first wrong node.
ghost use Rattle.std.specs.Prelude.{◌<◌, IfErr, IfOk, IfSome};
ghost use Rattle.btr_log.specs.Reads.{OnlyReads};
ghost use Rattle.btr_verify.specs.Trees.{VerifyCause};
ghost use Rattle.btr_verify.specs.Judging.{CanReadTo, IsNamedFrom, IsNextFrom, ReadsBelow};

use crate::judging::{Mark, first_not_right, is_wrong_below};
use crate::reading::read_page;
use crate::verifying::VerifyFault;
use btr_disk::Disk;
use btr_log::Piece;

/// The block of the first wrong node of a page that is not right with all pages below it. It reads at most one page a height.
pub(crate) fn descend<D: Disk>(
    piece: &mut Piece,
    disk: &mut D,
    marks: &[Mark],
    tail: u64,
    block: u64,
) -> Result<u64, VerifyFault>
    requires below { block < tail }
    requires can { CanReadTo ⟦<D as Disk>⟧ tail piece.old disk.old }
    ensures reads { OnlyReads ⟦<D as Disk>⟧ disk.old disk.new }
    ensures named { D.is_observable → IfOk result (IsNamedFrom (D.contents disk.old) tail marks.now block) }
    ensures cause { IfErr result (VerifyCause ⟦<D as Disk>⟧ disk.old disk.new) }
{
    let mut at = block;
    loop {
        match wrong_child(piece, disk, marks, tail, at)? {
            None => return Ok(at),
            Some(child) => at = child,
        }
    }
}

/// The block of the first child of a page that is not right, if the page's own fields are right. It reads at most the page's own block.
fn wrong_child<D: Disk>(
    piece: &mut Piece,
    disk: &mut D,
    marks: &[Mark],
    tail: u64,
    block: u64,
) -> Result<Option<u64>, VerifyFault>
    requires below { block < tail }
    requires can { CanReadTo ⟦<D as Disk>⟧ tail piece.old disk.old }
    ensures reads { ReadsBelow ⟦<D as Disk>⟧ tail disk.old disk.new piece.new }
    ensures lower { IfOk result (λ o. IfSome o (λ child. child < block)) }
    ensures child { D.is_observable → IfOk result (IsNextFrom (D.contents disk.old) tail marks.now block) }
    ensures cause { IfErr result (VerifyCause ⟦<D as Disk>⟧ disk.old disk.new) }
{
    if !is_wrong_below(marks, block) {
        return Ok(None);
    }
    let Some(page) = read_page(piece, disk, block + 1, block)? else {
        return Ok(None);
    };
    let Some(child) = first_not_right(marks, &page) else {
        return Ok(None);
    };
    if child >= block {
        return Ok(None);
    }
    Ok(Some(child))
}

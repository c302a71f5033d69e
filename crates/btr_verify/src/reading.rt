//! The pages of a device, which are read in runs of blocks.
ghost use Rattle.std.specs.Prelude.{◌≡◌, ◌<◌, IfErr, IfOk, IfSome, OnOk};
ghost use Rattle.btr_log.specs.Piece.{HoldsBlocks};
ghost use Rattle.btr_node.specs.Page.{Fits, Keeps};
ghost use Rattle.btr_verify.specs.Trees.{VerifyCause};
ghost use Rattle.btr_verify.specs.Judging.{CanReadTo, IsPageRead, ReadsBelow};

use crate::verifying::VerifyFault;
use btr_disk::Disk;
use btr_log::{ExtentFault, Piece, READ_AHEAD};
use btr_node::{NodePage, decode};

/// Reads the page in a block below the tail. `None` is that the block has no page. If the piece does not hold the block, it is read
/// with those after it, up to the tail, and the piece holds nothing else then.
pub(crate) fn read_page<D: Disk>(
    piece: &mut Piece,
    disk: &mut D,
    tail: u64,
    block: u64,
) -> Result<Option<NodePage>, VerifyFault>
    requires below { block < tail }
    requires can { CanReadTo ⟦<D as Disk>⟧ tail piece.old disk.old }
    ensures reads { ReadsBelow ⟦<D as Disk>⟧ tail disk.old disk.new piece.new }
    ensures keeps { IfOk result (λ o. IfSome o (λ page. Keeps page)) }
    ensures fits { IfOk result (λ o. IfSome o (λ page. Fits page)) }
    ensures page { D.is_observable → IfOk result (IsPageRead (D.contents disk.old) block) }
    ensures cause { IfErr result (VerifyCause ⟦<D as Disk>⟧ disk.old disk.new) }
{
    hold(piece, disk, tail, block)?;
    Ok(decode(piece.held(block)))
}

/// Makes the piece hold a block below the tail.
fn hold<D: Disk>(piece: &mut Piece, disk: &mut D, tail: u64, block: u64) -> Result<(), VerifyFault>
    requires below { block < tail }
    requires can { CanReadTo ⟦<D as Disk>⟧ tail piece.old disk.old }
    ensures reads { ReadsBelow ⟦<D as Disk>⟧ tail disk.old disk.new piece.new }
    ensures held { OnOk result (HoldsBlocks piece.new block 1) }
    ensures cause { IfErr result (VerifyCause ⟦<D as Disk>⟧ disk.old disk.new) }
{
    if piece.holds(block, 1) {
        return Ok(());
    }
    match piece.read(disk, block, READ_AHEAD.min(tail - block)) {
        Ok(()) => Ok(()),
        Err(ExtentFault::Want) => Err(VerifyFault::Want),
        Err(_) => Err(VerifyFault::Fault),
    }
}

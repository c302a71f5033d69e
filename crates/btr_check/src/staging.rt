//! The next entry of a log, as a check judges it: by a board of the entries before it.
ghost use Rattle.std.specs.Prelude.{◌≡◌, ◌↔◌, ◌<◌, ◌+◌, ◌-◌, ◌^◌, List, [], ◌∷◌, ◌++◌, IfOk, IfSome, IsTrue, MatchOption, None};
ghost use Rattle.btr_hist.specs.declared.entry.Entry.{Entry as EntrySpec};
ghost use Rattle.btr_hist.specs.History.{bag};
ghost use Rattle.btr_hist.specs.Legal.{rejection};
ghost use Rattle.btr_streams.specs.Board.{IsBoardOf, HasVersion};
ghost use Rattle.btr_streams.specs.Stage.{IsReceipt, IsStagedEntry};
ghost use Rattle.btr_check.specs.Rule.{FitsPoints};
ghost use Rattle.btr_check.specs.Staging.{IsStagedIfAllowed};

use btr_engine::{Alone, Board, PushFault, Receipt, Staged};
use btr_hist::Entry;
use btr_plan::is_computed;
use btr_super::LOG_START;
use std::alloc::{AllocError, Global};

/// Stages an entry on a board, if the entry is allowed after the entries of the board: it may follow, and a distillate is computed anew.
/// It returns `None` if the entry is not allowed.
pub(crate) fn stage_allowed(
    alloc: Global,
    board: &Board,
    entry: &Entry,
) -> Result<Option<Staged>, AllocError>
    requires few { board.now.entries < 2 ^ 64 - 1 }
    ensures allowed { (h : List EntrySpec) → IsBoardOf h board.now → IfOk result (IsStagedIfAllowed h entry.now) }
    ensures counted { IfOk result (λ o. IfSome o (λ s. s.next.entries ≡ board.now.entries + 1)) }
{
    let Some(staged) = stage(alloc, board, entry)? else {
        return Ok(None);
    };
    let before = board.admit()?;
    if is_computed(alloc, &before, entry)? {
        Ok(Some(staged))
    } else {
        Ok(None)
    }
}

/// Stages an entry on a board, if it may follow. The blocks of its nodes do not matter, since no node is written.
fn stage(alloc: Global, board: &Board, entry: &Entry) -> Result<Option<Staged>, AllocError>
    requires few { board.now.entries < 2 ^ 64 - 1 }
    ensures staged { (h : List EntrySpec) → IsBoardOf h board.now
        → IfOk result (λ o. MatchOption o (rejection h entry.now ≡ None → ⊥) (IsStagedEntry h entry.now)) }
    ensures counted { IfOk result (λ o. IfSome o (λ s. s.next.entries ≡ board.now.entries + 1)) }
{
    match board.stage(&Alone, alloc, entry, LOG_START) {
        Ok(staged) => Ok(Some(staged)),
        Err(PushFault::Rejected(_)) => Ok(None),
        Err(PushFault::Want) => Err(AllocError),
    }
}

/// Whether the root of an entry is 0 exactly if the version that the entry makes has no point. The board has the entry, and this is its
/// receipt. Nothing is said of an entry that makes no version.
pub(crate) fn fits_points(board: &Board, entry: &Entry, receipt: &Receipt, root: u64) -> bool
    ensures { (h : List EntrySpec) → IsBoardOf (h ++ entry.now ∷ []) board.now → IsReceipt h entry.now receipt.now
        → IsTrue result ↔ FitsPoints h entry.now root }
{
    match entry {
        Entry::Create { .. } | Entry::Define { .. } | Entry::Retire { .. } => true,
        Entry::Commit { .. } | Entry::Distillate { .. } => {
            (root == 0) == is_empty(board, receipt.stream, receipt.version)
        }
    }
}

/// Whether a version of a stream has no point. The board has the version.
fn is_empty(board: &Board, stream: u32, version: u64) -> bool
    ensures { (h : List EntrySpec) → IsBoardOf h board.now → HasVersion h stream version
        → IsTrue result ↔ (bag h stream version ≡ []) }
{
    match board.tree(stream, version) {
        Some(tree) => tree.count() == 0,
        None => true,
    }
}

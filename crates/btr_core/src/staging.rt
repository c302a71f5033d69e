//! Staging: an entry, or a plan, with the board that it makes.
ghost use Rattle.std.specs.Prelude.{◌≡◌, List, IfOk};
ghost use Rattle.btr_hist.specs.declared.entry.Entry.{Entry as EntrySpec};
ghost use Rattle.btr_hist.specs.Legal.{rejection, Legal};
ghost use Rattle.btr_hist.specs.Machine.{Reply as ModelReply, committed, commit_reply};
ghost use Rattle.btr_streams.specs.Board.{IsBoardOf};
ghost use Rattle.btr_plan.specs.Plan.{IsPlanOf, reply_to, landed_after};
ghost use Rattle.btr_core.specs.Events.{reply_of};
ghost use Rattle.btr_core.specs.Staging.{Makes};

use crate::event::Reply;
use btr_distil::Plan;
use btr_hist::Entry;
use btr_streams::{Alone, Board, PushFault, Staged};
use std::alloc::{AllocError, Global};

/// The block that the first node of each entry is staged for. Nothing is written here, so the nodes are dropped.
const FIRST_NODE: u64 = 5;

/// What becomes of an entry that is committed or landed. The board is as it was until the entry is accepted.
#[derive(Drop)]
pub(crate) enum StageOutcome {
    /// The entry may follow the history.
    Staged(Staged),

    /// The entry may not follow, or its plan may not land. This is the reply.
    Refused(Reply),
}

/// Tests an entry, and makes the board with it. An `Err` means out of memory.
pub(crate) fn stage(alloc: Global, board: &Board, entry: &Entry) -> Result<StageOutcome, AllocError>
    ensures { (h : List EntrySpec) → IsBoardOf h board.now → IfOk result
        (Makes h (commit_reply h entry.now (rejection h entry.now)) (committed h entry.now (rejection h entry.now))) }
{
    if board.entries() == u64::MAX {
        // no memory holds a board of this many entries
        return Err(AllocError);
    }
    match board.stage(&Alone, alloc, entry, FIRST_NODE) {
        Ok(staged) => Ok(StageOutcome::Staged(staged)),
        Err(PushFault::Rejected(why)) => Ok(StageOutcome::Refused(Reply::Rejected(why))),
        Err(PushFault::Want) => Err(AllocError),
    }
}

/// Tests a plan, and makes the board with its entry. The plan has its own reads, and lands only on the version of its output that
/// it was made for. An `Err` means out of memory.
pub(crate) fn stage_plan(
    alloc: Global,
    board: &Board,
    plan: &Plan,
) -> Result<StageOutcome, AllocError>
    ensures { (h : List EntrySpec) → IsBoardOf h board.now → Legal h → IsPlanOf h plan.now
        → IfOk result (Makes h (reply_to h plan.now) (landed_after h plan.now)) }
{
    let version = board.latest(plan.stream()).unwrap_or(0);
    if plan.base() < version {
        return Ok(StageOutcome::Refused(Reply::Superseded { version }));
    }
    stage(alloc, board, plan.entry())
}

/// Accepts what was staged, and returns the reply. If the entry was refused, the board stays as it is. It takes no memory.
pub(crate) fn finish(board: &mut Board, outcome: StageOutcome) -> Reply
    ensures { (h next : List EntrySpec) (reply : ModelReply) → IsBoardOf h board.old → Makes h reply next outcome
        → (reply_of result ≡ reply) × IsBoardOf next board.new }
{
    match outcome {
        StageOutcome::Staged(staged) => Reply::Accepted(board.accept(staged)),
        StageOutcome::Refused(reply) => reply,
    }
}

//! The judge of a check: what it has seen of a log, and which entry it lets follow.
ghost use Rattle.std.specs.Prelude.{◌≡◌, length};

use crate::checkpoints::Checkpoint;
use crate::staging::{fits_points, stage_allowed};
use btr_engine::Board;
use btr_hist::Entry;
use btr_open::Judge;
use btr_verify::Made;
use std::alloc::{AllocError, Global};

/// What a check has seen of a log, from its first gate on.
#[derive(Drop)]
pub(crate) struct Checker {
    /// The board of the entries. Its trees are made of the entries, and not of pages.
    pub(crate) board: Board,

    /// The version that each entry makes, with its root. An entry that makes a stream makes version 0 of it.
    pub(crate) made: Vec<Made>,

    /// The checkpoints, in order.
    pub(crate) checkpoints: Vec<Checkpoint>,

    ghost counted: { board.entries ≡ length made.items },
}

impl Checker {
    ghost use Rattle.btr_open.specs.Seen.{nothing_seen};
    ghost use Rattle.btr_check.specs.Checker.{HasSeen};

    /// A checker that has seen nothing. It takes no memory.
    pub(crate) fn empty(alloc: Global) -> Checker
        ensures { HasSeen nothing_seen result }
    {
        Checker {
            board: Board::empty(),
            made: Vec::new(alloc),
            checkpoints: Vec::new(alloc),
        }
    }
}

impl Judge for Checker {
    ghost use Rattle.btr_check.specs.Rule.{MayStand};
    ghost use Rattle.btr_check.specs.Checker.{HasSeen};

    ghost is_after = { HasSeen };

    ghost may = { MayStand };

    fn judge(&mut self, alloc: Global, entry: &Entry, root: u64) -> Result<bool, AllocError> {
        let Some(staged) = stage_allowed(alloc, &self.board, entry)? else {
            return Ok(false);
        };
        let mut next = self.board.share()?;
        let receipt = next.accept(staged);
        if !fits_points(&next, entry, &receipt, root) {
            return Ok(false);
        }
        let made = Made {
            stream: receipt.stream,
            version: receipt.version,
            root,
        };
        self.made.push(made)?;
        self.board = next;
        Ok(true)
    }

    fn mark(&mut self, _alloc: Global, gate: u64, next: u64) -> Result<(), AllocError> {
        self.checkpoints.push(Checkpoint { gate, next })?;
        Ok(())
    }
}

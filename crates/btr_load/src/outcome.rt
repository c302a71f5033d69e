//! What became of the rows of one stream.
ghost use Rattle.std.specs.Prelude.{◌≡◌, length, replicate, Err, IfOk};
ghost use Rattle.btr_engine.specs.declared.step.StepFault.TheVariants.{Want};

use btr_engine::{Receipt, StepFault};
use std::alloc::{AllocError, Global};
use std::marker::Model;

/// The results of batches, one of each, in order.
#[derive(Drop)]
pub struct BatchResults {
    pub(crate) list: Vec<Result<Receipt, StepFault>>,
}

impl Model for BatchResults {
    ghost use Rattle.std.specs.Prelude.{List, Result};
    ghost use Rattle.btr_streams.specs.declared.board.Receipt.{Receipt};
    ghost use Rattle.btr_engine.specs.declared.step.StepFault.{StepFault};

    ghost Value = { List (Result Receipt StepFault) };

    ghost view = { λ r. r.list.items };
}

impl BatchResults {
    /// Makes a place for the result of each batch. Until the batch is committed its result is out of memory. An `Err` means that
    /// memory ran out here.
    pub(crate) fn blank(alloc: Global, batches: usize) -> Result<BatchResults, AllocError>
        ensures { IfOk result (λ r. r ≡ replicate batches (Err Want)) }
    {
        let list = vec![in alloc; Err(StepFault::Want); batches]?;
        Ok(BatchResults { list })
    }

    /// Returns the results, in the order of the batches, in constant time. It takes no memory.
    pub fn as_slice(&self) -> &[Result<Receipt, StepFault>]
        ensures { result.now ≡ self.now }
    {
        self.list.as_slice()
    }
}

/// What became of the rows of one stream.
#[derive(Drop)]
pub enum RowsOutcome {
    /// The id is that of an output, which takes no points. Nothing was committed.
    Output,

    /// The stream was not there and could not be created, for this reason. Nothing was committed.
    NotCreated(StepFault),

    /// The points were committed to the stream of this number, batch by batch.
    Committed {
        stream: u32,

        /// The result of each batch.
        results: BatchResults,

        /// The latest version: that of the last accepted batch, or if none was accepted the one before the load.
        latest: u64,
    },
}

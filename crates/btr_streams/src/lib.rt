//! The streams of a store in memory: each with the trees of all its versions, as the entries of a history make them.
//!
//! A [`Board`] has all streams. [`Board::stage`] tests an entry, in the order of the causes, and makes the next board, which shares
//! with the one before all that the entry does not change. A [`Snapshot`] is a board at one moment, and answers questions. No call
//! knows of a device: the crate btr_engine writes what an entry makes, and btr_open makes a board of what it has read.
#![tactic(auto)]

// a board, and its questions
mod answering;
mod asking;
mod board;
mod snapshot;
// an entry more
mod making;
mod next_board;
mod next_tree;
mod readers;
mod refusing;
mod retiring;
mod staging;
// what a checkpoint has, and the board that it makes
mod restoring;
mod rolling;

pub use asking::{StreamFacts, Wanted, test_query};
pub use board::{Board, PushFault, Receipt, Staged};
pub use making::{Alone, Crew, TreeMaker};
pub use snapshot::Snapshot;

//! The map from ids to numbers of streams.
ghost use Rattle.std.specs.Prelude.{◌≡◌, ℕ, IfOk, None};
ghost use Rattle.btr_board.specs.Put.{put_at};
ghost use Rattle.btr_board.specs.Numbers.{number_of};

use crate::index_node::{IndexEntry, IndexNode, build, find_in, insert_in, with_entry};
use std::alloc::{AllocError, Global};
use std::marker::Model;
use std::sync::Arc;

/// A persistent map from ids to numbers. An insertion makes a new map and leaves the old one as it is; the two share most
/// nodes. Any thread can read them.
#[derive(Drop)]
pub struct Index {
    root: Option<Arc<IndexNode, Global>>,
}

impl Model for Index {
    ghost use Rattle.std.specs.Coded.{codes};
    ghost use Rattle.btr_board.specs.contracts.index_node.IndexNode as node_contract;
    ghost use Rattle.btr_board.specs.Numbers.{IndexValue};
    ghost use Rattle.btr_board.specs.Places.{node_of};

    ghost Value = { IndexValue };

    ghost coded = { Prim.hlevel (codes, node_contract.the_row.coded) };

    ghost view = { λ m. record { root = node_of m.root } };
}

impl Index {
    /// Returns the map without ids, in constant time. It takes no memory.
    pub fn empty() -> Index
        ensures { (id : ℕ) → number_of result id ≡ None }
    {
        Index { root: None }
    }

    /// Returns the same map once more, in constant time. An `Err` is out of memory.
    pub fn share(&self) -> Result<Index, AllocError>
        ensures { IfOk result (λ m. m ≡ self.now) }
    {
        let root = match &self.root {
            None => None,
            Some(root) => Some(Arc::try_clone(root)?),
        };
        Ok(Index { root })
    }

    /// Returns the number of an id, or `None` if it has none. It visits about log2(n / 8) nodes for n ids, and at most 128
    /// for ids that were made to collide. It takes no memory.
    pub fn find(&self, id: u128) -> Option<u32>
        ensures { result ≡ number_of self.now id }
    {
        match &self.root {
            None => None,
            Some(root) => find_in(root, 128, id),
        }
    }

    /// Returns the map with this number for the id, in place of the number that it had. This map stays as it is. It copies
    /// about log2(n / 8) nodes for n ids, at most 128 for ids that were made to collide, and one leaf. The new map shares all
    /// others. An `Err` is out of memory.
    pub fn insert(&self, alloc: Global, id: u128, number: u32) -> Result<Index, AllocError>
        ensures { IfOk result (λ m. (j : ℕ) → number_of m j ≡ put_at id number (number_of self.now) j) }
    {
        let entry = IndexEntry { id, number };
        let root = match &self.root {
            None => build(alloc, with_entry(alloc, &[], entry)?, 128)?,
            Some(root) => insert_in(alloc, root, 128, entry)?,
        };
        Ok(Index { root: Some(root) })
    }
}

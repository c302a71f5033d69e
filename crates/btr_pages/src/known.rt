//! A tree that was made of a page.
ghost use Rattle.std.specs.Prelude.{◌≡◌};

use btr_tree::Tree;
use std::marker::Model;

/// The tree that was made of the page in a block.
#[derive(Drop)]
pub struct Known {
    pub(crate) block: u64,
    pub(crate) stream: u32,
    pub(crate) count: u64,
    pub(crate) tree: Tree,
}

impl Model for Known {
    ghost use Rattle.std.specs.Coded.{codes};
    ghost use Rattle.btr_tree.specs.contracts.tree.Tree as tree_contract;
    ghost use Rattle.btr_pages.specs.Known.{KnownValue};
    ghost use Rattle.btr_pages.specs.Made.{IsReadTree};

    ghost Value = { KnownValue };

    ghost coded = { Prim.hlevel (codes, tree_contract.the_row.coded) };

    ghost view = { λ k. record { block = k.block; stream = k.stream; tree = k.tree } };

    ghost invariant = { λ k. IsReadTree k.count k.tree };
}

impl Known {
    /// The block of the page, in constant time. It takes no memory.
    pub fn block(&self) -> u64
        ensures { result ≡ self.now.block }
    {
        self.block
    }

    /// The number of the page's stream, in constant time. It takes no memory.
    pub fn stream(&self) -> u32
        ensures { result ≡ self.now.stream }
    {
        self.stream
    }

    /// The tree, in constant time. It takes no memory.
    pub fn tree(&self) -> &Tree
        ensures { result.now ≡ self.now.tree }
    {
        &self.tree
    }
}

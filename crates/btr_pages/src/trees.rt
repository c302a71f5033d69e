//! The trees that were made of pages, and where they are found.
ghost use Rattle.std.specs.Prelude.{◌≡◌, ◌≢◌, ◌⊎◌, ℕ, ◌≤◌, [], ◌∷◌, ◌++◌, true, false};
ghost use Rattle.std.specs.Prelude.{Ok, IfOk, IfErr, IsSome, IsNone, option_map};
ghost use Rattle.btr_node.specs.Page.{Keeps, Fits};
ghost use Rattle.btr_tree.specs.PageNodes.{Pages};
ghost use Rattle.btr_pages.specs.Pages.{IsPageAt};
ghost use Rattle.btr_pages.specs.Known.{ArePartOf, KnowsChildren, TakesPage, node_at};

use crate::known::Known;
use crate::making::make;
use crate::table::{lengthen, next_number, number_of};
use btr_node::NodePage;
use btr_tree::Steps;
use std::alloc::{AllocError, Global};
use std::marker::Model;

/// The trees that were made of pages, in the order in which they were made: the blocks may come in any order, children before
/// their parents. A table has 4 bytes for each block from 0 up to the highest one that has a tree, so that the tree of a block is
/// found in constant time.
#[derive(Drop)]
pub struct Trees {
    list: Vec<Known>,
    table: Vec<u32>,
}

impl Model for Trees {
    ghost use Rattle.std.specs.Coded.{codes};
    ghost use Rattle.btr_tree.specs.contracts.tree.Tree as tree_contract;
    ghost use Rattle.btr_pages.specs.Known.{TreesValue};
    ghost use Rattle.btr_pages.specs.Made.{IsTable};

    ghost Value = { TreesValue };

    ghost coded = { Prim.hlevel (codes, tree_contract.the_row.coded) };

    ghost view = { λ n. n.list.items };

    ghost invariant = { λ n. IsTable n.list.items n.table.items };
}

impl Trees {
    /// No trees. It takes no memory.
    pub fn new(alloc: Global) -> Trees
        ensures { result ≡ [] }
    {
        Trees {
            list: Vec::new(alloc),
            table: Vec::new(alloc),
        }
    }

    /// The tree of the page in a block, if it was made, in constant time. It takes no memory.
    pub fn get(&self, block: u64) -> Option<&Known>
        ensures { option_map (λ k. k.now) result ≡ node_at self.now block }
    {
        let number = number_of(&self.table, block);
        if number == 0 {
            return None;
        }
        Some(&self.list[number - 1])
    }

    /// Makes the tree of the page in a block, from the trees of its children, and adds it. Returns whether it did.
    ///
    /// Returns `false`, and adds nothing, exactly if the page does not fit the pages whose trees were made: a slot has a point, and
    /// the block of the slot's child is not below the page's own, or has no tree, or its page has another stream or span, or another
    /// version or count than the slot. If each child that has a page has a tree, a page that is refused does not stand rightly.
    ///
    /// The block has no tree yet. It may be below or above those that have one. The cost is the points or the slots of the page, and
    /// the blocks above the highest one that had a tree, up to this one, for each of which the table gets 4 bytes. An `Err` is out of
    /// memory, and nothing was added.
    pub fn add<L>(
        &mut self,
        alloc: Global,
        block: u64,
        page: &NodePage,
        steps: &mut Steps<L>,
    ) -> Result<bool, AllocError>
        requires some { 1 ≤ block }
        requires fresh { IsNone (node_at self.old block) }
        requires keeps { Keeps page.now }
        requires fits { Fits page.now }
        ensures added { result ≡ Ok true → TakesPage self.old self.new block page.now }
        ensures refused { result ≡ Ok false → (pages : Pages) → ArePartOf pages self.old → KnowsChildren pages self.old page.now
            → IsPageAt pages block page.now → ⊥ }
        ensures kept { result ≢ Ok true → self.new ≡ self.old }
        ensures only { (k : ℕ) → IsSome (node_at self.new k) → (k ≡ block) ⊎ IsSome (node_at self.old k) }
    {
        let Some(known) = make(alloc, self, block, page, steps)? else {
            return Ok(false);
        };
        self.push(known)?;
        Ok(true)
    }

    /// Adds a tree. An `Err` is out of memory, and nothing was added.
    fn push(&mut self, known: Known) -> Result<(), AllocError>
        requires fresh { IsNone (node_at self.old known.block) }
        ensures pushed { IfOk result (λ u. self.new ≡ self.old ++ known ∷ []) }
        ensures kept { IfErr result (λ e. self.new ≡ self.old) }
    {
        let place = known.block as usize;
        let number = next_number(self.list.len())?;
        lengthen(&mut self.table, place)?;
        self.list.push(known)?;
        self.table[place] = number;
        Ok(())
    }
}

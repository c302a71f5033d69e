//! Pages in memory.
ghost use Rattle.std.specs.Prelude.{◌≡◌, ℕ, [], Some, OnOk, OnErr, nat_eq, if◌then◌else◌};
ghost use Rattle.btr_node.specs.Page.{Keeps, Fits};
ghost use Rattle.btr_shelf.specs.PageList.{held_page};

use btr_node::{NodePage, PageSlot};
use btr_tree::{NodeFault, Nodes};
use std::alloc::{AllocError, Global};
use std::collections::BTreeMap;
use std::marker::Model;

/// Pages in memory, by their blocks. No call fails.
#[derive(Drop)]
pub struct HeldNodes {
    pages: BTreeMap<u64, NodePage>,
}

impl Model for HeldNodes {
    ghost use Rattle.std.specs.Prelude.{ℕ, List};
    ghost use Rattle.btr_node.specs.declared.page.NodePage.{NodePage as PageSpec};
    ghost use Rattle.btr_shelf.specs.PageList.{ArePages};

    ghost Value = { List (ℕ × PageSpec) };

    ghost view = { λ n. n.pages.entries };

    ghost invariant = { λ n. ArePages n.pages.entries };
}

impl HeldNodes {
    /// No pages. It takes no memory.
    pub fn new(alloc: Global) -> HeldNodes
        ensures empty { result ≡ [] }
        ensures observable { ⟦<HeldNodes as Nodes>⟧.is_observable }
    {
        HeldNodes {
            pages: BTreeMap::new(alloc),
        }
    }

    /// Puts a page into a block. It replaces the page that the block had. It takes time logarithmic in the number of pages. An `Err`
    /// means out of memory, and then nothing is changed.
    pub fn put(&mut self, block: u64, page: NodePage) -> Result<(), AllocError>
        requires keeps { Keeps page }
        requires fits { Fits page }
        ensures put { OnOk result ((k : ℕ) → held_page self.new k ≡ (if nat_eq k block then Some page else held_page self.old k)) }
        ensures kept { OnErr result (self.new ≡ self.old) }
    {
        // The type of a page's slots is named here for the prover, which takes it to the map with the page.
        let _: &[PageSlot] = page.slots();
        match self.pages.insert(block, page) {
            Ok(_) => Ok(()),
            Err(_) => Err(AllocError),
        }
    }
}

impl Nodes for HeldNodes {
    ghost use Rattle.std.specs.Prelude.{Option};
    ghost use Rattle.btr_node.specs.declared.page.NodePage.{NodePage as PageSpec};
    ghost use Rattle.btr_shelf.specs.PageLaws.{one_held_page};

    ghost is_observable = { Unit {0} };

    ghost Contents = { ℕ → Option PageSpec };

    ghost contents = { held_page };

    ghost IsPage = { λ pages block page. pages block ≡ Some page };

    ghost faults = { λ n. 0 };

    ghost one_page = { one_held_page };

    fn node(&mut self, block: u64) -> Result<NodePage, NodeFault> {
        match self.pages.get(&block) {
            Some(page) => Ok(*page),
            None => Err(NodeFault::Damaged { block }),
        }
    }
}

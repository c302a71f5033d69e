//! A tree whose nodes are counted aside.
ghost use Rattle.std.specs.Prelude.{◌≡◌};
ghost use Rattle.btr_base.specs.declared.limits.TheConstants.{FIRST as FIRST_TIME};
ghost use Rattle.btr_tree.specs.Change.{IsSomeChild};
ghost use Rattle.btr_tree.specs.Nodes.{above_root};
ghost use Rattle.btr_tree.specs.Root.{AtEachTree};
ghost use Rattle.btr_tree.specs.Shape.{IsChild};
ghost use Rattle.btr_tree.specs.Slots.{node_of};
ghost use Rattle.btr_tree.specs.Uncounted.{uncounted_tree};

use crate::node::Child;
use crate::steps::{Aside, Label, Steps};
use crate::tree::Tree;

/// A tree whose nodes its caller does not count, with the right to a counter aside. Only a call that can make a counter can make
/// it of a tree. So a call that is generic in its label has a counter beside its caller's only with a tree that its caller
/// names.
#[derive(Clone, Copy)]
pub struct Uncounted<'a> {
    tree: &'a Tree,
}

impl Tree {
    /// The same tree for walks that count aside. `M` is a label of the caller's own.
    pub fn uncounted<M: Label>(&self) -> Uncounted<'_>
        ensures { uncounted_tree result ≡ self.now }
    {
        Uncounted { tree: self }
    }
}

impl<'a> Uncounted<'a> {
    /// The link to the root, whose span is the whole domain, in constant time. It takes no memory.
    pub fn link(self) -> Child<'a>
        ensures child { AtEachTree (uncounted_tree self.entry) (λ h. IsChild 10 FIRST_TIME above_root h (node_of result)) }
        ensures some { IsSomeChild 10 FIRST_TIME (node_of result) 0 }
    {
        self.tree.link()
    }

    /// A counter of no steps, for the nodes of this tree. It takes no memory.
    pub fn counter(self) -> Steps<Aside>
        ensures { result ≡ 0 }
    {
        Steps::aside()
    }
}

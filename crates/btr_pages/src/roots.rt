//! The trees of versions, made of the pages of their roots.
ghost use Rattle.std.specs.Prelude.{◌≡◌, ◌↔◌, ℕ, ◌<◌, IfOk, IfSome, IsNone, IsSome, IsTrue};
ghost use Rattle.btr_tree.specs.History.{nothing};
ghost use Rattle.btr_tree.specs.Root.{IsTree, WasOpened};
ghost use Rattle.btr_tree.specs.PageNodes.{Pages};
ghost use Rattle.btr_pages.specs.Pages.{HasRootPage};
ghost use Rattle.btr_pages.specs.Known.{AreKnown, ArePartOf, HasWholeTree, ReturnsRoot, node_at};
ghost use Rattle.btr_pages.specs.Made.{IsKnownRoot};

use crate::known::Known;
use crate::trees::Trees;
use btr_base::ROOT_HEIGHT;
use btr_tree::Tree;
use std::alloc::AllocError;

impl Trees {
    /// Whether a block has the page of the root of a version of a stream: its span is the whole domain, and it is not newer than
    /// the version. The answer holds if the block has no page, or one whose tree was made. It takes constant time and no memory.
    pub fn is_root(&self, block: u64, stream: u32, version: u64) -> bool
        ensures known { (pages : Pages) → AreKnown pages self.now → (IsTrue result ↔ HasRootPage pages stream version block) }
        ensures part { (pages : Pages) → ArePartOf pages self.now → (IsSome (pages block) → IsSome (node_at self.now block))
            → (IsTrue result ↔ HasRootPage pages stream version block) }
        ensures whole { IsTrue result → HasWholeTree self.now block }
    {
        match self.get(block) {
            None => false,
            Some(known) => is_root(known, stream, version),
        }
    }

    /// The tree that was made of the page in a block, in constant time, or that of no commit if the block is 0 or has no tree. An
    /// `Err` is out of memory.
    pub fn tree(&self, block: u64) -> Result<Tree, AllocError>
        ensures empty { block ≡ 0 → IfOk result (IsTree nothing) }
        ensures none { IsNone (node_at self.now block) → IfOk result (IsTree nothing) }
        ensures is { 0 < block → IfSome (node_at self.now block) (λ known. IfOk result (λ t. t ≡ known.tree)) }
        ensures root { 0 < block → (pages : Pages) (stream version : ℕ) → AreKnown pages self.now
            → ReturnsRoot pages stream version block result }
        ensures part { 0 < block → (pages : Pages) (stream version : ℕ) → ArePartOf pages self.now → IsSome (node_at self.now block)
            → ReturnsRoot pages stream version block result }
    {
        if block == 0 {
            return Ok(Tree::empty());
        }
        match self.get(block) {
            None => Ok(Tree::empty()),
            Some(known) => known.tree.share(),
        }
    }
}

/// Whether a tree is that of the root of a version of a stream.
fn is_root(known: &Known, stream: u32, version: u64) -> bool
    ensures root { IsTrue result ↔ IsKnownRoot stream version known.now }
    ensures opened { WasOpened known.now.tree }
{
    let tree = &known.tree;
    tree.span().height == ROOT_HEIGHT && known.stream == stream && tree.version() <= version
}

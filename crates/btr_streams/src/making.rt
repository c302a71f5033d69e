//! Who makes the tree of a commit: the calling thread alone, or several threads.
ghost use Rattle.std.specs.Prelude.{◌≤◌, ◌^◌, IfOk, IfErr};
ghost use Rattle.btr_base.specs.Point.{AreInDomain};
ghost use Rattle.btr_tree.specs.History.{bag, ◌▷◌};
ghost use Rattle.btr_tree.specs.Root.{IsTreeFault, AfterCommit};
ghost use Rattle.btr_tree.specs.Applied.{IsCommitApplied};

use btr_tree::{Applied, Steps, Tree, TreeCommit, TreeFault};
use std::alloc::Global;
use std::marker::Sync;
use std::thread::Threads;

/// Who makes the tree of a commit.
pub trait TreeMaker {
    /// What its threads need: that they can share what starts them.
    ghost can_make: { Type 0 };

    /// Returns what [`Tree::apply`] returns.
    fn apply<L>(
        &self,
        alloc: Global,
        tree: &Tree,
        commit: &TreeCommit<'_>,
        steps: &mut Steps<L>,
    ) -> Result<Applied, TreeFault>
        requires able { can_make }
        requires added { AreInDomain commit.now.added.now }
        requires first { (1 ≤ commit.now.first) × (commit.now.first ≤ 2 ^ 33) }
        ensures applied { IfOk result (IsCommitApplied tree.now commit.now.version commit.now.cut.now commit.now.added.now
            commit.now.first steps.old steps.new) }
        ensures fault { IfErr result (λ e. AfterCommit tree.now commit.now.version commit.now.cut.now commit.now.added.now (λ h c.
            IsTreeFault (bag (c ▷ h)) e)) };
}

/// The calling thread alone.
#[derive(Drop)]
pub struct Alone;

impl TreeMaker for Alone {
    ghost use Rattle.std.specs.Prelude.{⊤};

    ghost can_make = { ⊤ };

    fn apply<L>(
        &self,
        alloc: Global,
        tree: &Tree,
        commit: &TreeCommit<'_>,
        steps: &mut Steps<L>,
    ) -> Result<Applied, TreeFault> {
        tree.apply(alloc, commit, steps)
    }
}

/// At most `threads` threads at once, the calling one among them. What is small is made by the calling thread.
#[derive(Drop)]
pub struct Crew<'a, R> {
    pub rt: &'a R,
    pub threads: usize,
}

impl<R: Threads + Sync> TreeMaker for Crew<'_, R> {
    ghost use Rattle.std.specs.Thread.{IsSync};

    ghost can_make = { IsSync R.row };

    fn apply<L>(
        &self,
        alloc: Global,
        tree: &Tree,
        commit: &TreeCommit<'_>,
        steps: &mut Steps<L>,
    ) -> Result<Applied, TreeFault> {
        tree.apply_shared(self.rt, alloc, commit, self.threads, steps)
    }
}

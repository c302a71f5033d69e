ghost use Rattle.std.specs.Prelude.{◌≡◌, ◌+◌, ◌≤◌, min};

use std::marker::{Model, PhantomData};

/// A label of counters. Only a type that has it can make a counter by [`Steps::new`].
///
/// A call that is generic in its label knows no such type. So it counts with its caller's counter alone, if it names no type with
/// this trait. Which files have one is tested by `checks/source.sh`.
pub trait Label {}

/// A counter of the nodes that a call makes, or visits. It stops at the greatest `u64`. `L` is its label.
#[derive(Drop)]
pub struct Steps<L> {
    count: u64,
    label: PhantomData<L>,
}

/// The label of the counters of walks through [`crate::Uncounted`] trees. It has no [`Label`], so only such a tree gives such a
/// counter.
pub struct Aside;

/// The label of the counters of forks. It has no [`Label`], so only [`Fork::new`] makes such a counter.
pub(crate) struct Forked;

/// A counter of what a part of a call makes, in any thread. [`Steps::join`] adds it to another counter. It can be dropped only if
/// it has counted nothing, so no count is lost.
pub(crate) struct Fork {
    pub(crate) steps: Steps<Forked>,
}

impl Drop for Fork {
    fn drop(self)
        requires { self.steps ≡ 0 }
    {
        let Fork { steps: _ } = self;
    }
}

impl Fork {
    /// A counter of no steps. It takes no memory.
    pub(crate) fn new() -> Fork
        ensures { result.steps ≡ 0 }
    {
        Fork {
            steps: Steps {
                count: 0,
                label: PhantomData,
            },
        }
    }
}

impl<L> Model for Steps<L> {
    ghost use Rattle.std.specs.Prelude.{ℕ};

    ghost Value = { ℕ };

    ghost view = { λ s. s.count };
}

impl<L: Label> Steps<L> {
    /// A counter of no steps. It takes no memory.
    pub fn new() -> Steps<L>
        ensures { result ≡ 0 }
    {
        Steps {
            count: 0,
            label: PhantomData,
        }
    }
}

impl Steps<Aside> {
    /// A counter of no steps. It takes no memory.
    pub(crate) fn aside() -> Steps<Aside>
        ensures { result ≡ 0 }
    {
        Steps {
            count: 0,
            label: PhantomData,
        }
    }
}

impl<L> Steps<L> {
    /// How many steps were counted.
    pub fn count(&self) -> u64
        ensures { result ≡ self.now }
    {
        self.count
    }

    /// Counts one step more.
    pub(crate) fn tick(&mut self)
        ensures counted { self.new ≡ min (self.old + 1) 18446744073709551615 }
        ensures never_falls { self.old ≤ self.new }
    {
        self.count = self.count.saturating_add(1);
    }

    /// Adds the steps of a fork.
    pub(crate) fn join(&mut self, fork: Fork)
        ensures { self.new ≡ min (self.old + fork.steps) 18446744073709551615 }
    {
        let mut fork = fork;
        self.count = self.count.saturating_add(fork.steps.count);
        fork.steps.count = 0;
    }
}

ghost use Rattle.std.specs.Prelude.{◌≡◌};
ghost use Rattle.btr_distil.specs.Plan.{entry_of};

use btr_base::{Bag, Ranges};
use btr_hist::{Entry, Reads};
use std::marker::Model;

/// The next commit of an output, before it is in the history: the times whose points it removes, the points that it then adds, and
/// the versions of the inputs that it reads. It holds them as an entry, which is a distillate.
#[derive(Drop)]
pub struct Plan {
    pub(crate) base: u64,
    pub(crate) entry: Entry,
}

impl Model for Plan {
    ghost use Rattle.btr_distil.specs.Plan.{PlanValue, plan_with, IsDistillateEntry};

    ghost Value = { PlanValue };

    ghost view = { λ p. plan_with p.base p.entry };

    ghost invariant = { λ p. IsDistillateEntry p.entry };
}

impl Plan {
    /// The number of the output's stream.
    pub fn stream(&self) -> u32
        ensures { result ≡ self.now.stream }
    {
        let Entry::Distillate { stream, .. } = &self.entry else {
            unreachable!()
        };
        *stream
    }

    /// The version of the output that the commit follows.
    pub fn base(&self) -> u64
        ensures { result ≡ self.now.base }
    {
        self.base
    }

    /// The versions of the inputs that the commit reads.
    pub fn reads(&self) -> Reads
        ensures { result ≡ self.now.reads }
    {
        let Entry::Distillate { reads, .. } = &self.entry else {
            unreachable!()
        };
        *reads
    }

    /// The times whose points the commit removes.
    pub fn cut(&self) -> &Ranges
        ensures { result.now ≡ self.now.cut }
    {
        let Entry::Distillate { cut, .. } = &self.entry else {
            unreachable!()
        };
        cut
    }

    /// The points that the commit then adds.
    pub fn added(&self) -> &Bag
        ensures { result.now ≡ self.now.added }
    {
        let Entry::Distillate { added, .. } = &self.entry else {
            unreachable!()
        };
        added
    }

    /// The commit as an entry of a history, which the plan holds. It takes no memory.
    pub fn entry(&self) -> &Entry
        ensures { result.now ≡ entry_of self.now }
    {
        &self.entry
    }

    /// The commit as an entry of a history. It takes no memory.
    pub fn into_entry(self) -> Entry
        ensures { result ≡ entry_of self }
    {
        let Plan { entry, .. } = self;
        entry
    }
}

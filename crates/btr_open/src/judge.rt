//! Who judges the extents of a log as it is read.
ghost use Rattle.std.specs.Prelude.{ℕ, IfOk, List};
ghost use Rattle.btr_hist.specs.declared.entry.Entry.{Entry as EntrySpec};
ghost use Rattle.btr_open.specs.Seen.{Seen, with_mark, IsJudged};

use btr_hist::Entry;
use std::alloc::{AllocError, Global};

/// Who judges each extent of a log as it is read from its start, one after another.
///
/// A rule is judged beside what every reading of a log tests. A judge is asked of an entry that may follow by the streams before it, and
/// before its root and its pages are tested.
pub trait Judge {
    // What the judge has seen.
    ghost is_after: { Seen → Self → Type 0 };

    // Which entry, with which root, it lets follow these.
    ghost may: { List EntrySpec → EntrySpec → ℕ → Type 0 };

    /// Returns whether the entry with this root may follow. If it may, it is taken as seen. An `Err` is out of memory.
    fn judge(&mut self, alloc: Global, entry: &Entry, root: u64) -> Result<bool, AllocError>
        ensures { (seen : Seen) → is_after seen self.old → IfOk result (IsJudged may is_after seen entry.now root self.new) };

    /// The extent of a checkpoint was read: its gate, and the gate after it. An `Err` is out of memory.
    fn mark(&mut self, alloc: Global, gate: u64, next: u64) -> Result<(), AllocError>
        ensures { (seen : Seen) → is_after seen self.old → IfOk result (λ _. is_after (with_mark seen gate next) self.new) };
}

/// The judge of an opening: it lets every entry follow.
#[derive(Drop)]
pub(crate) struct AnyEntry;

impl Judge for AnyEntry {
    ghost is_after = { λ _ _. Unit {0} };

    ghost may = { λ _ _ _. Unit {0} };

    fn judge(&mut self, _alloc: Global, _entry: &Entry, _root: u64) -> Result<bool, AllocError> {
        Ok(true)
    }

    fn mark(&mut self, _alloc: Global, _gate: u64, _next: u64) -> Result<(), AllocError> {
        Ok(())
    }
}

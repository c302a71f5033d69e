//! The shared buffers of some streams, as one lane of a script uses them.
ghost use Rattle.std.specs.Prelude.{◌≡◌, ℕ, true};
ghost use Rattle.std.specs.Thread.{IsSync};

use crate::group_answers::{Flushed, OfferFault, Offered};
use btr_base::Point;
use std::alloc::{AllocError, Global};
use std::marker::Sync;
use std::sync::Wait;
use std::thread::Threads;

/// Shared buffers with group commit, one for each of some streams, as one user of them sees them: a call goes to the group of its stream
/// (`btr_group`), which commits by a session of its own.
pub trait Groups {
    ghost use Rattle.std.specs.Prelude.{◌≡◌, ℕ, Bool, true, false};
    ghost use Rattle.btr_hall.specs.GroupCalls.{GroupView, OffersTo, FlushesTo};

    // Whether there is a group of a stream.
    ghost has_group: { Self → ℕ → Bool };

    // The number of points at which a batch is led.
    ghost threshold: { Self → ℕ };

    // What the user has seen of the list of the group of a stream, and which items of it are its own.
    ghost view_at: { Self → ℕ → GroupView };

    // The second is the first after calls: it has the same groups.
    ghost later: { Self → Self → Type 0 };

    /// Returns whether there is a group of the stream.
    fn has(&self, stream: u32) -> bool
        ensures { result ≡ has_group self.now stream };

    /// Puts points into the open batch of the group of a stream, and commits the batch if it has then reached the threshold and no batch
    /// of the group is out. After an `Err` the group is as before.
    fn offer<R: Threads + Wait + Sync>(
        &mut self,
        rt: &R,
        alloc: Global,
        stream: u32,
        points: &[Point],
    ) -> Result<Offered, OfferFault>
        requires crossing { IsSync R.row }
        requires has { has_group self.old stream ≡ true }
        ensures later { later self.old self.new }
        ensures groups { has_group self.new ≡ has_group self.old }
        ensures threshold { threshold self.new ≡ threshold self.old }
        ensures offers { OffersTo stream (threshold self.old) (view_at self.old stream) (view_at self.new stream) points.now result }
        ensures others { (other : ℕ) → (other ≡ stream → ⊥) → view_at self.new other ≡ view_at self.old other };

    /// Commits the open batch of the group of a stream, unless a batch of the group is out or the open one is empty. An `Err` means out
    /// of memory, and the group is as before.
    fn flush<R: Threads + Wait + Sync>(
        &mut self,
        rt: &R,
        alloc: Global,
        stream: u32,
    ) -> Result<Flushed, AllocError>
        requires crossing { IsSync R.row }
        requires has { has_group self.old stream ≡ true }
        ensures later { later self.old self.new }
        ensures groups { has_group self.new ≡ has_group self.old }
        ensures threshold { threshold self.new ≡ threshold self.old }
        ensures flushes { FlushesTo (view_at self.old stream) (view_at self.new stream) result }
        ensures others { (other : ℕ) → (other ≡ stream → ⊥) → view_at self.new other ≡ view_at self.old other };

    // It is so after no call, and after more calls.
    ghost later_same: { (groups : Self) → later groups groups };

    ghost later_twice: { (first second third : Self) → later first second → later second third → later first third };
}

//! Who answers lines.
ghost use Rattle.std.specs.Prelude.{◌≡◌, [], ℕ, List, OnOk, OnErr};
ghost use Rattle.std.specs.Thread.{IsSync};
ghost use Rattle.btr_talk.specs.Done.{DoesLine, MayLoseReply};

use std::alloc::AllocError;
use std::marker::Sync;
use std::sync::Wait;
use std::thread::Threads;

/// Who answers lines, one after another.
pub trait Desk {
    /// A line may be answered now.
    ghost is_ready: { Self → Type 0 };

    /// From the first desk to the second, these lines were done, in order, and these are their replies.
    ghost did: { Self → Self → List (List ℕ) → List (List ℕ) → Type 0 };

    /// The second desk is the first one, later.
    ghost goes_on: { Self → Self → Type 0 };

    /// Does a line, and appends its reply to `text`, which is empty. The line has no line feed. It may wait and start threads by `rt`.
    ///
    /// An `Err` means out of memory. Then the line was not done, or it was done and its reply is lost.
    fn answer<R: Threads + Wait + Sync>(
        &mut self,
        rt: &R,
        line: &[u8],
        text: &mut Vec<u8>,
    ) -> Result<(), AllocError>
        requires crossing { IsSync R.row }
        requires ready { is_ready self.old }
        requires empty { text.old.items ≡ [] }
        ensures ready { is_ready self.new }
        ensures goes { goes_on self.old self.new }
        ensures done { OnOk result (DoesLine did line.now text.new.items self.old self.new) }
        ensures lost { OnErr result (MayLoseReply did line.now self.old self.new) };

    // A desk to which nothing was done.
    ghost stays: { (desk : Self) → goes_on desk desk };

    // A desk that is later than one that is later.
    ghost later: { (old mid new : Self) → goes_on old mid → goes_on mid new → goes_on old new };
}

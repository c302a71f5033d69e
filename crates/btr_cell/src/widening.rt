//! The windows that a set of times meets.
ghost use Rattle.std.specs.Prelude.{◌≡◌, ◌≤◌, map, IfOk};
ghost use Rattle.btr_base.specs.Cut.{union};
ghost use Rattle.btr_hist.specs.Distil.{whole as whole_of};

use btr_base::{Range, Ranges, slot_around};
use std::alloc::{AllocError, Global};

/// The times of the aligned windows of `2^p` ns that the ranges meet: of each range the windows from that of its first time to that
/// of its last. `p` is 0 to 62, the caller's condition.
///
/// It takes linear time and memory in the ranges. An `Err` means out of memory.
pub fn widen(alloc: Global, ranges: &Ranges, p: u8) -> Result<Ranges, AllocError>
    requires { p ≤ 62 }
    ensures { IfOk result (λ r. r ≡ union (map (whole_of p) ranges.now)) }
{
    let mut all = Ranges::none(alloc);
    for range in ranges.as_slice() {
        all.add(whole(*range, p))?;
    }
    // the proof reads here that the ranges are in order and apart
    let _ = all.as_slice();
    Ok(all)
}

/// The range from the begin of the window of its first time to the end of that of its last.
fn whole(range: Range, p: u8) -> Range
    requires { p ≤ 62 }
    ensures { result ≡ whole_of p range }
{
    let first = slot_around(range.from, p);
    let last = slot_around(range.to - 1, p);
    Range {
        from: first.from,
        to: last.to,
    }
}

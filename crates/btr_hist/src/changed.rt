//! The slots in which two lists of points differ.
ghost use Rattle.std.specs.Prelude.{◌≡◌, ◌≤◌, IfOk};
ghost use Rattle.btr_base.specs.Bag.{IsInOrder};
ghost use Rattle.btr_base.specs.Changes.{differ_at, changes};
ghost use Rattle.btr_base.specs.Point.{InDomain};

use btr_base::{END, FIRST, Point, Ranges, merged, points_between, slot_around};
use std::alloc::{AllocError, Global};

/// The longest runs of aligned slots of `2^p` ns in which two lists of points in order differ. It searches both lists for each
/// point. An `Err` means out of memory.
pub(crate) fn changed_ranges(
    alloc: Global,
    old: &[Point],
    new: &[Point],
    p: u8,
) -> Result<Ranges, AllocError>
    requires old_order { IsInOrder old.now }
    requires new_order { IsInOrder new.now }
    requires power { p ≤ 62 }
    ensures { IfOk result (λ r. r ≡ changes p old.now new.now) }
{
    let both = merged(alloc, old, new)?;
    let mut found = Ranges::none(alloc);
    for point in points_between(&both, FIRST, END) {
        if differ_at(old, new, point.time) {
            found.add(slot_around(point.time, p))?;
        }
    }
    // the proof reads here that the ranges are apart
    let _ = found.as_slice();
    Ok(found)
}

/// Whether two lists of points in order have different points at a time, in nanoseconds.
fn differ_at(a: &[Point], b: &[Point], time: i64) -> bool
    requires a_order { IsInOrder a.now }
    requires b_order { IsInOrder b.now }
    requires domain { InDomain time }
    ensures { result ≡ differ_at a.now b.now time }
{
    points_between(a, time, time + 1) != points_between(b, time, time + 1)
}

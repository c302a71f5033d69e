//! The window of an anchor, by the indices of its ends.
ghost use Rattle.std.specs.Prelude.{◌≡◌, ◌≤◌, ◌^◌, slice_range};
ghost use Rattle.btr_base.specs.Bag.{IsInOrder};
ghost use Rattle.btr_base.specs.Point.{InDomain};
ghost use Rattle.btr_hist.specs.Kernel.{window};
ghost use Rattle.btr_kernel.specs.Placed.{IsPlaced};
ghost use Rattle.btr_kernel.specs.Places.{place_of};

use crate::places::place_near;
use btr_base::Point;

/// The points from one index up to, and without, another.
#[derive(Clone, Copy)]
pub(crate) struct Window {
    pub(crate) from: usize,
    pub(crate) to: usize,
}

impl Window {
    /// The window before the first point.
    pub(crate) fn before_all() -> Window
        ensures { (b : _) → IsPlaced b result }
    {
        Window { from: 0, to: 0 }
    }

    /// The window that ends with a time, from the one before. It walks there, one point at a time.
    pub(crate) fn moved_to(self, points: &[Point], lead: u64, t: i64) -> Window
        requires order { IsInOrder points.now }
        requires placed { IsPlaced points.now self }
        requires lead { lead ≤ 2 ^ 60 }
        requires time { InDomain t }
        ensures points { slice_range points.now result.from result.to ≡ window lead t points.now }
        ensures placed { IsPlaced points.now result }
    {
        Window {
            from: place_near(points, self.from, t - lead as i64),
            to: place_near(points, self.to, t + 1),
        }
    }

    /// The points of the window.
    pub(crate) fn points(self, all: &[Point]) -> &[Point]
        requires { IsPlaced all.now self }
        ensures { result.now ≡ slice_range all.now self.from self.to }
    {
        &all[self.from..self.to]
    }
}

ghost use Rattle.std.specs.Prelude.{◌≡◌, ◌↔◌, IsTrue};
ghost use Rattle.btr_base.specs.Point.{in_domain, InDomain, AreInDomain};

use crate::limits::{END, FIRST};

/// A measured value at a time (BTrDB, FAST 2016). The value is a whole number.
///
/// Points are ordered by time, and points of one time by value: the derived order.
#[derive(Clone, Copy, PartialEq, Eq, PartialOrd, Ord)]
pub struct Point {
    /// The time, in nanoseconds. Any `i64` is a point's time; a store holds those of its domain.
    pub time: i64,

    /// The measured value, in the unit of the stream.
    pub value: i64,
}

impl Point {
    /// Whether the point's time lies in the domain, from [`FIRST`] up to, and without, [`END`].
    pub fn is_in_domain(&self) -> bool
        ensures test { result ≡ in_domain self.now.time }
        ensures fact { IsTrue result ↔ InDomain self.now.time }
    {
        FIRST <= self.time && self.time < END
    }
}

/// Whether the time of each point lies in the domain. It takes time linear in their number, and no memory.
pub fn are_in_domain(points: &[Point]) -> bool
    ensures { IsTrue result ↔ AreInDomain points.now }
{
    for point in points {
        if !point.is_in_domain() {
            return false;
        }
    }
    true
}

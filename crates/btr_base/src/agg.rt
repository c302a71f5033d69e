ghost use Rattle.std.specs.Prelude.{◌≡◌, ◌+◌, ◌<◌, ◌^◌, ℤ, List, [], ◌∷◌, ◌++◌};
ghost use Rattle.btr_base.specs.declared.point.Point.{Point as PointSpec};
ghost use Rattle.btr_base.specs.Agg.{IsSummary, agg, joined, one_point, join_ends as outer_ends};

use crate::point::Point;
use std::marker::Model;

/// The count of points, the sum of their values, and the least and the greatest value (the aggregate of BTrDB, FAST 2016, in
/// whole numbers and with the sum in place of the mean).
///
/// `ends` is `None` exactly if there is no point, and then the sum is 0. Otherwise the sum lies from the count times the least
/// value to the count times the greatest.
#[derive(Clone, Copy, PartialEq, Eq)]
pub struct Agg {
    /// The number of points.
    pub count: u64,

    /// The sum of their values, in the unit of the stream.
    pub sum: i128,

    /// The least and the greatest value, in the unit of the stream.
    pub ends: Option<(i64, i64)>,
}

impl Model for Agg {
    ghost use Rattle.btr_base.specs.Agg.{AggValue, IsSummary};

    ghost Value = { AggValue };

    ghost view = { λ a. record { count = a.count; total = a.sum; ends = a.ends } };

    ghost invariant = { λ a. IsSummary (record { count = a.count; total = a.sum; ends = a.ends }) };

    ghost inverse = { λ s. record { count = s.count; sum = s.total; ends = s.ends } };
}

impl Agg {
    /// The aggregate of no points.
    pub fn none() -> Agg
        ensures { result ≡ agg [] }
    {
        Agg {
            count: 0,
            sum: 0,
            ends: None,
        }
    }

    /// The aggregate of one point with this value.
    pub fn of(value: i64) -> Agg
        ensures numbers { result ≡ one_point value }
        ensures list { (time : ℤ) → result ≡ agg (record { time = time; value = value } ∷ []) }
    {
        Agg {
            count: 1,
            sum: i128::from(value),
            ends: Some((value, value)),
        }
    }

    /// The aggregate of these points. It takes time linear in their number, and no memory.
    pub fn of_points(points: &[Point]) -> Agg
        ensures { result ≡ agg points.now }
    {
        let mut all = Agg::none();
        for point in points {
            all = all.join(&Agg::of(point.value));
        }
        all
    }

    /// The aggregate of the points of both, in constant time: if the two are the aggregates of two lists, that of the one list
    /// followed by the other. Both counts together are below `2^64`.
    pub fn join(&self, other: &Agg) -> Agg
        requires { self.now.count + other.now.count < 2 ^ 64 }
        ensures numbers { result ≡ joined self.now other.now }
        ensures lists { (a b : List PointSpec) → agg a ≡ self.now → agg b ≡ other.now → agg (a ++ b) ≡ result }
        ensures summary { IsSummary result }
    {
        Agg {
            count: self.count + other.count,
            sum: self.sum + other.sum,
            ends: join_ends(self.ends, other.ends),
        }
    }
}

/// The lower of the least values and the higher of the greatest values, of those that exist.
fn join_ends(a: Option<(i64, i64)>, b: Option<(i64, i64)>) -> Option<(i64, i64)>
    ensures { result ≡ outer_ends a b }
{
    match (a, b) {
        (Some(a), Some(b)) => Some((a.0.min(b.0), a.1.max(b.1))),
        (Some(a), None) => Some(a),
        (None, b) => b,
    }
}

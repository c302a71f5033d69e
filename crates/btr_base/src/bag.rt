ghost use Rattle.std.specs.Prelude.{◌≡◌, ℕ, ◌≤◌, ◌<◌, ℤ, ◌≤ℤ◌, ◌<ℤ◌, List, [], ◌++◌, length, drop};
ghost use Rattle.std.specs.Prelude.{slice_index_or, IfOk, OnOk, OnErr, IsTrue, filter, int_lt, not};
ghost use Rattle.btr_base.specs.declared.point.Point.{Point as PointSpec};
ghost use Rattle.btr_base.specs.Bag.{IsInOrder, sort, outside, within};
ghost use Rattle.btr_base.specs.Range.{RangeValue, IsCut, covered};

use crate::point::Point;
use crate::range::Range;
use crate::ranges::{Ranges, has_begun};
use std::alloc::{AllocError, Global};
use std::marker::Model;

/// Points by time and value, in which equal points each count: what a stream holds at one version (BTrDB, FAST 2016). A bag may
/// hold any time, also outside the domain.
#[derive(Drop)]
pub struct Bag {
    points: Vec<Point>,
}

impl Model for Bag {
    ghost use Rattle.std.specs.Prelude.{List};
    ghost use Rattle.btr_base.specs.declared.point.Point.{Point};
    ghost use Rattle.btr_base.specs.Bag.{IsInOrder};

    ghost Value = { List Point };

    ghost view = { λ b. b.points.items };

    ghost invariant = { λ b. IsInOrder b.points.items };
}

impl Bag {
    /// The bag of these points. It sorts them in place, in `n log n` time, or in linear time if each is later than the one before. It
    /// takes no memory.
    pub fn from_points(points: Vec<Point>) -> Bag
        ensures { result ≡ sort points.items }
    {
        if do_times_rise(&points) {
            return Bag { points };
        }
        let mut points = points;
        points.sort_unstable();
        Bag { points }
    }

    /// The points as a list, in order, in constant time. It takes no memory.
    pub fn into_points(self) -> Vec<Point>
        ensures points { result.items ≡ self }
        ensures in_order { IsInOrder self }
    {
        let Bag { points } = self;
        points
    }

    /// The points, in order, in constant time.
    pub fn as_slice(&self) -> &[Point]
        ensures points { result.now ≡ self.now }
        ensures in_order { IsInOrder self.now }
    {
        self.points.as_slice()
    }

    /// The points whose time no range covers: what a cut leaves. It takes one pass over points and ranges, and memory for as
    /// many points as the bag has. An `Err` means out of memory.
    pub fn outside(&self, alloc: Global, cut: &Ranges) -> Result<Bag, AllocError>
        ensures { IfOk result (λ b. b ≡ outside self.now cut.now) }
    {
        let points = points_outside(alloc, &self.points, cut.as_slice())?;
        Ok(Bag { points })
    }

    /// The points of both. A point that both contain counts for each. It takes one pass over both, and memory for all points
    /// of both. An `Err` means out of memory.
    pub fn merge(&self, alloc: Global, other: &Bag) -> Result<Bag, AllocError>
        ensures { IfOk result (λ b. b ≡ sort (self.now ++ other.now)) }
    {
        let points = merged(alloc, &self.points, &other.points)?;
        Ok(Bag { points })
    }

    /// Adds the points of another bag. A point that both contain counts for each. If no point of the other bag comes before the
    /// last one of this bag, they are appended, in time linear in their number on average. Otherwise all are sorted anew, in
    /// `n log n` time. It takes memory for the points of both, or none if [`Bag::reserve`] has made room. An `Err` means out of
    /// memory, and nothing is changed.
    pub fn append(&mut self, other: &Bag) -> Result<(), AllocError>
        ensures added { OnOk result (self.new ≡ sort (self.old ++ other.now)) }
        ensures err { OnErr result (self.new ≡ self.old) }
    {
        let follows = may_follow(&self.points, &other.points);
        self.points.extend_from_slice(&other.points)?;
        if !follows {
            self.points.sort_unstable();
        }
        Ok(())
    }

    /// Makes room for this many more points, exactly. If there is less room, it takes memory for all, and moves the points there, in
    /// linear time. An `Err` means out of memory.
    pub fn reserve(&mut self, points: usize) -> Result<(), AllocError>
        ensures { self.new ≡ self.old }
    {
        self.points.reserve_exact(points)
    }

    /// The same points in memory of their own, in linear time. An `Err` means out of memory.
    pub fn copy(&self, alloc: Global) -> Result<Bag, AllocError>
        ensures { IfOk result (λ b. b ≡ self.now) }
    {
        let points = Vec::from_slice(alloc, &self.points)?;
        Ok(Bag { points })
    }
}

/// Whether each point is later than the one before it, and the first one than the least `i64`. It takes one pass.
fn do_times_rise(points: &[Point]) -> bool
    ensures { IsTrue result → IsInOrder points.now }
{
    let mut last = i64::MIN;
    for point in points {
        if point.time <= last {
            return false;
        }
        last = point.time;
    }
    true
}

/// Whether no point of the second list comes before the last one of the first. It takes constant time.
fn may_follow(a: &[Point], b: &[Point]) -> bool
    requires a { IsInOrder a.now }
    requires b { IsInOrder b.now }
    ensures { IsTrue result → IsInOrder (a.now ++ b.now) }
{
    match (a.last(), b.first()) {
        (Some(last), Some(first)) => last <= first,
        _ => true,
    }
}

/// The points of a list in order whose time no range covers. It takes one pass over points and ranges, and memory for as many
/// points as there are. An `Err` means out of memory.
pub fn points_outside(
    alloc: Global,
    points: &[Point],
    ranges: &[Range],
) -> Result<Vec<Point>, AllocError>
    requires points { IsInOrder points.now }
    requires ranges { IsCut ranges.now }
    ensures { IfOk result (λ v. v.items ≡ outside points.now ranges.now) }
{
    let mut kept = Vec::with_capacity(alloc, points.len())?;
    let mut first = 0;
    for point in points {
        first = skip_ended(ranges, first, point.time);
        if !has_begun(ranges, first, point.time) {
            kept.push(*point)?;
        }
    }
    Ok(kept)
}

/// Divides points in order at a time, in nanoseconds: those before it, and those from it on. It takes time logarithmic in their
/// number, and no memory.
pub fn parted(points: &[Point], time: i64) -> (&[Point], &[Point])
    requires { IsInOrder points.now }
    ensures before { result.0.now ≡ filter (λ p. int_lt p.time time) points.now }
    ensures from { result.1.now ≡ filter (λ p. not (int_lt p.time time)) points.now }
    ensures all { result.0.now ++ result.1.now ≡ points.now }
{
    let place = points.partition_point(|point| point.time < time);
    (&points[..place], &points[place..])
}

/// The points of a list in order from a time up to, and without, another, in nanoseconds. It takes time logarithmic in their
/// number, and no memory.
pub fn points_between(points: &[Point], from: i64, to: i64) -> &[Point]
    requires { IsInOrder points.now }
    ensures { result.now ≡ within from to points.now }
{
    let (before, _) = parted(points, to);
    let (_, between) = parted(before, from);
    between
}

/// The index of the first range from `first` on that ends after the time, or the number of ranges.
fn skip_ended(ranges: &[Range], first: usize, time: i64) -> usize
    requires { first ≤ length ranges.now }
    ensures within { result ≤ length ranges.now }
    ensures ahead { (r : RangeValue) → result < length ranges.now → time <ℤ (slice_index_or ranges.now result r).to }
    ensures same { (t : ℤ) → time ≤ℤ t → covered (drop result ranges.now) t ≡ covered (drop first ranges.now) t }
{
    let mut place = first;
    while place < ranges.len() {
        let range = &ranges[place];
        if time < range.to {
            return place;
        }
        place += 1;
    }
    place
}

/// The points of two lists in order, in order. It takes one pass over both, and memory for all points of both. An `Err` means
/// out of memory.
pub fn merged(alloc: Global, a: &[Point], b: &[Point]) -> Result<Vec<Point>, AllocError>
    requires a { IsInOrder a.now }
    requires b { IsInOrder b.now }
    ensures { IfOk result (λ v. v.items ≡ sort (a.now ++ b.now)) }
{
    let mut all = Vec::with_capacity(alloc, a.len() + b.len())?;
    let mut i = 0;
    let mut j = 0;
    while i < a.len() && j < b.len() {
        if b[j] < a[i] {
            all.push(b[j])?;
            j += 1;
        } else {
            all.push(a[i])?;
            i += 1;
        }
    }
    all.extend_from_slice(&a[i..])?;
    all.extend_from_slice(&b[j..])?;
    Ok(all)
}

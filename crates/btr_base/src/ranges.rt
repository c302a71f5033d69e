ghost use Rattle.std.specs.Prelude.{◌≡◌, true, false, ◌++◌, ℕ, ◌≤◌, ◌<◌, ℤ, List, [], ◌∷◌, ◌||◌, length, drop};
ghost use Rattle.std.specs.Prelude.{slice_index_or, ◌≤ℤ◌, ◌<ℤ◌, IfOk, IfSome, IsSome, IsTrue, ◌↔◌, OnOk, OnErr};
ghost use Rattle.std.specs.List.{AllByRecursion};
ghost use Rattle.btr_base.specs.Range.{RangeValue, IsRange, IsCut, AreApart, IsAfter, covered, contains};

use crate::range::Range;
use std::alloc::{AllocError, Global};
use std::marker::Model;

/// A set of times, kept as its longest ranges: in order, disjoint and not touching. A commit has one: the times whose points it
/// removes.
#[derive(Drop)]
pub struct Ranges {
    ranges: Vec<Range>,
}

impl Model for Ranges {
    ghost use Rattle.std.specs.Prelude.{List};
    ghost use Rattle.btr_base.specs.Range.{RangeValue, IsCut};

    ghost Value = { List RangeValue };

    ghost view = { λ r. r.ranges.items };

    ghost invariant = { λ r. IsCut r.ranges.items };
}

impl Ranges {
    /// No times. It takes no memory.
    pub fn none(alloc: Global) -> Ranges
        ensures { result ≡ [] }
    {
        Ranges {
            ranges: Vec::new(alloc),
        }
    }

    /// The set of the ranges of a list. It returns `None` unless each range ends before the next begins, with a time between
    /// them. It takes linear time and no memory.
    pub fn from_ranges(ranges: Vec<Range>) -> Option<Ranges>
        ensures apart { IsSome result ↔ AreApart ranges.items }
        ensures ranges { IfSome result (λ r. r ≡ ranges.items) }
    {
        if !are_apart(&ranges) {
            return None;
        }
        Some(Ranges { ranges })
    }

    /// Adds the times of a range, which may touch, overlap or bridge others. A range that begins in the last one or after it is
    /// added in constant time on average, and any other in time linear in the number of ranges. An `Err` means out of memory,
    /// and nothing is changed.
    pub fn add(&mut self, range: Range) -> Result<(), AllocError>
        ensures times { OnOk result ((t : ℤ) → covered self.new t ≡ (contains range t || covered self.old t)) }
        ensures err { OnErr result (self.new ≡ self.old) }
    {
        if is_after_last(&self.ranges, &range) {
            self.ranges.push(range)?;
            return Ok(());
        }
        if joins_last(&mut self.ranges, &range) {
            return Ok(());
        }
        let alloc = *self.ranges.allocator();
        self.ranges = joined(alloc, &self.ranges, range)?;
        Ok(())
    }

    /// Whether a range covers the time, in nanoseconds. The time may be any `i64`. It takes time logarithmic in the number of
    /// ranges, and no memory.
    pub fn covers(&self, t: i64) -> bool
        ensures { result ≡ covered self.now t }
    {
        is_covered(&self.ranges, t)
    }

    /// The same ranges in memory of their own, in linear time. An `Err` means out of memory.
    pub fn copy(&self, alloc: Global) -> Result<Ranges, AllocError>
        ensures { IfOk result (λ r. r ≡ self.now) }
    {
        let ranges = Vec::from_slice(alloc, &self.ranges)?;
        Ok(Ranges { ranges })
    }

    /// The ranges, in order, in constant time. No two touch or overlap.
    pub fn as_slice(&self) -> &[Range]
        ensures ranges { result.now ≡ self.now }
        ensures cut { IsCut self.now }
    {
        self.ranges.as_slice()
    }
}

/// Whether each range ends before the next begins, with a time between them.
fn are_apart(ranges: &[Range]) -> bool
    ensures each { AllByRecursion IsRange ranges.now }
    ensures apart { IsTrue result ↔ AreApart ranges.now }
{
    let mut apart = true;
    let mut end = None;
    for range in ranges {
        apart = stays_apart(apart, end, range.from);
        end = Some(range.to);
    }
    apart
}

/// Whether the ranges so far are apart, and the time is after the end of the last one, if there is one.
fn stays_apart(apart: bool, end: Option<i64>, from: i64) -> bool
    ensures { IsTrue result ↔ (IsTrue apart × IsAfter end from) }
{
    match end {
        Some(end) => apart && end < from,
        None => apart,
    }
}

/// Whether the range begins after the end of the last one, with a time between them.
fn is_after_last(ranges: &[Range], range: &Range) -> bool
    requires { IsCut ranges.now }
    ensures { result ≡ true → IsCut (ranges.now ++ range.now ∷ []) }
{
    let from = range.from;
    match ranges.last() {
        Some(last) => last.to < from,
        None => true,
    }
}

/// Whether the range begins in the last one or at its end. If it does, the last one becomes the union of both. It takes constant
/// time and no memory.
fn joins_last(ranges: &mut Vec<Range>, range: &Range) -> bool
    requires { IsCut ranges.old.items }
    ensures cut { IsCut ranges.new.items }
    ensures times { result ≡ true → (t : ℤ) → covered ranges.new.items t ≡ (contains range.now t || covered ranges.old.items t) }
    ensures left { result ≡ false → ranges.new.items ≡ ranges.old.items }
{
    if let Some(last) = ranges.last_mut() {
        if last.from <= range.from && range.from <= last.to {
            *last = union(last, range);
            return true;
        }
    }
    false
}

/// The ranges with one more, joined with those that it touches or overlaps.
fn joined(alloc: Global, ranges: &[Range], range: Range) -> Result<Vec<Range>, AllocError>
    requires { IsCut ranges.now }
    ensures cut { IfOk result (λ v. IsCut v.items) }
    ensures times { IfOk result (λ v. (t : ℤ) → covered v.items t ≡ (contains range t || covered ranges.now t)) }
{
    let mut done = Vec::with_capacity(alloc, ranges.len())?;
    // the proof reads here that the bounds are those of a range
    let _ = &range.from;
    let mut current = range;
    for next in ranges {
        if next.to < current.from {
            done.push(*next)?;
        } else if current.to < next.from {
            done.push(current)?;
            current = *next;
        } else {
            current = union(&current, next);
        }
    }
    done.push(current)?;
    Ok(done)
}

/// The union of two ranges that touch or overlap.
fn union(a: &Range, b: &Range) -> Range
    requires a_reaches { b.now.from ≤ℤ a.now.to }
    requires b_reaches { a.now.from ≤ℤ b.now.to }
    ensures range { IsRange result }
    ensures times { (t : ℤ) → contains result t ≡ (contains a.now t || contains b.now t) }
{
    Range {
        from: a.from.min(b.from),
        to: a.to.max(b.to),
    }
}

/// Whether a range covers the time, by binary search.
fn is_covered(ranges: &[Range], t: i64) -> bool
    requires { IsCut ranges.now }
    ensures { result ≡ covered ranges.now t }
{
    let place = ranges.partition_point(|range| range.to <= t);
    has_begun(ranges, place, t)
}

/// Of ranges in order and apart, those that end after a time, in nanoseconds. Of the times from it on they cover the same. It
/// takes time logarithmic in the number of ranges, and no memory.
pub fn ranges_from(ranges: &[Range], from: i64) -> &[Range]
    requires { IsCut ranges.now }
    ensures cut { IsCut result.now }
    ensures behind { AllByRecursion (λ r. from <ℤ r.to) result.now }
    ensures times { (t : ℤ) → from ≤ℤ t → covered result.now t ≡ covered ranges.now t }
{
    let place = ranges.partition_point(|range| range.to <= from);
    &ranges[place..]
}

/// Of ranges in order and apart, those that begin before a time, in nanoseconds. Of the times before it they cover the same. It
/// takes time logarithmic in the number of ranges, and no memory.
pub fn ranges_before(ranges: &[Range], to: i64) -> &[Range]
    requires { IsCut ranges.now }
    ensures cut { IsCut result.now }
    ensures before { AllByRecursion (λ r. r.from <ℤ to) result.now }
    ensures times { (t : ℤ) → t <ℤ to → covered result.now t ≡ covered ranges.now t }
{
    let place = ranges.partition_point(|range| range.from < to);
    &ranges[..place]
}

/// Whether there is a range at this index that begins at or before the time. All ranges before it end by the time, and it ends
/// after the time.
pub(crate) fn has_begun(ranges: &[Range], place: usize, time: i64) -> bool
    requires cut { IsCut ranges.now }
    requires ahead { (r : RangeValue) → place < length ranges.now → time <ℤ (slice_index_or ranges.now place r).to }
    ensures { result ≡ covered (drop place ranges.now) time }
{
    match ranges.get(place) {
        Some(range) => range.from <= time,
        None => false,
    }
}

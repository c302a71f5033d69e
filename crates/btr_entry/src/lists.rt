//! The ranges and the points of a commit, from their bytes.
ghost use Rattle.std.specs.Prelude.{◌≡◌, ℕ, ◌%◌, ◌^◌, ◌≤◌, ◌++◌, List, length, ◌↔◌, IsTrue, IfOk, IfSome, IfNone};
ghost use Rattle.std.specs.List.{flat_map, AllByRecursion};
ghost use Rattle.btr_base.specs.Range.{RangeValue, IsRange, IsCut};
ghost use Rattle.btr_base.specs.declared.point.Point.{Point as PointSpec};
ghost use Rattle.btr_base.specs.Bag.{IsInOrder};
ghost use Rattle.btr_entry.specs.Grammar.{range, point};
ghost use Rattle.btr_entry.specs.Fields.{PointFits, AreAddable, IsChange, AreLists};

use crate::fields::{read_i64, split_items};
use btr_base::{Bag, Point, Range, Ranges, are_in_domain};
use std::alloc::{AllocError, Global};

/// Reads all of the bytes as the ranges and the points of a commit, with not more of each than the limits. Returns `None`
/// if no commit can have them. An `Err` means out of memory.
pub fn read_change(
    alloc: Global,
    bytes: &[u8],
    max_ranges: u64,
    max_points: u64,
) -> Result<Option<(Ranges, Bag)>, AllocError>
    requires ranges { max_ranges ≤ 2 ^ 34 }
    requires points { max_points ≤ 2 ^ 34 }
    ensures found { IfOk result (λ o. IfSome o (λ x. IsChange max_ranges max_points bytes.now x.0 x.1)) }
    ensures none { IfOk result (λ o. IfNone o ((cut : List RangeValue) (added : List PointSpec)
        → IsChange max_ranges max_points bytes.now cut added → ⊥)) }
{
    let Some((ranges, points)) = split_lists(bytes, max_ranges, max_points) else {
        return Ok(None);
    };
    let Some(cut) = read_ranges(alloc, ranges)? else {
        return Ok(None);
    };
    let Some(added) = read_bag(alloc, points)? else {
        return Ok(None);
    };
    Ok(Some((cut, added)))
}

/// Splits all of the bytes into those of the ranges and those of the points, each after its count.
fn split_lists(bytes: &[u8], max_ranges: u64, max_points: u64) -> Option<(&[u8], &[u8])>
    requires ranges { max_ranges ≤ 2 ^ 34 }
    requires points { max_points ≤ 2 ^ 34 }
    ensures found { IfSome result (λ x. AreLists max_ranges max_points bytes.now x.0.now x.1.now) }
    ensures none { IfNone result ((ranges points : List ℕ) → AreLists max_ranges max_points bytes.now ranges points → ⊥) }
{
    let (ranges, rest) = split_items(bytes, max_ranges)?;
    let (points, rest) = split_items(rest, max_points)?;
    if !rest.is_empty() {
        return None;
    }
    Some((ranges, points))
}

/// Reads the ranges of a commit. Returns `None` if no commit can have these ranges. An `Err` means out of memory.
pub fn read_ranges(alloc: Global, bytes: &[u8]) -> Result<Option<Ranges>, AllocError>
    requires { length bytes.now % 16 ≡ 0 }
    ensures found { IfOk result (λ o. IfSome o (λ rs. IsCut rs × (flat_map range rs ≡ bytes.now))) }
    ensures none { IfOk result (λ o. IfNone o ((rs : List RangeValue) → IsCut rs → flat_map range rs ≡ bytes.now → ⊥)) }
{
    match read_each_range(alloc, bytes)? {
        Some(ranges) => Ok(Ranges::from_ranges(ranges)),
        None => Ok(None),
    }
}

/// Reads ranges in any order. Returns `None` if one is empty or not within the domain.
fn read_each_range(alloc: Global, bytes: &[u8]) -> Result<Option<Vec<Range>>, AllocError>
    requires { length bytes.now % 16 ≡ 0 }
    ensures found { IfOk result (λ o. IfSome o (λ v. AllByRecursion IsRange v.items × (flat_map range v.items ≡ bytes.now))) }
    ensures none { IfOk result (λ o. IfNone o ((rs : List RangeValue) → AllByRecursion IsRange rs → flat_map range rs ≡ bytes.now → ⊥)) }
{
    let mut ranges = Vec::with_capacity(alloc, bytes.len() / 16)?;
    let mut rest = bytes;
    while !rest.is_empty() {
        let (from, after) = read_i64(rest);
        let (to, after) = read_i64(after);
        let Some(range) = Range::new(from, to) else {
            return Ok(None);
        };
        ranges.push(range)?;
        rest = after;
    }
    Ok(Some(ranges))
}

/// Reads the points that a commit adds. Returns `None` if no commit can add these points. An `Err` means out of memory.
pub fn read_bag(alloc: Global, bytes: &[u8]) -> Result<Option<Bag>, AllocError>
    requires { length bytes.now % 16 ≡ 0 }
    ensures found { IfOk result (λ o. IfSome o (λ b. AreAddable b × (flat_map point b ≡ bytes.now))) }
    ensures none { IfOk result (λ o. IfNone o ((b : List PointSpec) → AreAddable b → flat_map point b ≡ bytes.now → ⊥)) }
{
    let points = read_points(alloc, bytes)?;
    if !are_in_order(&points) {
        return Ok(None);
    }
    if !are_in_domain(&points) {
        return Ok(None);
    }
    Ok(Some(Bag::from_points(points)))
}

/// Reads points in any order and at any time.
fn read_points(alloc: Global, bytes: &[u8]) -> Result<Vec<Point>, AllocError>
    requires { length bytes.now % 16 ≡ 0 }
    ensures bytes { IfOk result (λ v. flat_map point v.items ≡ bytes.now) }
    ensures room { IfOk result (λ v. AllByRecursion PointFits v.items) }
{
    let mut points = Vec::with_capacity(alloc, bytes.len() / 16)?;
    let mut rest = bytes;
    while !rest.is_empty() {
        let (time, after) = read_i64(rest);
        let (value, after) = read_i64(after);
        points.push(Point { time, value })?;
        rest = after;
    }
    Ok(points)
}

/// Returns whether the points are in order.
fn are_in_order(points: &[Point]) -> bool
    ensures { IsTrue result ↔ IsInOrder points.now }
{
    points.is_sorted()
}

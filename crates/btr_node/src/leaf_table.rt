//! The table of a leaf's page.
ghost use Rattle.std.specs.Prelude.{◌↔◌, IsTrue};
ghost use Rattle.std.specs.List.{AllByRecursion};
ghost use Rattle.btr_base.specs.Bag.{IsInOrder};
ghost use Rattle.btr_node.specs.Page.{IsLeafPage, IsInside, IsUnused};

use crate::page::PageHeader;
use crate::span_table::{kept_span, start_of};
use btr_base::{LEAF_POINTS, Point, Span};

/// Whether a leaf's page keeps the table.
pub(crate) fn is_leaf(header: &PageHeader, points: &[Point; LEAF_POINTS]) -> bool
    ensures { IsTrue result ↔ IsLeafPage header.now points.now }
{
    let Some(span) = kept_span(header) else {
        return false;
    };
    if header.count < 1 || header.count > LEAF_POINTS as u64 {
        return false;
    }
    let (used, rest) = points.split_at(header.count as usize);
    are_in_order(used) && are_inside(used, &span) && are_unused(rest)
}

/// Whether no point is before the one that it follows.
fn are_in_order(points: &[Point]) -> bool
    ensures { IsTrue result ↔ IsInOrder points.now }
{
    for i in 1..points.len() {
        if points[i] < points[i - 1] {
            return false;
        }
    }
    true
}

/// Whether the time of each point lies in the span.
fn are_inside(points: &[Point], span: &Span) -> bool
    ensures { IsTrue result ↔ AllByRecursion (IsInside span.now.start span.now.height) points.now }
{
    let start = start_of(span);
    let end = span.end();
    for point in points {
        if point.time < start || end <= point.time {
            return false;
        }
    }
    true
}

/// Whether each of the places is unused.
fn are_unused(places: &[Point]) -> bool
    ensures { IsTrue result ↔ AllByRecursion IsUnused places.now }
{
    for place in places {
        if place.time != 0 || place.value != 0 {
            return false;
        }
    }
    true
}

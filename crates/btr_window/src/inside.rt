//! Spans inside a range.
ghost use Rattle.std.specs.Prelude.{◌↔◌, ◌≤ℤ◌, IsTrue};
ghost use Rattle.btr_tree.specs.Change.{end_of};

use btr_base::{Range, Span};

/// Whether all times of the span are in the range.
pub(crate) fn is_inside(span: Span, range: Range) -> bool
    ensures { IsTrue result ↔ ((range.from ≤ℤ span.start) × (end_of span ≤ℤ range.to)) }
{
    range.from <= span.start && span.end() <= range.to
}

//! What a walk is given: a slot of an inner node, and windows of a range.

use btr_base::{Grid, Range, Span};

/// A slot of an inner node: its span, and its number among the slots of the node.
#[derive(Clone, Copy)]
pub(crate) struct Part {
    pub(crate) span: Span,
    pub(crate) i: u8,
}

/// The windows of a grid in a range.
#[derive(Clone, Copy)]
pub(crate) struct WindowRange {
    pub(crate) grid: Grid,
    pub(crate) range: Range,
}

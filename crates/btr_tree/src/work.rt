//! What the functions take that build a tree by several threads.
use crate::commit::Numbering;
use btr_base::{Point, Span};

/// The points of a span, for which a subtree is built. The n-th of its nodes is for the block `numbering.first + n`.
#[derive(Clone, Copy)]
pub(crate) struct Work<'a> {
    pub(crate) span: Span,
    pub(crate) points: &'a [Point],
    pub(crate) numbering: Numbering,
}

/// The points in the slots of a span from one up to, and without, another, for which the children of these slots are built.
#[derive(Clone, Copy)]
pub(crate) struct PartWork<'a> {
    pub(crate) span: Span,
    pub(crate) from: u8,
    pub(crate) to: u8,
    pub(crate) points: &'a [Point],
    pub(crate) numbering: Numbering,
}

/// The points in the slots of a span from one up to, and without, another, and where they are divided: those in the slots before
/// `mid`, and those in the slots from it on.
#[derive(Clone, Copy)]
pub(crate) struct Halves<'a> {
    pub(crate) span: Span,
    pub(crate) from: u8,
    pub(crate) mid: u8,
    pub(crate) to: u8,
    pub(crate) front: &'a [Point],
    pub(crate) back: &'a [Point],
    pub(crate) numbering: Numbering,
}

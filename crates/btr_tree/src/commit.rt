//! Commits as a tree takes them, and their parts in spans.
use crate::node::{Child, Slot};
use btr_base::{Bag, Point, Range, Ranges};

/// A commit as a tree takes it: what is cut, what is added, the version that it makes, and the block of its first new node.
#[derive(Clone, Copy)]
pub struct TreeCommit<'a> {
    /// The points whose time one of these ranges covers are removed, before those of `added` are added.
    pub cut: &'a Ranges,

    /// The points that are added.
    pub added: &'a Bag,

    /// The version that the commit makes, which each new node gets.
    pub version: u64,

    /// The block of the first new node. The n-th, counted from 0, is for the block `first + n`.
    pub first: u64,
}

/// What new nodes get: their version, and the block of the first of them. The n-th, counted from 0, is for the block
/// `first + n`.
#[derive(Clone, Copy)]
pub(crate) struct Numbering {
    pub(crate) version: u64,
    pub(crate) first: u64,
}

/// The part of a commit in a span.
#[derive(Clone, Copy)]
pub(crate) struct SpanCommit<'a> {
    pub(crate) cut: &'a [Range],
    pub(crate) added: &'a [Point],
    pub(crate) numbering: Numbering,
}

/// A slot before a commit, and the link to its child.
#[derive(Clone, Copy)]
pub(crate) struct OldSlot<'a> {
    pub(crate) slot: Slot,
    pub(crate) child: Child<'a>,
}

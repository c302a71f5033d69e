//! What two trees are compared for, and what a comparison finds.

use btr_base::{Ranges, Span};
use btr_tree::Steps;
use std::alloc::Global;

/// What two trees are compared for.
#[derive(Clone, Copy)]
pub struct Comparison {
    /// The allocator.
    pub alloc: Global,

    /// The version of the older tree.
    pub since: u64,

    /// A slot is `2^p` ns wide.
    pub p: u8,

    /// A changed slot ends this many nanoseconds later, at most at the domain's end.
    pub lead: u64,
}

/// A span of two trees, and what it is compared for.
#[derive(Clone, Copy)]
pub(crate) struct Task {
    pub(crate) span: Span,
    pub(crate) by: Comparison,
}

/// What a comparison finds, and its counter of the older tree's nodes. `M` is the label of that counter.
#[derive(Drop)]
pub struct Findings<M> {
    /// The changed slots, each lengthened by the lead.
    pub changed: Ranges,

    /// Counts the nodes of the older tree.
    pub older: Steps<M>,
}

//! What a visit of a source finds.

/// The node of a span that was visited, or nothing if the span has no point. `F` has the points of a leaf, and `I` the slots
/// of an inner node.
#[derive(Drop)]
pub enum FoundNode<F, I> {
    /// No node: the span has no point.
    Nothing,

    /// The points, at most 252, by time and value.
    Leaf { version: u64, points: F },

    /// More than 252 points, in 64 slots in order of time.
    Inner { version: u64, slots: I },
}

use crate::agg::Agg;

/// A window of time and the aggregate of its points.
#[derive(Clone, Copy, PartialEq, Eq)]
pub struct Cell {
    /// The first time of the window, in nanoseconds.
    pub start: i64,

    /// The aggregate of the window's points.
    pub agg: Agg,
}

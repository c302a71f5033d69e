//! Who learns when work begins and ends.

/// Learns when each turn of work begins and ends. Turns have numbers from 0. Whoever does a turn calls [`Pace::begun`] before its
/// first step and [`Pace::ended`] after its last. A call may wait: with that a test shows that two turns run beside each other.
pub trait Pace {
    /// A turn of work begins.
    fn begun(&self, turn: u32);

    /// A turn of work has ended.
    fn ended(&self, turn: u32);
}

/// A pace that does nothing.
#[derive(Clone, Copy)]
pub struct NoPace;

impl Pace for NoPace {
    fn begun(&self, _turn: u32) {}

    fn ended(&self, _turn: u32) {}
}

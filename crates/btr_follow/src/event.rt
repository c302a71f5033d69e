//! The events of a leader and its follower, and the lengths of their histories.

use btr_core::Event;

/// Something that happens to a leader and its follower.
#[derive(Drop)]
pub enum FollowEvent {
    /// An actor of the leader does something.
    Lead(Event),

    /// The leader ships the frame of its entry with this number, from 1 on. Nothing happens if it has no such entry.
    Ship(u64),

    /// One of the frames that were ever shipped reaches the follower: the one with this index, from 0 on. It may do so any number of
    /// times, and in any order. Nothing happens if there is no such frame.
    Deliver(u64),

    /// The follower stops inside such a delivery, and is started again. The entry of the frame is kept or not.
    Torn { frame: u64, kept: bool },
}

/// The lengths of the histories of a leader and its follower.
#[derive(Clone, Copy, PartialEq, Eq)]
pub struct Lengths {
    /// The number of entries of the leader.
    pub leader: u64,

    /// The number of entries of the follower.
    pub follower: u64,

    /// The number of entries that the follower has acknowledged: those that it found at its last start, and those taken since.
    pub acked: u64,
}

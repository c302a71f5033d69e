//! What is out of the state of a group while a batch is committed.
use btr_base::Point;
use btr_disk::Disk;
use btr_hall::Session;

/// The session of a group, and the batch that it is to commit.
#[derive(Drop)]
pub(crate) struct Led<D: Disk> {
    pub(crate) session: Session<D>,
    /// The ticket of the first offer of the batch.
    pub(crate) first: u64,
    /// The number of tickets of the batch.
    pub(crate) tickets: u64,
    /// The points of the batch, in the order of the offers.
    pub(crate) points: Vec<Point>,
}

/// What the turn of an accepted offer made.
#[derive(Drop)]
pub(crate) struct Put<D: Disk> {
    pub(crate) ticket: u64,
    /// What the turn took out, if the offer leads.
    pub(crate) led: Option<Led<D>>,
}

/// What the turn of a flush found.
#[derive(Drop)]
pub(crate) enum Begun<D: Disk> {
    /// Another batch is out.
    Busy,

    /// The open batch is empty, and no batch is out.
    Nothing,

    /// What the turn took out.
    Led(Led<D>),
}

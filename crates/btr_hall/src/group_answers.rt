//! What the calls of a group return.
ghost use Rattle.std.specs.Prelude.{◌≡◌};
ghost use Rattle.btr_hall.specs.declared.group_answers.OfferFault.TheVariants.{Want};

use btr_engine::{Receipt, StepFault};
use std::alloc::AllocError;

/// The result of the commit of a batch.
#[derive(Clone, Copy, PartialEq, Eq)]
pub enum Outcome {
    /// The batch is one entry of the history: its receipt.
    Stored(Receipt),

    /// The commit was refused, and the points of the batch are dropped.
    Refused(StepFault),
}

/// What an offer returns.
#[derive(Clone, Copy, PartialEq, Eq)]
pub struct Offered {
    /// The ticket of the offer. Tickets count from 0, in the order of turns.
    pub ticket: u64,

    /// The outcome of the batch, if the offer led it. Its ticket is then in that batch.
    pub led: Option<Outcome>,
}

/// Why an offer is not accepted. If there are several causes, the first in this order. The group is as before.
#[derive(Clone, Copy, PartialEq, Eq)]
pub enum OfferFault {
    /// A point lies outside the domain: the least such time, in nanoseconds.
    OutOfDomain { time: i64 },

    /// There are no points.
    Empty,

    /// The open batch would hold more than 65,536 points, the most that one commit adds: the number that it would hold.
    TooMany { count: u64 },

    /// 2^60 tickets were given.
    Spent,

    /// Out of memory.
    Want,
}

impl From<AllocError> for OfferFault {
    ghost from_gives = { λ _ e. e ≡ Want };

    fn from(_error: AllocError) -> OfferFault {
        OfferFault::Want
    }
}

/// What a flush returns.
#[derive(Clone, Copy, PartialEq, Eq)]
pub enum Flushed {
    /// Another batch is out.
    Busy,

    /// The open batch is empty, and no batch is out.
    Nothing,

    /// The outcome of the batch that the flush led.
    Led(Outcome),
}

/// What is known of a ticket.
#[derive(Clone, Copy, PartialEq, Eq)]
pub enum Known {
    /// The ticket was not given.
    NoTicket,

    /// The batch of the ticket is open or out.
    Unsettled,

    /// The outcome of the batch of the ticket.
    Settled(Outcome),
}

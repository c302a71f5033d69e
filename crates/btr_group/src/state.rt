//! What the gate of a group carries: the open batch, the settled batches, and the session while no batch is out.
ghost use Rattle.std.specs.Prelude.{◌≡◌, ℕ, ◌+◌, ◌*◌, ◌^◌, ◌<◌, ◌≤◌, false, not, vec_len, vec_capacity};
ghost use Rattle.std.specs.Option.{is_some};
ghost use Rattle.btr_gate.specs.Numbers.{one};
ghost use Rattle.btr_hall.specs.GroupFaults.{said_of_feed};

use crate::group::{GroupSetting, SettledBatch};
use crate::led::{Begun, Led, Put};
use btr_base::Point;
use btr_disk::Disk;
use btr_feed::{Feed, FeedFault};
use btr_gate::Chronicle;
use btr_hall::{GroupItem, OfferFault, Session};
use std::alloc::AllocError;
use std::snapshot::Snapshot as State;

/// The most tickets of a group.
const MAX_TICKETS: u64 = 1 << 60;

/// The open batch, the settled batches, and the session if it is at home.
#[derive(Drop)]
pub struct GroupState<D: Disk> {
    /// The session with which the group began, for contracts alone.
    pub(crate) start: State<Session<D>>,
    /// The session of the group. It is out while a batch is committed.
    pub(crate) session: Option<Session<D>>,
    /// The open batch.
    pub(crate) filling: Feed,
    /// The ticket of the first offer of the open batch.
    pub(crate) first: u64,
    /// The number of tickets.
    pub(crate) given: u64,
    /// The settled batches, in order.
    pub(crate) settled: Vec<SettledBatch>,
    /// The number of items of the list.
    pub(crate) items: u64,
    ghost few: { given ≤ 2 ^ 60 },
    ghost opened: { first ≤ given },
    // Each batch that was led has a ticket.
    ghost batches: { vec_len settled + one (not (is_some session)) ≤ first },
    // Each item is an offer, the taking of a batch, or its settling.
    ghost counted: { items ≤ given + 2 * vec_len settled + one (not (is_some session)) },
    // The memory of the note of the batch that is out is taken.
    ghost room: { is_some session ≡ false → vec_len settled < vec_capacity settled },
}

impl<D: Disk> Chronicle<GroupItem, GroupSetting<D>> for GroupState<D> {
    ghost use Rattle.std.specs.Prelude.{false, not};
    ghost use Rattle.std.specs.Option.{is_some};
    ghost use Rattle.btr_hall.specs.GroupBook.{book};
    ghost use Rattle.btr_group.specs.State.{IsGroupAt};
    ghost use Rattle.btr_group.specs.StateLaws.{group_bounded, group_lent};

    ghost is_state_of = { IsGroupAt };

    // What is lent is the session.
    ghost lent = { λ s. not (is_some s.session) };

    ghost frozen = { false };

    ghost lent_after = { λ l. is_some (book l).out };

    fn entries(&self) -> u64 {
        self.items
    }

    ghost bounded = { group_bounded };

    ghost lent_is = { λ _. group_lent };
}

impl<D: Disk> GroupState<D> {
    ghost use Rattle.std.specs.Prelude.{◌++◌, true, nat_le, length, IfOk, OnOk, OnErr};
    ghost use Rattle.btr_hall.specs.GroupFaults.{offer_fault, OfferFails};
    ghost use Rattle.btr_group.specs.State.{state_value, with_offer, without_batch, with_lead, with_settled, leads_in, IsLed};
    ghost use Rattle.btr_group.specs.Turns.{TakesOffer, TakesFlush};

    /// Puts points into the open batch, and takes it out with the session if it is then large enough and the session is at home.
    /// Returns the item of the list that it made.
    pub(crate) fn offer(
        &mut self,
        points: &[Point],
    ) -> (Result<Put<D>, OfferFault>, Option<GroupItem>)
        ensures { TakesOffer (state_value self.old) points.now result.0 result.1 (state_value self.new) }
    {
        let ticket = self.given;
        let leads = match self.put(points) {
            Ok(leads) => leads,
            Err(fault) => return (Err(fault), None),
        };
        let filled = State::of(&self.filling);
        let item = GroupItem::Offer { filled, leads };
        if !leads {
            return (Ok(Put { ticket, led: None }), Some(item));
        }
        let led = Some(self.take());
        (Ok(Put { ticket, led }), Some(item))
    }

    /// Takes the open batch out with the session, if the session is at home and the batch is not empty. Returns the item of the
    /// list that it made.
    pub(crate) fn flush(&mut self) -> (Result<Begun<D>, AllocError>, Option<GroupItem>)
        ensures { TakesFlush (state_value self.old) result.0 result.1 (state_value self.new) }
    {
        if self.session.is_none() {
            return (Ok(Begun::Busy), None);
        }
        if self.first == self.given {
            return (Ok(Begun::Nothing), None);
        }
        if let Err(error) = self.settled.reserve(1) {
            return (Err(error), None);
        }
        let led = self.take();
        self.items += 1;
        (Ok(Begun::Led(led)), Some(GroupItem::Lead))
    }

    /// Brings the session back with its batch.
    pub(crate) fn settle(&mut self, session: Session<D>, batch: SettledBatch)
        requires { is_some self.old.session ≡ false }
        ensures { state_value self.new ≡ with_settled (state_value self.old) session batch }
    {
        self.settled.push_reserved(batch);
        self.items += 1;
        self.session = Some(session);
    }

    /// Puts points into the open batch. Returns whether it is large enough and the session is at home. After an `Err` nothing is
    /// changed.
    fn put(&mut self, points: &[Point]) -> Result<bool, OfferFault>
        ensures fault { OfferFails (offer_fault self.old.filling self.old.given points.now) result }
        ensures put { OnOk result (state_value self.new ≡ with_offer (state_value self.old) points.now) }
        ensures err { OnErr result (state_value self.new ≡ state_value self.old) }
        ensures leads { IfOk result (λ leads. leads ≡ leads_in (state_value self.old) points.now) }
        ensures room { OnOk result (vec_len self.new.settled < vec_capacity self.new.settled) }
    {
        if let Some(fault) = self.fault(points) {
            return Err(fault);
        }
        self.settled.reserve(1)?;
        if let Err(_) = self.filling.insert(points) {
            return Err(OfferFault::Want);
        }
        self.given += 1;
        self.items += 1;
        Ok(self.session.is_some() && self.filling.threshold() <= self.filling.len())
    }

    /// Returns why an offer of these points is refused, or `None` if only memory can be missing.
    fn fault(&self, points: &[Point]) -> Option<OfferFault>
        ensures { result ≡ offer_fault self.now.filling self.now.given points.now }
    {
        if let Some(fault) = self.filling.fault(points) {
            return Some(of_feed(fault));
        }
        if points.is_empty() {
            return Some(OfferFault::Empty);
        }
        if self.given >= MAX_TICKETS {
            return Some(OfferFault::Spent);
        }
        None
    }

    /// Takes the open batch out with the session.
    fn take(&mut self) -> Led<D>
        requires home { is_some self.old.session ≡ true }
        requires some { self.old.first < self.old.given }
        requires room { vec_len self.old.settled < vec_capacity self.old.settled }
        ensures led { IsLed (state_value self.old) result }
        ensures taken { state_value self.new ≡ without_batch (state_value self.old) }
    {
        let Some(session) = self.session.take() else {
            unreachable!()
        };
        let first = self.first;
        self.first = self.given;
        let points = self.filling.take();
        Led {
            session,
            first,
            tickets: self.given - first,
            points,
        }
    }
}

/// What is said of an offer whose points the open batch does not accept.
fn of_feed(fault: FeedFault) -> OfferFault
    ensures { result ≡ said_of_feed fault }
{
    match fault {
        FeedFault::OutOfDomain { time } => OfferFault::OutOfDomain { time },
        FeedFault::TooMany { count } => OfferFault::TooMany { count },
        FeedFault::Want => OfferFault::Want,
    }
}

//! Four threads that offer to one group. What they may get does not depend on their schedule.
ghost use Rattle.std.specs.Prelude.{◌≡◌, ℕ, Bool, IfOk};
ghost use Rattle.std.specs.Thread.{IsSync};
ghost use Rattle.btr_gate.specs.Shares.{on_path};
ghost use Rattle.btr_hall.specs.Session.{IsSessionOf};
ghost use Rattle.btr_group.specs.Seats.{IsGroupSeat, first_session, share_by};

use crate::fixture::{Buffer, Giver, Place, Put, Remains, begun, close, offer};
use btr_base::Point;
use btr_group::{Offered, Outcome};
use std::alloc::Global;
use std::marker::Sync;
use std::sync::Wait;
use std::test::Fail;
use std::thread::{Threads, join};

/// The offers of each thread.
const OFFERS: u32 = 50;

/// The tickets that threads got, or nothing if an offer was refused, a batch was not stored, or memory ran out.
type Tickets = Option<Vec<u64>>;

/// The ticket of an offer that was accepted, and whose batch was stored if the offer led it.
fn ticket_of(put: Put) -> Option<u64> {
    match put {
        Ok(Offered { ticket, led: None }) => Some(ticket),
        Ok(
            Offered {
                ticket,
                led: Some(Outcome::Stored(_)),
            },
        ) => Some(ticket),
        _ => None,
    }
}

/// Tickets with that of one more offer.
fn with_ticket(tickets: Tickets, put: Put) -> Tickets {
    let mut tickets = tickets?;
    tickets.push(ticket_of(put)?).ok()?;
    Some(tickets)
}

/// Offers so many points, one after another. Each has a time of its own, from `first` on.
fn offer_often<R: Threads + Wait + Sync>(
    rt: &R,
    alloc: Global,
    hall: &Place,
    group: &Buffer,
    seat: Giver,
    first: u32,
) -> (Giver, Tickets)
    requires own { IsGroupSeat group.now seat }
    requires hall { IsSessionOf hall.now (first_session group.now) }
    ensures own { IsGroupSeat group.now result.0 }
    ensures share { share_by result.0 ≡ share_by seat }
{
    let mut seat = seat;
    let mut tickets = Some(Vec::new(alloc));
    for index in 0..OFFERS {
        let time = i64::from(first) + i64::from(index);
        let put = offer(
            rt,
            alloc,
            hall,
            group,
            &mut seat,
            &[Point { time, value: 1 }],
        );
        tickets = with_ticket(tickets, put);
    }
    (seat, tickets)
}

/// Both lists as one.
fn both(first: Tickets, second: Tickets) -> Tickets {
    let mut all = first?;
    all.extend_from_slice(&second?).ok()?;
    Some(all)
}

/// Lets this many threads offer.
#[cycle(offer_by_threads)]
fn offer_by_threads<R: Threads + Wait + Sync>(
    rt: &R,
    alloc: Global,
    hall: &Place,
    group: &Buffer,
    seat: Giver,
    first: u32,
    threads: u32,
) -> (Giver, Tickets)
    requires crossing { IsSync R.row }
    requires own { IsGroupSeat group.now seat }
    requires hall { IsSessionOf hall.now (first_session group.now) }
    ensures own { IsGroupSeat group.now result.0 }
    ensures share { (path : ℕ → Bool) → on_path path (share_by result.0) ≡ on_path path (share_by seat) }
{
    if threads <= 1 {
        return offer_often(rt, alloc, hall, group, seat, first);
    }
    let half = threads / 2;
    let rest = threads - half;
    let middle = first.wrapping_add(half.wrapping_mul(OFFERS));
    let mut seat = seat;
    let other = seat.split(group);
    let ((mut seat, here), (other, there)) = join(
        rt,
        || -> (Giver, Tickets)
            requires { IsSync R.row × IsGroupSeat group.now seat × IsSessionOf hall.now (first_session group.now) }
            ensures own { IsGroupSeat group.entry.now result.0 }
            ensures share { (path : ℕ → Bool) → on_path path (share_by result.0) ≡ on_path path (share_by seat) }
        { offer_by_threads(rt, alloc, hall, group, seat, first, half) },
        || -> (Giver, Tickets)
            requires { IsSync R.row × IsGroupSeat group.now other × IsSessionOf hall.now (first_session group.now) }
            ensures own { IsGroupSeat group.entry.now result.0 }
            ensures share { (path : ℕ → Bool) → on_path path (share_by result.0) ≡ on_path path (share_by other) }
        { offer_by_threads(rt, alloc, hall, group, other, middle, rest) },
    );
    seat.meet(group, other);
    (seat, both(here, there))
}

/// Lets four threads offer to a group of threshold 7. Returns their tickets, and what is left.
fn offered_by_four<R: Threads + Wait + Sync>(
    rt: &R,
    alloc: Global,
) -> Result<(Tickets, Remains), Fail> {
    let (hall, group, seat) = begun(rt, alloc, 7)?;
    let (seat, tickets) = offer_by_threads(rt, alloc, &hall, &group, seat, 0, 4);
    Ok((tickets, close(alloc, hall, group, seat)?))
}

/// Whether the tickets are those from 0 on, each once.
fn are_each_once(tickets: Tickets) -> bool {
    let Some(mut tickets) = tickets else {
        return false;
    };
    tickets.sort_unstable();
    let mut next = 0u64;
    for ticket in tickets.iter().copied() {
        if ticket != next {
            return false;
        }
        next = next.wrapping_add(1);
    }
    next == 200
}

/// Whether the batches have the tickets from 0 on, each once and with its one point, and each batch at least as many as the threshold,
/// and whether they are the versions of the stream, in order. The rest of the 200 tickets is left.
fn are_all_there(remains: &Remains) -> bool {
    let mut next = 0u64;
    let mut version = 0u64;
    for (first, tickets, points, outcome) in remains.batches.iter().copied() {
        let Outcome::Stored(receipt) = outcome else {
            return false;
        };
        version = version.wrapping_add(1);
        if first != next || tickets < 7 || points as u64 != tickets || receipt.version != version {
            return false;
        }
        next = next.wrapping_add(tickets);
    }
    next.wrapping_add(remains.left.len() as u64) == 200
        && remains.entries == version.wrapping_add(1)
}

#[test]
fn each_ticket_of_four_threads_is_in_one_batch_or_left(rt: HostRuntime) -> Result<(), Fail> {
    let (tickets, remains) = offered_by_four(&rt, rt.alloc())?;
    assert!(rt; are_each_once(tickets));
    assert!(rt; are_all_there(&remains));
    Ok(())
}

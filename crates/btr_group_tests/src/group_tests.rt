//! Two seats of one group in one thread. The expected values are worked out by hand.
ghost use Rattle.std.specs.Prelude.{◌≡◌, ℕ, Bool};
ghost use Rattle.btr_gate.specs.Shares.{on_path};
ghost use Rattle.btr_hall.specs.Session.{IsSessionOf};
ghost use Rattle.btr_group.specs.Seats.{IsGroupSeat, first_session, share_by};

use crate::fixture::{Buffer, Giver, Place, Put, Remains, SECOND, begun, close, offer, points_of};
use btr_base::Point;
use btr_engine::StepFault;
use btr_group::{Flushed, Known, OfferFault, Offered, Outcome};
use btr_hist::Rejection;
use std::alloc::{AllocError, Global};
use std::marker::Sync;
use std::sync::Wait;
use std::test::Fail;
use std::thread::Threads;

/// An accepted offer that did not lead.
fn waits(ticket: u64) -> Put {
    Ok(Offered { ticket, led: None })
}

/// An accepted offer that led its batch.
fn led(ticket: u64, outcome: Outcome) -> Put {
    let led = Some(outcome);
    Ok(Offered { ticket, led })
}

/// The points that the seats of the first example offer, in order.
fn offered(alloc: Global) -> Result<Vec<Point>, AllocError> {
    points_of(alloc, &[(0, 1), (1, 2), (2, 3), (3, 4)])
}

/// What two seats got: three offers, and what was known of tickets 0, 1 and 3.
type Given = ([Put; 3], [Known; 3]);

/// The first seat offers a point, and the second one two; the first one asks for ticket 0 and offers a fourth point; the second one asks
/// for tickets 1 and 3.
fn given_by_two<R: Threads + Wait + Sync>(
    rt: &R,
    alloc: Global,
    hall: &Place,
    group: &Buffer,
    first: &mut Giver,
    second: &mut Giver,
    points: &[Point],
) -> Given
    requires own { IsGroupSeat group.now first.old × IsGroupSeat group.now second.old }
    requires hall { IsSessionOf hall.now (first_session group.now) }
    ensures own { IsGroupSeat group.now first.new × IsGroupSeat group.now second.new }
    ensures share { (share_by first.new ≡ share_by first.old) × (share_by second.new ≡ share_by second.old) }
{
    let (head, rest) = points.split_at(points.len().min(1));
    let (middle, last) = rest.split_at(rest.len().min(2));
    let one = offer(rt, alloc, hall, group, first, head);
    let two = offer(rt, alloc, hall, group, second, middle);
    let open = first.outcome(rt, group, 0);
    let three = offer(rt, alloc, hall, group, first, last);
    let settled = second.outcome(rt, group, 1);
    let none = second.outcome(rt, group, 3);
    ([one, two, three], [open, settled, none])
}

/// Splits a seat, lets both offer these points, and lets them meet again.
fn given_by_split<R: Threads + Wait + Sync>(
    rt: &R,
    alloc: Global,
    hall: &Place,
    group: &Buffer,
    first: &mut Giver,
    points: &[Point],
) -> Given
    requires own { IsGroupSeat group.now first.old }
    requires hall { IsSessionOf hall.now (first_session group.now) }
    ensures own { IsGroupSeat group.now first.new }
    ensures share { (path : ℕ → Bool) → on_path path (share_by first.new) ≡ on_path path (share_by first.old) }
{
    let mut second = first.split(group);
    let given = given_by_two(rt, alloc, hall, group, first, &mut second, points);
    first.meet(group, second);
    given
}

/// A group of threshold 4, of which two seats offer four points; then a flush. Returns what they got, and what is left.
fn example<R: Threads + Wait + Sync>(
    rt: &R,
    alloc: Global,
) -> Result<(Given, Result<Flushed, AllocError>, Remains), Fail> {
    let points = offered(alloc)?;
    let (hall, group, mut seat) = begun(rt, alloc, 4)?;
    let given = given_by_split(rt, alloc, &hall, &group, &mut seat, &points);
    let flushed = seat.flush(rt, alloc, &hall, &group);
    Ok((given, flushed, close(alloc, hall, group, seat)?))
}

/// The batch is one entry: four calls of the device, two of which are syncs, as for the one that made the stream.
#[test]
fn one_commit_serves_three_offers_of_two_seats(rt: HostRuntime) -> Result<(), Fail> {
    let ((puts, known), flushed, remains) = example(&rt, rt.alloc())?;
    assert!(rt; puts == [waits(0), waits(1), led(2, SECOND)]);
    assert!(rt; known == [Known::Unsettled, Known::Settled(SECOND), Known::NoTicket]);
    assert!(rt; flushed == Ok(Flushed::Nothing));
    assert!(rt; remains.batches.as_slice() == [(0, 3, 4, SECOND)].as_slice());
    assert!(rt; remains.left.is_empty());
    assert!(rt; (remains.entries, remains.calls) == (2, 8));
    Ok(())
}

/// A group of threshold 253, which gets 252 points at time 0, and then one more there. Returns the offers, what is known of ticket 0, and
/// what is left.
fn crowd<R: Threads + Wait + Sync>(
    rt: &R,
    alloc: Global,
) -> Result<(Put, Put, Known, Remains), Fail> {
    let many = points_of(alloc, &[(0, 5); 252])?;
    let one = points_of(alloc, &[(0, 5)])?;
    let (hall, group, mut seat) = begun(rt, alloc, 253)?;
    let first = offer(rt, alloc, &hall, &group, &mut seat, &many);
    let second = offer(rt, alloc, &hall, &group, &mut seat, &one);
    let known = seat.outcome(rt, &group, 0);
    Ok((first, second, known, close(alloc, hall, group, seat)?))
}

#[test]
fn a_refused_batch_refuses_each_of_its_offers(rt: HostRuntime) -> Result<(), Fail> {
    let (first, second, known, remains) = crowd(&rt, rt.alloc())?;
    let why = Rejection::Crowded { start: 0 };
    let refused = Outcome::Refused(StepFault::Rejected(why));
    assert!(rt; first == waits(0) && second == led(1, refused));
    assert!(rt; known == Known::Settled(refused));
    assert!(rt; remains.batches.as_slice() == [(0, 2, 253, refused)].as_slice());
    assert!(rt; remains.left.is_empty() && remains.entries == 1);
    Ok(())
}

/// A group of threshold 65,536 that has 65,535 points gets no point, points outside the domain, and two points, which are too many; then
/// it is flushed. Returns the offers, the flush, and what is left.
fn refused<R: Threads + Wait + Sync>(
    rt: &R,
    alloc: Global,
) -> Result<([Put; 4], Result<Flushed, AllocError>, Remains), Fail> {
    let mut many = Vec::with_capacity(alloc, 65_535)?;
    for index in 0..65_535u32 {
        many.push(Point {
            time: i64::from(index),
            value: 1,
        })?;
    }
    let outside = points_of(alloc, &[(i64::MAX, 1), (i64::MIN, 1)])?;
    let two = points_of(alloc, &[(0, 1), (1, 1)])?;
    let (hall, group, mut seat) = begun(rt, alloc, 65_536)?;
    let first = offer(rt, alloc, &hall, &group, &mut seat, &many);
    let second = offer(rt, alloc, &hall, &group, &mut seat, &[]);
    let third = offer(rt, alloc, &hall, &group, &mut seat, &outside);
    let fourth = offer(rt, alloc, &hall, &group, &mut seat, &two);
    let flushed = seat.flush(rt, alloc, &hall, &group);
    let remains = close(alloc, hall, group, seat)?;
    Ok(([first, second, third, fourth], flushed, remains))
}

/// The device has too few blocks for the nodes of the batch, which is refused whole.
#[test]
fn an_offer_is_refused_for_its_points(rt: HostRuntime) -> Result<(), Fail> {
    let ([first, second, third, fourth], flushed, remains) = refused(&rt, rt.alloc())?;
    assert!(rt; first == waits(0) && second == Err(OfferFault::Empty));
    assert!(rt; third == Err(OfferFault::OutOfDomain { time: i64::MIN }));
    assert!(rt; fourth == Err(OfferFault::TooMany { count: 65_537 }));
    assert!(rt;
        matches!(
            flushed,
            Ok(Flushed::Led(Outcome::Refused(StepFault::DeviceFull { .. })))
        )
    );
    assert!(rt; remains.left.is_empty() && remains.entries == 1);
    Ok(())
}

/// A group of threshold 3 that gets two points and is closed. Returns what is left.
fn closed_early<R: Threads + Wait + Sync>(
    rt: &R,
    alloc: Global,
) -> Result<(Put, Known, Remains), Fail> {
    let points = points_of(alloc, &[(9, 1), (8, 2)])?;
    let (hall, group, mut seat) = begun(rt, alloc, 3)?;
    let put = offer(rt, alloc, &hall, &group, &mut seat, &points);
    let known = seat.outcome(rt, &group, 0);
    Ok((put, known, close(alloc, hall, group, seat)?))
}

#[test]
fn the_points_of_an_open_batch_are_left(rt: HostRuntime) -> Result<(), Fail> {
    let (put, known, remains) = closed_early(&rt, rt.alloc())?;
    let left = points_of(rt.alloc(), &[(9, 1), (8, 2)])?;
    assert!(rt; put == waits(0) && known == Known::Unsettled);
    assert!(rt; remains.left.as_slice() == left.as_slice() && remains.batches.is_empty());
    assert!(rt; (remains.entries, remains.calls) == (1, 4));
    Ok(())
}

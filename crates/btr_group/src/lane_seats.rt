//! Lanes that share groups: the seats of each are split off, and meet at the end.
ghost use Rattle.std.specs.Prelude.{◌≡◌, ◌≤◌, length, IfOk, IfErr, OnErr};
ghost use Rattle.std.specs.List.{AllByRecursion};
ghost use Rattle.btr_group.specs.Sets.{AreGroupsOf, AreSeatsOf, IsFirstSeat};
ghost use Rattle.btr_group.specs.LaneSeats.{IsLaneOf, BeginsLanes, EndsLanes};
ghost use Rattle.btr_group.specs.LaneSteps.{SplitsLane, MeetsLanes};

use crate::group::{Group, Seat};
use crate::lane_groups::LaneGroups;
use crate::sets::{meet_seats, split_seats};
use btr_disk::Disk;
use btr_hall::Hall;
use std::alloc::{AllocError, Global};

/// Makes lanes, as many as `lanes`, each with a part of every seat. The seats are the first ones of their groups.
///
/// It waits for no turn. It takes time and memory linear in the groups times `lanes`. An `Err` means out of memory: what was split has met
/// again, so the seats that it returns are the first ones of their groups.
pub fn begin_lanes<'a, D: Disk>(
    alloc: Global,
    hall: &'a Hall<D>,
    groups: &'a [Group<D>],
    threshold: u32,
    seats: Vec<Seat<D>>,
    lanes: usize,
) -> Result<Vec<LaneGroups<'a, D>>, (Vec<Seat<D>>, AllocError)>
    requires groups { AreGroupsOf hall.now threshold 0 groups.now }
    requires seats { AreSeatsOf groups.now seats.items }
    requires first { AllByRecursion IsFirstSeat seats.items }
    requires some { 1 ≤ lanes }
    ensures begins { IfOk result (λ r. BeginsLanes hall.now threshold lanes groups.now seats.items r.items) }
    ensures seats { IfErr result (λ r. AreSeatsOf groups.now r.0.items) }
    ensures first { IfErr result (λ r. AllByRecursion IsFirstSeat r.0.items) }
{
    let mut seats = seats;
    let mut made = match Vec::with_capacity(alloc, lanes) {
        Ok(made) => made,
        Err(error) => return Err((seats, error)),
    };
    for _ in 1..lanes {
        match split_lane(alloc, hall, groups, threshold, &mut seats) {
            Ok(lane) => made.push_reserved(lane),
            Err(error) => return Err((meet_lanes(groups, seats, made), error)),
        }
    }
    made.push_reserved(LaneGroups::new(hall, groups, threshold, seats));
    Ok(made)
}

/// Splits each seat, and makes a lane of the other parts. An `Err` means out of memory, and the seats are as before.
fn split_lane<'a, D: Disk>(
    alloc: Global,
    hall: &'a Hall<D>,
    groups: &'a [Group<D>],
    threshold: u32,
    seats: &mut Vec<Seat<D>>,
) -> Result<LaneGroups<'a, D>, AllocError>
    requires groups { AreGroupsOf hall.now threshold 0 groups.now }
    requires seats { AreSeatsOf groups.now seats.old.items }
    ensures seats { AreSeatsOf groups.now seats.new.items }
    ensures splits { IfOk result (λ lane. SplitsLane hall.now threshold groups.now seats.old.items seats.new.items lane) }
    ensures refused { OnErr result (seats.new ≡ seats.old) }
{
    let others = split_seats(alloc, groups, seats)?;
    Ok(LaneGroups::new(hall, groups, threshold, others))
}

/// Ends lanes that share these groups: the seats of all lanes meet, those of each group in one.
///
/// It waits for no turn. It takes time linear in the items of all lanes for each lane, and no memory.
pub fn end_lanes<D: Disk>(groups: &[Group<D>], lanes: Vec<LaneGroups<'_, D>>) -> Vec<Seat<D>>
    requires some { 1 ≤ length lanes.items }
    requires lanes { AllByRecursion (IsLaneOf groups.now) lanes.items }
    ensures { EndsLanes groups.now lanes.entry.items result.items }
{
    let mut lanes = lanes;
    let Some(last) = lanes.pop() else {
        unreachable!()
    };
    meet_lanes(groups, last.into_seats(), lanes)
}

/// The seats take in those of each lane, in order.
fn meet_lanes<D: Disk>(
    groups: &[Group<D>],
    seats: Vec<Seat<D>>,
    lanes: Vec<LaneGroups<'_, D>>,
) -> Vec<Seat<D>>
    requires seats { AreSeatsOf groups.now seats.items }
    requires lanes { AllByRecursion (IsLaneOf groups.now) lanes.items }
    ensures seats { AreSeatsOf groups.now result.items }
    ensures meets { MeetsLanes seats.items lanes.entry.items result.items }
{
    let mut seats = seats;
    for lane in lanes {
        meet_seats(groups, &mut seats, lane.into_seats());
    }
    seats
}

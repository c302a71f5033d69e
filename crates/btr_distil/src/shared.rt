//! The points of an output, computed in several threads.
ghost use Rattle.std.specs.Prelude.{◌≡◌, IfOk, filter, length, min};
ghost use Rattle.std.specs.List.{AllZip, flat_map};
ghost use Rattle.btr_base.specs.Range.{covered};
ghost use Rattle.btr_base.specs.Bag.{sort};
ghost use Rattle.btr_hist.specs.Distil.{Inputs, output_points};
ghost use Rattle.btr_kernel.specs.Sources.{AtEachInputs};
ghost use Rattle.btr_distil.specs.Sight.{IsSightOf};

use crate::parts::parts_at;
use crate::planning::output_over;
use crate::sight::Sight;
use crate::split_times::split_times;
use btr_base::{Bag, Ranges};
use rayon::prelude::*;
use std::alloc::{AllocError, Global};
use std::marker::Sync;
use std::thread::Threads;

/// The points of the output over the new inputs at the times of the ranges, computed by at most this many threads at once.
pub(crate) fn output_shared<R: Threads + Sync>(
    rt: &R,
    alloc: Global,
    sight: &Sight<'_>,
    ranges: &Ranges,
    threads: usize,
) -> Result<Bag, AllocError>
    ensures { IfOk result (λ b. (old new : Inputs) → IsSightOf sight.now old new
        → b ≡ filter (λ p. covered ranges.now p.time) (output_points sight.now.spec new)) }
{
    let times = split_times(alloc, sight.new_first, ranges, threads)?;
    if times.is_empty() {
        return output_over(alloc, sight, ranges);
    }
    let parts = parts_at(alloc, ranges, &times)?;
    let made = swept(rt, alloc, sight, &parts)?;
    joined(alloc, made)
}

/// The points of an output in each of the parts, each made a bag by at most one thread. An `Err` means out of memory, in any of the
/// threads.
fn swept<R: Threads + Sync>(
    rt: &R,
    alloc: Global,
    sight: &Sight<'_>,
    parts: &[Ranges],
) -> Result<Vec<Bag>, AllocError>
    ensures { IfOk result (λ v. AllZip (λ r b. AtEachInputs sight.now.new_first sight.now.new_second (λ i.
        b ≡ filter (λ p. covered r p.time) (output_points sight.now.spec i))) parts.now v.items) }
{
    let made: Result<Vec<Bag>, AllocError> = parts
        .par_iter()
        .with_min_len(1)
        .map(
            |part: &Ranges| -> Result<Bag, AllocError>
                ensures { IfOk result (λ b. AtEachInputs sight.entry.now.new_first sight.entry.now.new_second (λ i.
                    b ≡ filter (λ p. covered part.now p.time) (output_points sight.entry.now.spec i))) }
            { output_over(alloc, sight, part) },
        )
        .collect(rt, alloc)?;
    made
}

/// The points of all the bags. The first bag keeps its memory, which is lengthened once for the points of the others. Each of them is
/// appended in time linear in its points, if none of them comes before one of an earlier bag. An `Err` means out of memory.
fn joined(alloc: Global, bags: Vec<Bag>) -> Result<Bag, AllocError>
    ensures { IfOk result (λ b. b ≡ sort (flat_map (λ other. other) bags.items)) }
{
    let room = room_for(&bags);
    let mut others = bags.into_iter();
    let Some(mut points) = others.next() else {
        return Ok(Bag::from_points(Vec::new(alloc)));
    };
    points.reserve(room.saturating_sub(points.as_slice().len()))?;
    while let Some(bag) = others.next() {
        points.append(&bag)?;
    }
    Ok(points)
}

/// How many points bags have, or the greatest number there is.
fn room_for(bags: &[Bag]) -> usize
    ensures { result ≡ min 18446744073709551615 (length (flat_map (λ b. b) bags.now)) }
{
    let mut room = 0usize;
    for bag in bags {
        room = room.saturating_add(bag.as_slice().len());
    }
    room
}

//! The points of an entry, in parts, which are made by several threads.
ghost use Rattle.std.specs.Prelude.{◌≡◌, ◌++◌, IfOk, OnOk};
ghost use Rattle.std.specs.List.{flat_map};
ghost use Rattle.std.specs.Thread.{IsSync};
ghost use Rattle.btr_entry.specs.Grammar.{point, ValuesFit};

use btr_base::Point;
use btr_disk::Parts;
use btr_entry::append_points;
use std::alloc::{AllocError, Global};
use std::marker::Sync;
use std::thread::{Threads, join};

/// Bytes of a point in an entry.
const POINT_BYTES: usize = 16;

/// Returns the bytes of points as an entry has them. An `Err` is out of memory.
pub(crate) fn points_by(alloc: Global, points: &[Point]) -> Result<Parts, AllocError>
    ensures bytes { IfOk result (λ p. p ≡ flat_map point points.now) }
    ensures values { OnOk result (ValuesFit points.now) }
{
    let mut bytes = Vec::with_capacity(alloc, points.len().saturating_mul(POINT_BYTES))?;
    append_points(&mut bytes, points)?;
    Parts::of(alloc, bytes)
}

/// Returns the bytes of points as an entry has them, made by at most `threads` threads at once, the calling one among them. An `Err` is
/// out of memory, in any of the threads.
#[cycle(points)]
pub(crate) fn points_in<R: Threads + Sync>(
    rt: &R,
    alloc: Global,
    points: &[Point],
    threads: usize,
) -> Result<Parts, AllocError>
    ensures bytes { IfOk result (λ p. p ≡ flat_map point points.now) }
    ensures values { OnOk result (ValuesFit points.now) }
{
    if threads < 2 {
        return points_by(alloc, points);
    }
    let half = threads / 2;
    let rest = threads - half;
    let (low, high) = points.split_at(points.len() / threads * half);
    let front = move || -> Result<Parts, AllocError>
        requires { IsSync R.row }
        ensures { IfOk result (λ p. p ≡ flat_map point low.entry.now) × OnOk result (ValuesFit low.entry.now) }
    { points_in(rt, alloc, low, half) };
    let back = move || -> Result<Parts, AllocError>
        requires { IsSync R.row }
        ensures { IfOk result (λ p. p ≡ flat_map point high.entry.now) × OnOk result (ValuesFit high.entry.now) }
    { points_in(rt, alloc, high, rest) };
    let (first, second) = join(rt, front, back);
    let mut all = first?;
    all.append(second?)?;
    Ok(all)
}

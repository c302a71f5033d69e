//! The aggregate of a window that moves forward over points.
ghost use Rattle.std.specs.Prelude.{◌≡◌, ◌+◌, ◌≤◌, length, slice_range, IfOk, OnOk};
ghost use Rattle.btr_base.specs.Agg.{agg};
ghost use Rattle.btr_kernel.specs.Parts.{IsSliding, AreLasts};

use btr_base::{Agg, Point};
use std::alloc::{AllocError, Global};

/// The aggregates from which that of a window is joined: of the points just before an index, and of those from there on.
///
/// If both ends of the window move forward, each point is joined at most twice: once at the window's end, and once more when
/// its begin comes to the index.
#[derive(Drop)]
pub(crate) struct Sliding {
    /// The index that divides the points.
    pub(crate) mid: usize,

    /// The end of the points that are joined.
    pub(crate) end: usize,

    /// The aggregates of the last point before `mid`, of the last two, and so on.
    pub(crate) lasts: Vec<Agg>,

    /// The aggregate of the points from `mid` to `end`.
    pub(crate) back: Agg,
}

impl Sliding {
    /// The aggregates of no points. It takes no memory.
    pub(crate) fn new(alloc: Global) -> Sliding
        ensures { (b : _) → IsSliding b result }
    {
        Sliding {
            mid: 0,
            end: 0,
            lasts: Vec::new(alloc),
            back: Agg::none(),
        }
    }

    /// The aggregate of the points from one index up to, and without, another. It takes constant time on average if both only
    /// rise from call to call. An `Err` means out of memory.
    pub(crate) fn total(
        &mut self,
        points: &[Point],
        from: usize,
        to: usize,
    ) -> Result<Agg, AllocError>
        requires order { from ≤ to }
        requires within { to ≤ length points.now }
        requires sliding { IsSliding points.now self.old }
        ensures total { IfOk result (λ a. a ≡ agg (slice_range points.now from to)) }
        ensures sliding { OnOk result (IsSliding points.now self.new) }
    {
        self.move_to(points, from, to)?;
        Ok(self.joined_from(points, from))
    }

    /// Moves to a window: it joins the points at its end, or begins anew where the window has left the index behind.
    fn move_to(&mut self, points: &[Point], from: usize, to: usize) -> Result<(), AllocError>
        requires order { from ≤ to }
        requires within { to ≤ length points.now }
        requires sliding { IsSliding points.now self.old }
        ensures sliding { OnOk result (IsSliding points.now self.new) }
        ensures end { OnOk result (self.new.end ≡ to) }
        ensures reached { OnOk result (from ≤ self.new.mid) }
        ensures kept { OnOk result (self.new.mid ≤ from + length self.new.lasts.items) }
    {
        if self.end <= to && from <= self.mid && self.mid - from <= self.lasts.len() {
            self.back = extended(points, self.mid, self.end, to, self.back);
            self.end = to;
            return Ok(());
        }
        fill_lasts(&mut self.lasts, points, from, to)?;
        self.mid = to;
        self.end = to;
        self.back = Agg::none();
        Ok(())
    }

    /// The aggregate of the points from an index to the end.
    fn joined_from(&self, points: &[Point], from: usize) -> Agg
        requires sliding { IsSliding points.now self.now }
        requires reached { from ≤ self.now.mid }
        requires kept { self.now.mid ≤ from + length self.now.lasts.items }
        ensures { result ≡ agg (slice_range points.now from self.now.end) }
    {
        // the proof reads here that the points are fewer than 2^64
        prove!(points.len() <= usize::MAX);
        if from == self.mid {
            return self.back;
        }
        self.lasts[self.mid - from - 1].join(&self.back)
    }
}

/// The aggregate of the points from `mid` to `to`, from that of the points from `mid` to `end`.
fn extended(points: &[Point], mid: usize, end: usize, to: usize, back: Agg) -> Agg
    requires order { mid ≤ end }
    requires ahead { end ≤ to }
    requires within { to ≤ length points.now }
    requires back { back ≡ agg (slice_range points.now mid end) }
    ensures { result ≡ agg (slice_range points.now mid to) }
{
    let mut all = back;
    for i in end..to {
        all = all.join(&Agg::of(points[i].value));
    }
    all
}

/// Fills a list with the aggregates of the last point before `to`, of the last two, and so on up to those from `from` on.
fn fill_lasts(
    lasts: &mut Vec<Agg>,
    points: &[Point],
    from: usize,
    to: usize,
) -> Result<(), AllocError>
    requires order { from ≤ to }
    requires within { to ≤ length points.now }
    ensures lasts { OnOk result (AreLasts to points.now lasts.new.items) }
    ensures count { OnOk result (from + length lasts.new.items ≡ to) }
{
    lasts.clear();
    let mut all = Agg::none();
    let mut place = to;
    while place > from {
        place -= 1;
        all = Agg::of(points[place].value).join(&all);
        lasts.push(all)?;
    }
    Ok(())
}

//! Points and aggregates of windows, added to the list of windows so far.
ghost use Rattle.std.specs.Prelude.{◌≡◌, ℤ, ◌+◌, ◌<◌, ◌^◌, ◌≤ℤ◌, ◌<ℤ◌, ◌++◌, ◌∷◌, [], length, true, false, OnOk, IfSome};
ghost use Rattle.std.specs.List.{AllByRecursion};
ghost use Rattle.btr_base.specs.Windows.{IsGrid, begin_of};
ghost use Rattle.btr_tree.specs.Change.{end_of};
ghost use Rattle.btr_window.specs.Accumulate.{add_part as with_part, add_points as with_points, counted, IsStart, AreStarts};

use btr_base::{Agg, Cell, Grid, Point, Span};
use std::alloc::AllocError;

/// Adds points, which are not before the first window of the grid, to the windows.
pub(crate) fn add_points(
    cells: &mut Vec<Cell>,
    grid: Grid,
    points: &[Point],
) -> Result<(), AllocError>
    requires grid { IsGrid grid.first grid.width }
    requires times { AllByRecursion (λ p. grid.first ≤ℤ p.time) points.now }
    requires starts { AreStarts grid cells.old.items }
    requires room { counted cells.old.items + length points.now < 2 ^ 64 }
    ensures cells { OnOk result (cells.new.items ≡ with_points grid.first grid.width cells.old.items points.now) }
    ensures starts { OnOk result (AreStarts grid cells.new.items) }
{
    for point in points {
        let start = start_of(cells, grid, point.time);
        add_part(cells, start, &Agg::of(point.value))?;
    }
    Ok(())
}

/// Adds points of the window that starts at a time: they join the last window if it is the same, or else follow it.
pub(crate) fn add_part(cells: &mut Vec<Cell>, start: i64, agg: &Agg) -> Result<(), AllocError>
    requires room { counted cells.old.items + agg.now.count < 2 ^ 64 }
    ensures { OnOk result (cells.new.items ≡ with_part cells.old.items start agg.now) }
{
    if joins_last(cells, start, agg) {
        return Ok(());
    }
    cells.push(Cell { start, agg: *agg })?;
    Ok(())
}

/// Whether the last window starts at the time. If it does, the points join it.
fn joins_last(cells: &mut Vec<Cell>, start: i64, agg: &Agg) -> bool
    requires room { counted cells.old.items + agg.now.count < 2 ^ 64 }
    ensures joined { result ≡ true → cells.new.items ≡ with_part cells.old.items start agg.now }
    ensures left { result ≡ false → cells.new.items ≡ cells.old.items }
    ensures apart { result ≡ false
        → with_part cells.old.items start agg.now ≡ cells.old.items ++ record { start = start; agg = agg.now } ∷ [] }
{
    if let Some(last) = cells.last_mut() {
        if last.start == start {
            last.agg = last.agg.join(agg);
            return true;
        }
    }
    false
}

/// Returns the start of the window that contains all times of the span, or `None` if there is no such window.
pub(crate) fn start_around(cells: &[Cell], grid: Grid, span: Span) -> Option<i64>
    requires grid { IsGrid grid.first grid.width }
    requires time { grid.first ≤ℤ span.start }
    requires starts { AreStarts grid cells.now }
    ensures { IfSome result (λ s. (t : ℤ) → span.start ≤ℤ t → t <ℤ end_of span → begin_of grid.first grid.width t ≡ s) }
{
    let start = start_of(cells, grid, span.start);
    if span.end().abs_diff(start) > grid.width {
        return None;
    }
    Some(start)
}

/// Returns the start of the window that contains the time.
fn start_of(cells: &[Cell], grid: Grid, time: i64) -> i64
    requires grid { IsGrid grid.first grid.width }
    requires time { grid.first ≤ℤ time }
    requires starts { AreStarts grid cells.now }
    ensures { result ≡ begin_of grid.first grid.width time }
{
    match cells.last() {
        None => grid.begin_of(time),
        Some(last) => start_from(last.start, grid, time),
    }
}

/// Returns the start of the window that contains the time, from the start of the last window. It divides only if that
/// is neither the same window nor the next one.
fn start_from(last: i64, grid: Grid, time: i64) -> i64
    requires grid { IsGrid grid.first grid.width }
    requires time { grid.first ≤ℤ time }
    requires start { IsStart grid last }
    ensures { result ≡ begin_of grid.first grid.width time }
{
    let offset = time.abs_diff(last);
    if time < last {
        return grid.begin_of(time);
    }
    if offset < grid.width {
        return last;
    }
    if offset - grid.width < grid.width {
        return last + grid.width as i64;
    }
    grid.begin_of(time)
}

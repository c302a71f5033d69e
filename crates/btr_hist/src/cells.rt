//! Windows of time, each with the aggregate of its points.
ghost use Rattle.std.specs.Prelude.{◌≡◌, ◌≤ℤ◌, true, IfOk};
ghost use Rattle.btr_base.specs.declared.limits.TheConstants.{END};
ghost use Rattle.btr_base.specs.Bag.{IsInOrder};
ghost use Rattle.btr_base.specs.Windows.{IsGrid, IsWindow, cell_of, cells, aligned, windows};
ghost use Rattle.btr_hist.specs.Answer.{is_range, is_power, is_width};

use btr_base::{Agg, Cell, Grid, Point, points_between};
use std::alloc::{AllocError, Global};

/// The aligned windows of `2^p` ns that meet the range and contain a point. It goes through the points of each window.
pub(crate) fn aligned_cells(
    alloc: Global,
    points: &[Point],
    from: i64,
    to: i64,
    p: u8,
) -> Result<Vec<Cell>, AllocError>
    requires order { IsInOrder points.now }
    requires range { is_range from to ≡ true }
    requires power { is_power p ≡ true }
    ensures { IfOk result (λ v. v.items ≡ aligned p from to points.now) }
{
    let grid = Grid::aligned(p);
    let begin = grid.begin_of(from);
    let end = grid.end_of(grid.number_of(to - 1));
    cells_between(alloc, points, grid, begin, end)
}

/// The windows of this width from the start of the range on that end at or before its end and contain a point. It goes through
/// the points of each window.
pub(crate) fn whole_cells(
    alloc: Global,
    points: &[Point],
    from: i64,
    to: i64,
    width: u64,
) -> Result<Vec<Cell>, AllocError>
    requires order { IsInOrder points.now }
    requires range { is_range from to ≡ true }
    requires width { is_width width ≡ true }
    ensures { IfOk result (λ v. v.items ≡ windows width from to points.now) }
{
    let grid = Grid { first: from, width };
    let end = grid.begin_of(to);
    cells_between(alloc, points, grid, from, end)
}

/// The windows that contain one of the points from a time up to, and without, another.
fn cells_between(
    alloc: Global,
    points: &[Point],
    grid: Grid,
    from: i64,
    to: i64,
) -> Result<Vec<Cell>, AllocError>
    requires order { IsInOrder points.now }
    requires grid { IsGrid grid.first grid.width }
    requires from { grid.first ≤ℤ from }
    requires to { to ≤ℤ END }
    ensures { IfOk result (λ v. v.items ≡ cells grid.first grid.width from to points.now) }
{
    let mut cells = Vec::new(alloc);
    let mut last = None;
    for point in points_between(points, from, to) {
        let number = grid.number_of(point.time);
        if last != Some(number) {
            cells.push(cell_of(points, grid, number))?;
            last = Some(number);
        }
    }
    Ok(cells)
}

/// The window of a number, with the aggregate of all points in it.
fn cell_of(points: &[Point], grid: Grid, number: u64) -> Cell
    requires order { IsInOrder points.now }
    requires window { IsWindow grid.first grid.width number }
    ensures { result ≡ cell_of grid.first grid.width points.now number }
{
    let start = grid.start_of(number);
    let end = grid.end_of(number);
    Cell {
        start,
        agg: Agg::of_points(points_between(points, start, end)),
    }
}

//! The points of a kernel of aligned windows.
ghost use Rattle.std.specs.Prelude.{◌≡◌, ◌≤◌, ◌++◌, IfOk, OnOk};
ghost use Rattle.std.specs.List.{filter, filter_map};
ghost use Rattle.btr_base.specs.Bag.{within};
ghost use Rattle.btr_base.specs.Range.{covered};
ghost use Rattle.btr_tree.specs.History.{bag};
ghost use Rattle.btr_tree.specs.Root.{AtEachTree};
ghost use Rattle.btr_hist.specs.Distil.{cell_points};
ghost use Rattle.btr_cell.specs.Cells.{cell_point};

use btr_base::{Cell, Point, Range, Ranges};
use btr_cell::value;
use btr_tree::Tree;
use btr_window::aligned;
use std::alloc::{AllocError, Global};

/// The points of a kernel of aligned windows of `2^p` ns at the times of the ranges, from the tree of its input: at the start of
/// each window with a point the value that `which` names, if there is one. A window that begins in a range counts whole, also if it
/// ends after the range.
///
/// It costs the windows, and of the tree the nodes in which a window starts or ends. An `Err` means out of memory.
pub(crate) fn cells_over(
    alloc: Global,
    which: u8,
    p: u8,
    tree: &Tree,
    ranges: &Ranges,
) -> Result<Vec<Point>, AllocError>
    requires which { (1 ≤ which) × (which ≤ 5) }
    requires width { p ≤ 62 }
    ensures { IfOk result (λ v. AtEachTree tree.now (λ h.
        v.items ≡ filter (λ q. covered ranges.now q.time) (cell_points (record { which = which; p = p }) (bag h)))) }
{
    let mut points = Vec::new(alloc);
    for range in ranges.as_slice() {
        add_range(alloc, which, p, tree, *range, &mut points)?;
    }
    Ok(points)
}

/// Adds the points at the times of one range. An `Err` means out of memory.
fn add_range(
    alloc: Global,
    which: u8,
    p: u8,
    tree: &Tree,
    range: Range,
    points: &mut Vec<Point>,
) -> Result<(), AllocError>
    requires which { (1 ≤ which) × (which ≤ 5) }
    requires width { p ≤ 62 }
    ensures { OnOk result (AtEachTree tree.now (λ h.
        points.new.items ≡ points.old.items ++ within range.from range.to (cell_points (record { which = which; p = p }) (bag h)))) }
{
    let cells = aligned(alloc, tree, range, p)?;
    add_cells(&cells, which, range.from, points)
}

/// Adds the points of the windows that do not begin before a time. An `Err` means out of memory.
fn add_cells(
    cells: &[Cell],
    which: u8,
    from: i64,
    points: &mut Vec<Point>,
) -> Result<(), AllocError>
    requires { (1 ≤ which) × (which ≤ 5) }
    ensures { OnOk result (points.new.items ≡ points.old.items ++ filter_map (cell_point which from) cells.now) }
{
    for cell in cells {
        match point_of(cell, which, from) {
            Some(point) => points.push(point)?,
            None => {}
        }
    }
    Ok(())
}

/// The point at the start of a window, if that is not before a time and the window has a value.
fn point_of(cell: &Cell, which: u8, from: i64) -> Option<Point>
    requires { (1 ≤ which) × (which ≤ 5) }
    ensures { result ≡ cell_point which from cell.now }
{
    if cell.start < from {
        return None;
    }
    let number = value(which, &cell.agg)?;
    Some(Point {
        time: cell.start,
        value: number,
    })
}

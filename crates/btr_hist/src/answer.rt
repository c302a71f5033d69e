ghost use Rattle.std.specs.Prelude.{◌≡◌, List};

use crate::kernel::Reads;
use btr_base::{Agg, Cell, Point, Ranges};
use std::marker::Model;

/// The points of an answer, as a list.
#[derive(Drop)]
pub struct PointList {
    points: Vec<Point>,
}

impl Model for PointList {
    ghost use Rattle.std.specs.Prelude.{List};
    ghost use Rattle.btr_base.specs.declared.point.Point.{Point};

    ghost Value = { List Point };

    ghost view = { λ l. l.points.items };
}

impl PointList {
    /// The list of these points. It takes no memory.
    pub fn from_points(points: Vec<Point>) -> PointList
        ensures { result ≡ points.items }
    {
        PointList { points }
    }

    /// The points. It takes no memory.
    pub fn into_points(self) -> Vec<Point>
        ensures { result.items ≡ self }
    {
        let PointList { points } = self;
        points
    }

    /// The points, in order.
    pub fn as_slice(&self) -> &[Point]
        ensures { result.now ≡ self.now }
    {
        self.points.as_slice()
    }
}

/// The windows of an answer, as a list.
#[derive(Drop)]
pub struct CellList {
    cells: Vec<Cell>,
}

impl Model for CellList {
    ghost use Rattle.std.specs.Prelude.{List};
    ghost use Rattle.btr_base.specs.declared.cell.Cell.{Cell};

    ghost Value = { List Cell };

    ghost view = { λ l. l.cells.items };
}

impl CellList {
    /// The list of these windows. It takes no memory.
    pub fn from_cells(cells: Vec<Cell>) -> CellList
        ensures { result ≡ cells.items }
    {
        CellList { cells }
    }

    /// The windows, in order.
    pub fn as_slice(&self) -> &[Cell]
        ensures { result.now ≡ self.now }
    {
        self.cells.as_slice()
    }
}

/// A stream in the list of all streams.
#[derive(Clone, Copy, PartialEq)]
pub struct StreamRow {
    pub id: u128,

    /// The latest version: the number of its commits.
    pub latest: u64,

    /// Whether it is an output, which is computed from other streams.
    pub output: bool,
}

/// The streams of an answer, as a list.
#[derive(Drop)]
pub struct StreamList {
    rows: Vec<StreamRow>,
}

impl Model for StreamList {
    ghost use Rattle.std.specs.Prelude.{List};
    ghost use Rattle.btr_hist.specs.declared.answer.StreamRow.{StreamRow};

    ghost Value = { List StreamRow };

    ghost view = { λ l. l.rows.items };
}

impl StreamList {
    /// The list of these streams. It takes no memory.
    pub fn from_rows(rows: Vec<StreamRow>) -> StreamList
        ensures { result ≡ rows.items }
    {
        StreamList { rows }
    }

    /// The streams, in order.
    pub fn as_slice(&self) -> &[StreamRow]
        ensures { result.now ≡ self.now }
    {
        self.rows.as_slice()
    }
}

/// The rows of an answer.
#[derive(Drop)]
pub enum Rows {
    /// Points by time and value; at most one for the nearest point.
    Points(PointList),

    /// Windows in order, each with at least one point.
    Cells(CellList),

    /// Changed ranges in order.
    Ranges(Ranges),

    /// Whether the stream is an output, the aggregate of all points, and the versions of the inputs that the version was
    /// computed from. A plain stream, and version 0, have none.
    Info {
        output: bool,
        agg: Agg,
        reads: Option<Reads>,
    },

    /// Streams in order of creation.
    Streams(StreamList),
}

/// The reason why a question has no answer. If there are several, the first in this order.
#[derive(Clone, Copy, PartialEq)]
pub enum Refusal {
    /// The number is not that of a stream.
    NoStream,

    /// The stream has no such version yet: the version that was asked for, and the latest.
    NoVersion { asked: u64, latest: u64 },

    /// The version is retired: the version that was asked for (the lesser of two), and the first one that is not retired.
    Retired { asked: u64, first: u64 },

    /// The range is empty, or a bound lies outside the domain; or windows or slots of this width cannot be asked for; or the
    /// first of two versions is later than the second.
    BadRange,
}

/// The answer to a question.
#[derive(Drop)]
pub enum Answer {
    /// The version that was asked for (the second of two; for all streams the number of entries), and the rows.
    Found { version: u64, rows: Rows },

    Refused(Refusal),
}

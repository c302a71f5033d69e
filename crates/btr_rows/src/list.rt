ghost use Rattle.std.specs.Prelude.{◌≡◌, [], ◌∷◌, OnOk, OnErr, IfOk};

use crate::row::{NumberedPoint, RefusedRow};
use std::alloc::{AllocError, Global};
use std::marker::Model;

/// The rows of one stream: its id, and the points with the numbers of their rows, in order.
#[derive(Drop)]
pub struct StreamRows {
    id: u128,
    points: Vec<NumberedPoint>,
}

impl Model for StreamRows {
    ghost use Rattle.btr_rows.specs.Streams.{StreamValue};

    ghost Value = { StreamValue };

    ghost view = { λ s. record { id = s.id; points = s.points.items } };
}

impl StreamRows {
    ghost use Rattle.btr_rows.specs.Streams.{with_point};

    /// Makes a stream with one point. An `Err` means out of memory.
    pub(crate) fn begin(
        alloc: Global,
        id: u128,
        point: NumberedPoint,
    ) -> Result<StreamRows, AllocError>
        ensures { IfOk result (λ s. s ≡ record { id = id; points = point ∷ [] }) }
    {
        let mut points = Vec::new(alloc);
        points.push(point)?;
        Ok(StreamRows { id, points })
    }

    /// Adds a point after the others. An `Err` means out of memory, and leaves the stream as it was.
    pub(crate) fn push(&mut self, point: NumberedPoint) -> Result<(), AllocError>
        ensures ok { OnOk result (self.new ≡ with_point self.old point) }
        ensures id { self.new.id ≡ self.old.id }
        ensures err { OnErr result (self.new ≡ self.old) }
    {
        self.points.push(point)?;
        Ok(())
    }

    /// Returns the id of the stream (RFC 9562), its first byte highest.
    pub fn id(&self) -> u128
        ensures { result ≡ self.now.id }
    {
        self.id
    }

    /// Returns the points, in the order of their rows.
    pub fn points(&self) -> &[NumberedPoint]
        ensures { result.now ≡ self.now.points }
    {
        self.points.as_slice()
    }
}

/// What the rows of an input say: the rows by their streams, and the refused rows.
#[derive(Drop)]
pub struct RowList {
    streams: Vec<StreamRows>,
    refused: Vec<RefusedRow>,
}

impl Model for RowList {
    ghost use Rattle.btr_rows.specs.Streams.{RowListValue};

    ghost Value = { RowListValue };

    ghost view = { λ l. record { streams = l.streams.items; refused = l.refused.items } };
}

impl RowList {
    /// Makes a list of these streams and refused rows. It takes no memory.
    pub(crate) fn from_parts(streams: Vec<StreamRows>, refused: Vec<RefusedRow>) -> RowList
        ensures { result ≡ record { streams = streams.items; refused = refused.items } }
    {
        RowList { streams, refused }
    }

    /// Returns the streams, in the order of their first rows.
    pub fn streams(&self) -> &[StreamRows]
        ensures { result.now ≡ self.now.streams }
    {
        self.streams.as_slice()
    }

    /// Returns the refused rows, in the order of their numbers.
    pub fn refused(&self) -> &[RefusedRow]
        ensures { result.now ≡ self.now.refused }
    {
        self.refused.as_slice()
    }

    /// Returns the streams and the refused rows as lists. It takes no memory.
    pub fn into_parts(self) -> (Vec<StreamRows>, Vec<RefusedRow>)
        ensures streams { result.0.items ≡ self.streams }
        ensures refused { result.1.items ≡ self.refused }
    {
        let RowList { streams, refused } = self;
        (streams, refused)
    }
}

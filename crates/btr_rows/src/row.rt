use btr_base::Point;

/// What a row of a CSV input says: one point of one stream.
#[derive(Clone, Copy, PartialEq, Eq)]
pub struct Row {
    /// The id of the stream (RFC 9562), its first byte highest.
    pub id: u128,

    /// The point: a time of the domain, in nanoseconds, and a value.
    pub point: Point,
}

/// Why a record is no row. Of several reasons, the first in this order counts.
#[derive(Clone, Copy, PartialEq, Eq)]
pub enum RowReason {
    /// It has not three fields.
    Fields,

    /// The first field is not the text of a UUID (RFC 9562).
    Id,

    /// The second field is not a whole number within `i64`.
    Time,

    /// The third field is not a whole number within `i64`.
    Value,

    /// The time, in nanoseconds, lies outside the domain.
    Domain { time: i64 },
}

/// A point of a row, with the number of the row.
#[derive(Clone, Copy, PartialEq, Eq)]
pub struct NumberedPoint {
    /// The number of the row: records count from 1.
    pub number: u64,

    pub point: Point,
}

/// A record that is no row.
#[derive(Clone, Copy, PartialEq, Eq)]
pub struct RefusedRow {
    /// The number of the row: records count from 1.
    pub number: u64,

    pub reason: RowReason,
}

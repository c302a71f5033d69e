//! Rows of points as CSV text: what `load` reads, and what `sample` writes.
//!
//! [`read_rows`] reads the records of an input, by the library `csv`'s definition of a record, and puts the points of each stream into
//! a list of their own. `specs/Row.antt` says what one record is, `specs/Rows.antt` and `specs/Streams.antt` what the list is.
//! [`sample_csv`] writes the rows of a generator of numbers, as `specs/Sample.antt` says.
//!
//! A record of three fields without quotes is read from the bytes as they are (`plain.rt`). From the first other record on, the
//! reader of `csv` reads (`quoted.rt`).
#![tactic(auto)]

mod row;
// what one record says
mod field;
mod ids;
mod record;
// what all records say, by streams
mod builder;
mod list;
mod streams;
// the records of an input
mod plain;
mod quoted;
mod read;
// what is written
mod sample;
// the bytes that mark the parts of a row
mod laws;

pub use laws::row_marks_are_these;
pub use list::{RowList, StreamRows};
pub use read::read_rows;
pub use row::{NumberedPoint, RefusedRow, Row, RowReason};
pub use sample::sample_csv;

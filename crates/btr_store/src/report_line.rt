use btr_base::Agg;
use btr_hist::Reads;
use btr_rows::RowReason;
use btr_text::Reason;

/// Why one row of the input is refused.
#[derive(Clone, Copy, PartialEq, Eq)]
pub enum RowRefusal {
    /// The record is no row.
    Row(RowReason),

    /// Its stream is an output, which takes no points of users.
    Output,
}

/// A line of a report. Rows and entries count from 1, and an id is that of a stream (RFC 9562), its first byte highest.
#[derive(Clone, Copy, PartialEq, Eq)]
pub enum ReportLine {
    /// `row NUMBER: no REASON`: the row was refused.
    RowRefused {
        number: u64,
        reason: RowRefusal,
    },

    /// `ID rows FIRST LAST: no REASON`: a batch was refused. These are the numbers of its first and its last row.
    BatchRefused {
        id: u128,
        first: u64,
        last: u64,
        reason: Reason,
    },

    /// `ID VERSION POINTS`: the stream's latest version, and the points that this run put into it.
    StreamLoaded {
        id: u128,
        version: u64,
        points: u64,
    },

    /// `loaded GOOD refused REFUSED`: the rows that were put into the store, and those that were not.
    Loaded {
        good: u64,
        refused: u64,
    },

    /// `ID VERSION READ [READ]`: the output is up to date. This is its version, and the versions of its inputs that it was computed
    /// from.
    OutputCurrent {
        id: u128,
        version: u64,
        reads: Reads,
    },

    /// `ID no REASON`: the output could not be defined or brought up to date.
    OutputRefused {
        id: u128,
        reason: Reason,
    },

    /// `materialize ID no REASON`: the last round could not bring this output up to date.
    RoundRefused {
        id: u128,
        reason: Reason,
    },

    /// `no used ENTRIES`: the store is not empty. This is the number of its entries.
    Used {
        entries: u64,
    },

    /// `ID VERSION COUNT SUM [LEAST GREATEST]`: a version of a stream, and the aggregate of its points, in the unit of the stream. The
    /// least and the greatest value stand there if there is a point.
    StreamSummary {
        id: u128,
        version: u64,
        agg: Agg,
    },
}

//! The status that lines and replies ask for.
ghost use Rattle.std.specs.Prelude.{◌≡◌};
ghost use Rattle.btr_store.specs.Status.{code_of, greater, status_rank, status_of_reason, status_of_line};

use crate::report_line::ReportLine;
use btr_text::Reason;

/// The status of lines, from the least to the greatest. The status of many lines is the greatest of theirs.
#[derive(Clone, Copy, PartialEq, Eq)]
pub enum Status {
    /// All was done that the line speaks of.
    Done,

    /// Something was refused for a reason that no other status has.
    Refused,

    /// The device has too few blocks left for an entry.
    Full,

    /// A block of the device is damaged.
    Damaged,

    /// There was no memory.
    OutOfMemory,

    /// A call of the device failed.
    DeviceFault,
}

impl Status {
    /// Returns the status that a refusal for this reason asks for.
    pub fn of_reason(reason: Reason) -> Status
        ensures { result ≡ status_of_reason reason }
    {
        match reason {
            Reason::Device => Status::DeviceFault,
            Reason::Memory => Status::OutOfMemory,
            Reason::Damaged { .. } => Status::Damaged,
            Reason::Full { .. } => Status::Full,
            _ => Status::Refused,
        }
    }

    /// Returns the status that a line asks for.
    pub(crate) fn of_line(line: &ReportLine) -> Status
        ensures { result ≡ status_of_line line.now }
    {
        match line {
            ReportLine::RowRefused { .. } | ReportLine::Used { .. } => Status::Refused,
            ReportLine::BatchRefused { reason, .. }
            | ReportLine::OutputRefused { reason, .. }
            | ReportLine::RoundRefused { reason, .. } => Status::of_reason(*reason),
            ReportLine::StreamLoaded { .. }
            | ReportLine::Loaded { .. }
            | ReportLine::OutputCurrent { .. }
            | ReportLine::StreamSummary { .. } => Status::Done,
        }
    }

    /// Returns the place of a status in the order, from 0 on.
    fn rank(self) -> u8
        ensures { result ≡ status_rank self }
    {
        match self {
            Status::Done => 0,
            Status::Refused => 1,
            Status::Full => 2,
            Status::Damaged => 3,
            Status::OutOfMemory => 4,
            Status::DeviceFault => 5,
        }
    }

    /// Returns the greater of two statuses.
    pub fn greater(self, other: Status) -> Status
        ensures { result ≡ greater self other }
    {
        if self.rank() < other.rank() {
            other
        } else {
            self
        }
    }

    /// Returns the number with which the program ends.
    pub fn code(self) -> u8
        ensures { result ≡ code_of self }
    {
        match self {
            Status::Done => 0,
            Status::Refused => 1,
            Status::Full => 8,
            Status::Damaged => 7,
            Status::OutOfMemory => 9,
            Status::DeviceFault => 5,
        }
    }
}

ghost use Rattle.std.specs.Prelude.{◌≡◌};
ghost use Rattle.btr_text.specs.Reasons.{reason_of_rejection, reason_of_refusal};

use btr_hist::{Refusal, Rejection, Rows};

/// The reason why a line is refused.
#[derive(Clone, Copy, PartialEq, Eq)]
pub enum Reason {
    /// The line fits no form.
    Line,

    /// The stream that the line names does not exist.
    Stream,

    /// The range is empty, or a bound is outside the domain. Of a question also: the width is not allowed, or the first of
    /// two versions is after the second.
    Range,

    /// The stream has no such version yet.
    Version {
        asked: u64,
        latest: u64,
    },

    /// The version is retired: it is before this first one of the stream that can be asked.
    Retired {
        asked: u64,
        first: u64,
    },

    /// A stream with this id exists.
    Exists,

    /// The stream is an output, which takes no commits of users.
    Output,

    /// The stream is no output, so it cannot be brought up to date.
    Plain,

    /// A point is outside the domain. This is the least such time, in nanoseconds.
    Domain {
        time: i64,
    },

    /// There is nothing to commit.
    Empty,

    /// There are too many points or ranges. This is the greater of the two numbers.
    Many {
        count: u64,
    },

    /// The store has as many streams as it may have.
    Streams,

    /// The stream has as many versions as it may have.
    Versions,

    /// An output cannot have this spec.
    Spec,

    /// The versions before this first one cannot be retired: they are retired already, or the stream has no such version yet. The stream's
    /// first version that can be asked, and its latest.
    First {
        first: u64,
        present: u64,
        latest: u64,
    },

    /// A version that would be retired is the one that an output has read last. The id of the output, and the version.
    Held {
        id: u128,
        version: u64,
    },

    /// A bottom span would hold too many points. This is the start of the first such span, in nanoseconds.
    Crowded {
        start: i64,
    },

    /// The version would hold too many points. This is their number.
    Points {
        count: u64,
    },

    /// The program is out of memory.
    Memory,

    /// The device is full. These are the blocks of 4096 bytes that the entry needs, and the blocks that are left.
    Full {
        need: u64,
        left: u64,
    },

    /// The device failed.
    Device,

    /// This block of the device is damaged, and the answer needs its node.
    Damaged {
        block: u64,
    },

    /// The store takes no more commits, since the device failed after this number of entries.
    Stopped {
        entries: u64,
    },

    /// The store is sealed, so it takes no more commits.
    Sealed,

    /// The output has been brought up to date by another commit since, and this is its version now.
    Superseded {
        version: u64,
    },

    /// The stream has no shared buffer: it did not stand when the run began.
    Group,

    /// Another batch of the shared buffer is being committed.
    Busy,

    /// The shared buffer gives no more tickets.
    Spent,
}

impl Reason {
    /// Returns the reason of a line whose entry was rejected. If the rejection names an output, `id` is its id; else it is not looked at.
    pub fn of_rejection(rejection: Rejection, id: u128) -> Reason
        ensures { result ≡ reason_of_rejection id rejection }
    {
        match rejection {
            Rejection::NoStream => Reason::Stream,
            Rejection::StreamExists => Reason::Exists,
            Rejection::NotWritable => Reason::Output,
            Rejection::OutOfDomain { time } => Reason::Domain { time },
            Rejection::Empty => Reason::Empty,
            Rejection::TooMany { count } => Reason::Many { count },
            Rejection::StreamLimit => Reason::Streams,
            Rejection::VersionLimit => Reason::Versions,
            Rejection::BadSpec => Reason::Spec,
            Rejection::BadFirst {
                first,
                present,
                latest,
            } => Reason::First {
                first,
                present,
                latest,
            },
            Rejection::Held { version, .. } => Reason::Held { id, version },
            Rejection::Crowded { start } => Reason::Crowded { start },
            Rejection::TooManyPoints { count } => Reason::Points { count },
        }
    }

    /// Returns the reason of a line whose question was refused.
    pub fn of_refusal(refusal: Refusal) -> Reason
        ensures { result ≡ reason_of_refusal refusal }
    {
        match refusal {
            Refusal::NoStream => Reason::Stream,
            Refusal::NoVersion { asked, latest } => Reason::Version { asked, latest },
            Refusal::Retired { asked, first } => Reason::Retired { asked, first },
            Refusal::BadRange => Reason::Range,
        }
    }
}

/// The reply to a line.
#[derive(Drop)]
pub enum LineReply {
    /// The line was done. This is the version that it made, 0 for a new stream.
    Done { version: u64 },

    /// The points of a feed wait. This is their number.
    Held { count: u32 },

    /// The points wait in a shared buffer, and this is their ticket there. Tickets count from 0.
    Ticket { ticket: u64 },

    /// The answer to a question: the version and the rows. Of two versions it is the second, of `streams` the number of
    /// entries.
    Found { version: u64, rows: Rows },

    /// The line was refused.
    No(Reason),
}

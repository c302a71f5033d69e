/// The reason why an entry may not follow a history. If there are several, the first in this order.
#[derive(Clone, Copy, PartialEq, Eq)]
pub enum Rejection {
    /// The number of the stream, or of an input, is not that of a stream.
    NoStream,

    /// A stream with this id exists.
    StreamExists,

    /// The stream does not take the entry: a user's commit on an output, or a distillate on a plain stream or with reads that
    /// may not follow.
    NotWritable,

    /// An added point lies outside the domain: the least such time, in nanoseconds.
    OutOfDomain {
        time: i64,
    },

    /// There are no ranges to cut and no points to add.
    Empty,

    /// There are too many points or ranges: the greater of their numbers.
    TooMany {
        count: u64,
    },

    /// There are as many streams as a store can have.
    StreamLimit,

    /// The stream has as many versions as a stream can have.
    VersionLimit,

    /// The spec of an output has the wrong number of inputs for its kernel, or its divisor, lead or grain is out of range.
    BadSpec,

    /// The first version to be left is not after the one that is the first now, or the stream does not have it yet: the first to be
    /// left, the one now (0 if none is retired), and the latest.
    BadFirst {
        first: u64,
        present: u64,
        latest: u64,
    },

    /// An output that has the stream as an input was computed last from a version of it that would be retired: the output of the
    /// least number, and the version.
    Held {
        output: u32,
        version: u64,
    },

    /// A bottom span would hold too many points: the start of the first such span, in nanoseconds.
    Crowded {
        start: i64,
    },

    /// The version would hold too many points: their number.
    TooManyPoints {
        count: u64,
    },
}

ghost use Rattle.std.specs.Prelude.{◌≡◌};
ghost use Rattle.btr_hist.specs.Query.{of_stream};

use btr_base::Toward;

/// The version of a stream that a question is about.
#[derive(Clone, Copy, PartialEq)]
pub enum At {
    /// The version after this many commits of the stream. Version 0 is empty.
    Number(u64),

    /// The version after all commits of the stream.
    Latest,
}

/// The version of a stream, by its number, that a question is about.
#[derive(Clone, Copy)]
pub struct VersionAsked {
    pub stream: u32,
    pub at: At,
}

/// A question about a stream, by its number, or about all streams.
#[derive(Clone, Copy, PartialEq)]
pub enum Query {
    /// The points with `from <= time < to`, in nanoseconds (BTrDB's GetRange).
    Points {
        stream: u32,
        from: i64,
        to: i64,
        at: At,
    },

    /// The point nearest to a time in one direction (BTrDB's GetNearestValue).
    Nearest {
        stream: u32,
        time: i64,
        toward: Toward,
        at: At,
    },

    /// The aligned windows of `2^p` ns, from the first time of the domain on, that meet `from <= time < to` and contain a point.
    /// Each is whole (BTrDB's GetStatisticalRange). `p` is 0 to 62.
    Aligned {
        stream: u32,
        from: i64,
        to: i64,
        p: u8,
        at: At,
    },

    /// The windows of a width in nanoseconds, 1 to 2^62, from `from` on, that end at or before `to` and contain a point.
    Windows {
        stream: u32,
        from: i64,
        to: i64,
        width: u64,
        at: At,
    },

    /// The longest runs of aligned slots of `2^p` ns in which two versions differ (BTrDB's ComputeDiff). `p` is 0 to 62.
    Changes {
        stream: u32,
        old: u64,
        new: u64,
        p: u8,
    },

    /// The kind of the stream, the aggregate of all points of a version, and what an output's version was computed from.
    Info {
        stream: u32,
        at: At,
    },

    /// All streams.
    Streams,
}

/// A question about one stream, without the stream. Each variant asks what the variant of [`Query`] of the same name asks.
#[derive(Clone, Copy)]
pub enum StreamQuery {
    Points {
        from: i64,
        to: i64,
        at: At,
    },

    Nearest {
        time: i64,
        toward: Toward,
        at: At,
    },

    Aligned {
        from: i64,
        to: i64,
        p: u8,
        at: At,
    },

    Windows {
        from: i64,
        to: i64,
        width: u64,
        at: At,
    },

    Changes {
        old: u64,
        new: u64,
        p: u8,
    },

    Info {
        at: At,
    },
}

impl StreamQuery {
    /// The question, asked of the stream of this number.
    pub fn of(self, stream: u32) -> Query
        ensures { result ≡ of_stream self stream }
    {
        match self {
            StreamQuery::Points { from, to, at } => Query::Points {
                stream,
                from,
                to,
                at,
            },
            StreamQuery::Nearest { time, toward, at } => Query::Nearest {
                stream,
                time,
                toward,
                at,
            },
            StreamQuery::Aligned { from, to, p, at } => Query::Aligned {
                stream,
                from,
                to,
                p,
                at,
            },
            StreamQuery::Windows {
                from,
                to,
                width,
                at,
            } => Query::Windows {
                stream,
                from,
                to,
                width,
                at,
            },
            StreamQuery::Changes { old, new, p } => Query::Changes {
                stream,
                old,
                new,
                p,
            },
            StreamQuery::Info { at } => Query::Info { stream, at },
        }
    }
}

//! The test of questions: what a question asks for, or why it is refused, by the plain facts of the streams.
ghost use Rattle.std.specs.Prelude.{◌≡◌, ℕ, ◌+◌, ◌<◌, ◌≤◌, List, length, IfOk, IfErr, IfSome, MatchOption};
ghost use Rattle.btr_hist.specs.declared.entry.Entry.{Entry as EntrySpec};
ghost use Rattle.btr_hist.specs.declared.query.Query.TheVariants as ask;
ghost use Rattle.btr_hist.specs.History.{ids, is_output, read_by, earliest};
ghost use Rattle.btr_hist.specs.Answer.{answer, version_of};
ghost use Rattle.btr_streams.specs.Board.{HasVersion, latest_of};
ghost use Rattle.btr_streams.specs.Wanted.{answer_of_test, MayBeRead};
ghost use Rattle.btr_streams.specs.Answering.{IsVersion, IsPresentVersion, IsNumbered, IsAskedRange};
ghost use Rattle.btr_streams.specs.Answering.{RefusesEach, RefusesRetired, RefusesVersion, RefusesRange};

use btr_base::{MAX_EXPONENT, MAX_WIDTH, Range, Toward};
use btr_hist::{At, Query, Reads, Refusal, VersionAsked};

/// The plain facts of the streams of a store, by which a question is tested. Each call takes no memory.
pub trait StreamFacts {
    /// The facts are those of this history.
    ghost IsOf: { List EntrySpec → Self → Type 0 };

    /// The number of versions of each stream, with version 0; 0 if there is no such stream.
    ghost versions: { Self → ℕ → ℕ };

    /// The latest version of a stream, or `None` if there is no such stream.
    fn latest_version(&self, stream: u32) -> Option<u64>
        ensures of { (h : List EntrySpec) → IsOf h self.now → result ≡ latest_of h stream }
        ensures counted { IfSome result (λ version. versions self.now stream ≡ version + 1) };

    /// The first version of a stream that is not retired, 0 if none is.
    fn earliest_version(&self, stream: u32) -> u64
        ensures { (h : List EntrySpec) → IsOf h self.now → stream < length (ids h) → result ≡ earliest h stream };

    /// Whether a stream is an output, which is computed from other streams.
    fn is_output(&self, stream: u32) -> bool
        ensures { (h : List EntrySpec) → IsOf h self.now → stream < length (ids h) → result ≡ is_output h stream };

    /// The versions of its inputs that a version of an output was computed from.
    fn versions_read(&self, stream: u32, version: u64) -> Option<Reads>
        ensures { (h : List EntrySpec) → IsOf h self.now → HasVersion h stream version → result ≡ read_by h stream version };
}

/// What a question asks for that is not refused. Each variant is that of the [`Query`] of the same name. The versions are there and not
/// retired, and the range and the other numbers are good.
#[derive(Clone, Copy)]
pub enum Wanted {
    /// The points of a range.
    Points {
        stream: u32,
        version: u64,
        range: Range,
    },

    /// The point nearest to a time, in nanoseconds.
    Nearest {
        stream: u32,
        version: u64,
        time: i64,
        toward: Toward,
    },

    /// The aligned windows of `2^p` ns that meet a range.
    Aligned {
        stream: u32,
        version: u64,
        range: Range,
        p: u8,
    },

    /// The windows of a width, in nanoseconds, from the start of a range on.
    Windows {
        stream: u32,
        version: u64,
        range: Range,
        width: u64,
    },

    /// The slots of `2^p` ns in which two versions differ, of which the first is not the later one.
    Changes {
        stream: u32,
        old: u64,
        new: u64,
        p: u8,
    },

    /// The aggregate of all points of a version. The rest of the answer is here: the kind of the stream, and what the version has read.
    Info {
        stream: u32,
        version: u64,
        output: bool,
        reads: Option<Reads>,
    },

    /// All streams.
    Streams,
}

/// Tests a question: returns what it asks for, or why it is refused. It costs as much as four calls of the facts at most, and takes no
/// memory.
pub fn test_query<F: StreamFacts>(facts: &F, query: &Query) -> Result<Wanted, Refusal>
    ensures tested { (h : List EntrySpec) → F.IsOf h facts.now → answer_of_test h result ≡ answer h query.now }
    ensures may { IfOk result (MayBeRead (F.versions facts.now)) }
{
    match *query {
        Query::Points {
            stream,
            from,
            to,
            at,
        } => test_points(facts, VersionAsked { stream, at }, from, to),
        Query::Nearest {
            stream,
            time,
            toward,
            at,
        } => test_nearest(facts, VersionAsked { stream, at }, time, toward),
        Query::Aligned {
            stream,
            from,
            to,
            p,
            at,
        } => test_aligned(facts, VersionAsked { stream, at }, from, to, p),
        Query::Windows {
            stream,
            from,
            to,
            width,
            at,
        } => test_windows(facts, VersionAsked { stream, at }, from, to, width),
        Query::Changes {
            stream,
            old,
            new,
            p,
        } => test_changes(facts, stream, old, new, p),
        Query::Info { stream, at } => test_info(facts, VersionAsked { stream, at }),
        Query::Streams => Ok(Wanted::Streams),
    }
}

/// Tests a question about the points of a range.
fn test_points<F: StreamFacts>(
    facts: &F,
    asked: VersionAsked,
    from: i64,
    to: i64,
) -> Result<Wanted, Refusal>
    ensures tested { (h : List EntrySpec) → F.IsOf h facts.now
        → answer_of_test h result ≡ answer h (ask.Points asked.stream from to asked.at) }
    ensures may { IfOk result (MayBeRead (F.versions facts.now)) }
{
    let (version, range) = match range_asked(facts, asked, from, to) {
        Ok(there) => there,
        Err(refusal) => return Err(refusal),
    };
    Ok(Wanted::Points {
        stream: asked.stream,
        version,
        range,
    })
}

/// Tests a question about the point nearest to a time.
fn test_nearest<F: StreamFacts>(
    facts: &F,
    asked: VersionAsked,
    time: i64,
    toward: Toward,
) -> Result<Wanted, Refusal>
    ensures tested { (h : List EntrySpec) → F.IsOf h facts.now
        → answer_of_test h result ≡ answer h (ask.Nearest asked.stream time toward asked.at) }
    ensures may { IfOk result (MayBeRead (F.versions facts.now)) }
{
    match version_asked(facts, asked) {
        Ok(version) => Ok(Wanted::Nearest {
            stream: asked.stream,
            version,
            time,
            toward,
        }),
        Err(refusal) => Err(refusal),
    }
}

/// Tests a question about the aligned windows that meet a range.
fn test_aligned<F: StreamFacts>(
    facts: &F,
    asked: VersionAsked,
    from: i64,
    to: i64,
    p: u8,
) -> Result<Wanted, Refusal>
    ensures tested { (h : List EntrySpec) → F.IsOf h facts.now
        → answer_of_test h result ≡ answer h (ask.Aligned asked.stream from to p asked.at) }
    ensures may { IfOk result (MayBeRead (F.versions facts.now)) }
{
    let (version, range) = match range_asked(facts, asked, from, to) {
        Ok(there) => there,
        Err(refusal) => return Err(refusal),
    };
    if p > MAX_EXPONENT {
        return Err(Refusal::BadRange);
    }
    Ok(Wanted::Aligned {
        stream: asked.stream,
        version,
        range,
        p,
    })
}

/// Tests a question about the windows of a width, from the start of a range on.
fn test_windows<F: StreamFacts>(
    facts: &F,
    asked: VersionAsked,
    from: i64,
    to: i64,
    width: u64,
) -> Result<Wanted, Refusal>
    ensures tested { (h : List EntrySpec) → F.IsOf h facts.now
        → answer_of_test h result ≡ answer h (ask.Windows asked.stream from to width asked.at) }
    ensures may { IfOk result (MayBeRead (F.versions facts.now)) }
{
    let (version, range) = match range_asked(facts, asked, from, to) {
        Ok(there) => there,
        Err(refusal) => return Err(refusal),
    };
    if width == 0 || width > MAX_WIDTH {
        return Err(Refusal::BadRange);
    }
    Ok(Wanted::Windows {
        stream: asked.stream,
        version,
        range,
        width,
    })
}

/// Tests a question about the slots in which two versions differ.
fn test_changes<F: StreamFacts>(
    facts: &F,
    stream: u32,
    old: u64,
    new: u64,
    p: u8,
) -> Result<Wanted, Refusal>
    ensures tested { (h : List EntrySpec) → F.IsOf h facts.now → answer_of_test h result ≡ answer h (ask.Changes stream old new p) }
    ensures may { IfOk result (MayBeRead (F.versions facts.now)) }
{
    let newest = At::Number(old.max(new));
    if let Err(refusal) = kept_version(facts, VersionAsked { stream, at: newest }) {
        return Err(refusal);
    }
    if let Some(refusal) = retired(facts, stream, old.min(new)) {
        return Err(refusal);
    }
    if old > new || p > MAX_EXPONENT {
        return Err(Refusal::BadRange);
    }
    Ok(Wanted::Changes {
        stream,
        old,
        new,
        p,
    })
}

/// Tests a question about a whole version.
fn test_info<F: StreamFacts>(facts: &F, asked: VersionAsked) -> Result<Wanted, Refusal>
    ensures tested { (h : List EntrySpec) → F.IsOf h facts.now
        → answer_of_test h result ≡ answer h (ask.Info asked.stream asked.at) }
    ensures may { IfOk result (MayBeRead (F.versions facts.now)) }
{
    match version_asked(facts, asked) {
        Ok(version) => Ok(Wanted::Info {
            stream: asked.stream,
            version,
            output: facts.is_output(asked.stream),
            reads: facts.versions_read(asked.stream, version),
        }),
        Err(refusal) => Err(refusal),
    }
}

/// Returns the version that a question asks for, and the range, or why the question is refused.
fn range_asked<F: StreamFacts>(
    facts: &F,
    asked: VersionAsked,
    from: i64,
    to: i64,
) -> Result<(u64, Range), Refusal>
    ensures there { (h : List EntrySpec) → F.IsOf h facts.now
        → IfOk result (λ r. IsPresentVersion h asked.stream (version_of h asked.stream asked.at) r.0) }
    ensures within { IfOk result (λ r. r.0 < F.versions facts.now asked.stream) }
    ensures range { IfOk result (λ r. IsAskedRange from to r.1) }
    ensures refused { (h : List EntrySpec) → F.IsOf h facts.now → IfErr result (RefusesRange h asked.stream from to asked.at) }
{
    let version = match version_asked(facts, asked) {
        Ok(version) => version,
        Err(refusal) => return Err(refusal),
    };
    match Range::new(from, to) {
        Some(range) => Ok((version, range)),
        None => Err(Refusal::BadRange),
    }
}

/// Returns the number of the version that a question asks for, or why the question is refused.
fn version_asked<F: StreamFacts>(facts: &F, asked: VersionAsked) -> Result<u64, Refusal>
    ensures there { (h : List EntrySpec) → F.IsOf h facts.now
        → IfOk result (IsPresentVersion h asked.stream (version_of h asked.stream asked.at)) }
    ensures within { IfOk result (λ version. version < F.versions facts.now asked.stream) }
    ensures refused { (h : List EntrySpec) → F.IsOf h facts.now → IfErr result (RefusesVersion h asked.stream asked.at) }
{
    let version = match kept_version(facts, asked) {
        Ok(version) => version,
        Err(refusal) => return Err(refusal),
    };
    match retired(facts, asked.stream, version) {
        Some(refusal) => Err(refusal),
        None => Ok(version),
    }
}

/// Returns why a question about this version of a stream is refused if it is retired, or `None` if it is not.
fn retired<F: StreamFacts>(facts: &F, stream: u32, asked: u64) -> Option<Refusal>
    ensures { (h : List EntrySpec) → F.IsOf h facts.now → stream < length (ids h)
        → MatchOption result (earliest h stream ≤ asked) (RefusesRetired h stream asked) }
{
    let first = facts.earliest_version(stream);
    if asked < first {
        return Some(Refusal::Retired { asked, first });
    }
    None
}

/// Returns the number of the version that a question asks for, which may be retired, or why the question is refused.
fn kept_version<F: StreamFacts>(facts: &F, asked: VersionAsked) -> Result<u64, Refusal>
    ensures there { (h : List EntrySpec) → F.IsOf h facts.now
        → IfOk result (IsVersion h asked.stream (version_of h asked.stream asked.at)) }
    ensures numbered { IfOk result (IsNumbered asked.at) }
    ensures within { IfOk result (λ version. version < F.versions facts.now asked.stream) }
    ensures refused { (h : List EntrySpec) → F.IsOf h facts.now → IfErr result (RefusesEach h asked.stream asked.at) }
{
    let VersionAsked { stream, at } = asked;
    let Some(latest) = facts.latest_version(stream) else {
        return Err(Refusal::NoStream);
    };
    let asked = match at {
        At::Number(number) => number,
        At::Latest => latest,
    };
    if asked > latest {
        return Err(Refusal::NoVersion { asked, latest });
    }
    Ok(asked)
}

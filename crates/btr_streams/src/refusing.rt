//! Why an entry may not follow: its tests, in the order of `rejection`.
ghost use Rattle.std.specs.Prelude.{◌≡◌, ◌-◌, ◌<◌, ◌≤◌, nat_le, nat_lt, ◌&&◌, true, false, List, length};
ghost use Rattle.std.specs.Prelude.{IfSome, IsNone, IsTrue, Some, None};
ghost use Rattle.std.specs.Option.{is_some, unwrap_or};
ghost use Rattle.btr_tree.specs.History.{nothing};
ghost use Rattle.btr_hist.specs.declared.entry.Entry.{Entry as EntrySpec};
ghost use Rattle.btr_hist.specs.declared.entry.Entry.TheVariants as entry;
ghost use Rattle.btr_hist.specs.Kernel.{is_good};
ghost use Rattle.btr_hist.specs.History.{nothing_read};
ghost use Rattle.btr_hist.specs.declared.rejection.Rejection.TheVariants.{VersionLimit};
ghost use Rattle.btr_hist.specs.Legal.{when};
ghost use Rattle.btr_entry.specs.Grammar.{AreVersions};
ghost use Rattle.btr_streams.specs.Readers.{AreInputsBelow};
ghost use Rattle.btr_streams.specs.Board.{HasStreamsOf, IsGrown, place_of, ids_of};
ghost use Rattle.btr_streams.specs.Rolling.{rolled, kept_stream};
ghost use Rattle.btr_streams.specs.Stage.{change};
ghost use Rattle.btr_streams.specs.Outline.{outline_of, outline_in, outlined_in_roll, stream_at};
ghost use Rattle.btr_streams.specs.Outline.{create_refusal, define_refusal, commit_refusal, distillate_refusal, refusal};
ghost use Rattle.btr_streams.specs.Outline.{is_stream_in, has_inputs_in, may_read_in, may_read_second_in, takes_reads_in};
ghost use Rattle.btr_streams.specs.Stage.{HasRoomFor, HasRoomForVersion};

use crate::board::{Board, Stream, read_at};
use btr_base::{Bag, MAX_STREAMS, MAX_VERSIONS, Ranges};
use btr_hist::{Entry, Reads, Rejection, Spec, change_rejection, distillate_change_rejection};

impl Board {
    /// Returns why an entry may not follow, whatever points its stream has, or `None` if nothing else shows against it. These are
    /// the tests that [`Board::stage`] makes before it looks at points, in the same order. They do not look at the trees. What they
    /// find is said of any board, also of one that is that of no history. It costs logarithmic time, and the length of the entry,
    /// and takes no memory. A retirement costs logarithmic time for each output that has the stream as an input.
    pub fn refusal(&self, entry: &Entry) -> Option<Rejection>
        ensures of { (h : List EntrySpec) → HasStreamsOf h self.now → result ≡ refusal (outline_of h) entry.now }
        ensures rolled { result ≡ refusal (outline_in (rolled self.now)) entry.now }
        ensures room { IsNone result → HasRoomFor self.now entry.now }
    {
        match entry {
            Entry::Create { id } => self.create_rejection(*id),
            Entry::Define { id, spec } => self.define_rejection(*id, spec),
            Entry::Commit { stream, cut, added } => self.commit_refusal(*stream, cut, added),
            Entry::Distillate {
                stream,
                cut,
                added,
                reads,
            } => self.distillate_refusal(*stream, cut, added, reads),
            Entry::Retire { stream, first } => self.retire_refusal(*stream, *first),
        }
    }

    /// Returns why a user's commit may not follow, whatever points the stream has, or `None` if nothing else shows against it.
    pub(crate) fn commit_refusal(&self, stream: u32, cut: &Ranges, added: &Bag) -> Option<Rejection>
        ensures rolled { result ≡ commit_refusal (outline_in (rolled self.now)) stream (change cut.now added.now) }
        ensures room { IsNone result → HasRoomForVersion self.now stream false }
    {
        let Some(kept) = self.streams.get(stream as usize) else {
            return Some(Rejection::NoStream);
        };
        if kept.spec.is_some() {
            return Some(Rejection::NotWritable);
        }
        if let Some(why) = change_rejection(cut, added) {
            return Some(why);
        }
        version_refusal(kept)
    }

    /// Returns why a distillate may not follow, whatever points the stream has, or `None` if nothing else shows against it.
    pub(crate) fn distillate_refusal(
        &self,
        stream: u32,
        cut: &Ranges,
        added: &Bag,
        reads: &Reads,
    ) -> Option<Rejection>
        ensures rolled { result ≡ distillate_refusal (outline_in (rolled self.now)) stream (change cut.now added.now) reads.now }
        ensures room { IsNone result → HasRoomForVersion self.now stream true }
    {
        let Some(kept) = self.streams.get(stream as usize) else {
            return Some(Rejection::NoStream);
        };
        if !self.takes_reads(kept, reads) {
            return Some(Rejection::NotWritable);
        }
        if let Some(why) = distillate_change_rejection(cut, added) {
            return Some(why);
        }
        version_refusal(kept)
    }

    /// Returns why a stream with this id may not be created, or `None` if it may.
    pub(crate) fn create_rejection(&self, id: u128) -> Option<Rejection>
        ensures rolled { result ≡ create_refusal (outline_in (rolled self.now)) id }
        ensures room { IsNone result → length self.now.streams < MAX_STREAMS }
        ensures fresh { IsNone result → place_of (ids_of self.now.streams) id ≡ None }
    {
        if self.numbers.find(id).is_some() {
            return Some(Rejection::StreamExists);
        }
        if self.streams.len() >= MAX_STREAMS {
            return Some(Rejection::StreamLimit);
        }
        None
    }

    /// Returns why an output with this id and spec may not be created, or `None` if it may.
    pub(crate) fn define_rejection(&self, id: u128, spec: &Spec) -> Option<Rejection>
        ensures rolled { result ≡ define_refusal (outline_in (rolled self.now)) id spec.now }
        ensures room { IsNone result → length self.now.streams < MAX_STREAMS }
        ensures fresh { IsNone result → place_of (ids_of self.now.streams) id ≡ None }
        ensures good { IsNone result → is_good spec.now ≡ true }
        ensures inputs { IsNone result → AreInputsBelow (length self.now.streams) spec.now }
    {
        if !self.has_inputs(spec) {
            return Some(Rejection::NoStream);
        }
        if let Some(why) = self.create_rejection(id) {
            return Some(why);
        }
        if !spec.is_good() {
            return Some(Rejection::BadSpec);
        }
        None
    }

    /// Returns whether the inputs of a spec are streams.
    pub(crate) fn has_inputs(&self, spec: &Spec) -> bool
        ensures rolled { result ≡ has_inputs_in (outline_in (rolled self.now)) spec.now }
        ensures below { IsTrue result → AreInputsBelow (length self.now.streams) spec.now }
    {
        let has_second = match spec.second {
            Some(stream) => self.has_stream(stream),
            None => true,
        };
        self.has_stream(spec.first) && has_second
    }

    /// Returns whether there is a stream of this number.
    pub(crate) fn has_stream(&self, stream: u32) -> bool
        ensures rolled { result ≡ is_stream_in (outline_in (rolled self.now)) stream }
        ensures below { IsTrue result → stream < length self.now.streams }
    {
        (stream as usize) < self.streams.len()
    }

    /// Returns whether a stream is an output whose next distillate may read these versions.
    pub(crate) fn takes_reads(&self, kept: &Stream, new: &Reads) -> bool
        ensures rolled { IsGrown kept.now
            → result ≡ takes_reads_in (outline_in (rolled self.now)) kept.now.spec (outlined_in_roll (kept_stream kept.now)).reads new.now }
        ensures output { IsTrue result → is_some kept.now.spec ≡ true }
        ensures few { IsTrue result → AreVersions new.now }
    {
        match kept.spec {
            Some(spec) => self.may_read(&spec, &latest_reads(kept, &spec), new),
            None => false,
        }
    }

    /// Returns whether a distillate may read these versions of its inputs, if the last one read the old ones.
    pub(crate) fn may_read(&self, spec: &Spec, old: &Reads, new: &Reads) -> bool
        ensures rolled { result ≡ may_read_in (outline_in (rolled self.now)) spec.now old.now new.now }
        ensures few { IsTrue result → AreVersions new.now }
    {
        self.may_read_input(spec.first, old.first, new.first)
            && self.may_read_second(spec.second, old.second, new.second)
    }

    /// Returns whether a version of a second input may be read, or there is neither.
    pub(crate) fn may_read_second(
        &self,
        stream: Option<u32>,
        old: Option<u64>,
        new: Option<u64>,
    ) -> bool
        ensures rolled { result ≡ may_read_second_in (outline_in (rolled self.now)) stream old new }
        ensures few { IsTrue result → IfSome new (λ version. version ≤ MAX_VERSIONS) }
    {
        match (stream, old, new) {
            (None, None, None) => true,
            (Some(stream), Some(old), Some(new)) => self.may_read_input(stream, old, new),
            _ => false,
        }
    }

    /// Returns whether the stream has this version, and it is not before the old one.
    pub(crate) fn may_read_input(&self, stream: u32, old: u64, new: u64) -> bool
        ensures rolled { result ≡ (nat_le old new && nat_le new (stream_at (outline_in (rolled self.now)) stream).latest) }
        ensures few { IsTrue result → new ≤ MAX_VERSIONS }
    {
        let latest = self.latest_or_zero(stream);
        old <= new && new <= latest
    }

    /// Returns the latest version of a stream, or 0 if there is no such stream.
    pub(crate) fn latest_or_zero(&self, stream: u32) -> u64
        ensures latest { result ≡ (stream_at (outline_in (rolled self.now)) stream).latest }
        ensures few { result ≤ MAX_VERSIONS }
    {
        match self.streams.get(stream as usize) {
            Some(kept) => (kept.trees.len() - 1) as u64,
            None => 0,
        }
    }
}

/// Returns why a stream may not have one version more, or `None` if it may.
pub(crate) fn version_refusal(kept: &Stream) -> Option<Rejection>
    ensures { result ≡ when (nat_lt MAX_VERSIONS (length kept.now.trees)) VersionLimit }
{
    if kept.trees.len() > MAX_VERSIONS {
        return Some(Rejection::VersionLimit);
    }
    None
}

/// Returns the versions of the inputs that the latest version of an output of this spec stands for: what it has read, or version 0
/// of each.
pub(crate) fn latest_reads(kept: &Stream, spec: &Spec) -> Reads
    ensures { IsGrown kept.now → kept.now.spec ≡ Some spec.now
        → result ≡ unwrap_or (outlined_in_roll (kept_stream kept.now)).reads (nothing_read spec.now) }
{
    match read_at(&kept.reads, kept.reads.len() as u64) {
        Some(read) => read,
        None => spec.nothing_read(),
    }
}

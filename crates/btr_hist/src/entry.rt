ghost use Rattle.std.specs.Prelude.{◌≡◌, MatchOption, None, Some};
ghost use Rattle.std.specs.Option.{is_some};
ghost use Rattle.btr_hist.specs.History.{new_id, new_kind, change_of, read_of, first_of};

use crate::kernel::{Reads, Spec};
use btr_base::{Bag, Ranges};

/// One entry of a history. A stream's number is its index among the streams in order of creation, from 0.
#[derive(Drop)]
pub enum Entry {
    /// A new stream, with this id.
    Create {
        id: u128,
    },

    /// A commit of a stream, which makes its next version: it removes the points in the cut, and then adds the added points.
    Commit {
        stream: u32,
        cut: Ranges,
        added: Bag,
    },

    /// A new output, with this id: a stream that is computed from others, and takes no other commits.
    Define {
        id: u128,
        spec: Spec,
    },

    /// A distillate commit, which makes the next version of an output: a commit, and the versions of the inputs that it was
    /// computed from.
    Distillate {
        stream: u32,
        cut: Ranges,
        added: Bag,
        reads: Reads,
    },

    /// A retirement, which makes the versions of a stream before the first unreadable by questions. Nothing is removed: outputs may
    /// still be computed from these versions.
    Retire {
        stream: u32,
        first: u64,
    },
}

impl Entry {
    /// The id of the stream that the entry makes, if it makes one.
    pub fn new_id(&self) -> Option<u128>
        ensures { result ≡ new_id self.now }
    {
        match self {
            Entry::Create { id } => Some(*id),
            Entry::Define { id, .. } => Some(*id),
            Entry::Commit { .. } | Entry::Distillate { .. } | Entry::Retire { .. } => None,
        }
    }

    /// The kind of the stream that the entry makes, if it makes one: the spec of an output, none of a plain stream.
    pub fn new_kind(&self) -> Option<Option<Spec>>
        ensures { result ≡ new_kind self.now }
    {
        match self {
            Entry::Create { .. } => Some(None),
            Entry::Define { spec, .. } => Some(Some(*spec)),
            Entry::Commit { .. } | Entry::Distillate { .. } | Entry::Retire { .. } => None,
        }
    }

    /// Whether the entry is a commit of the stream of this number.
    pub(crate) fn is_commit_of(&self, stream: usize) -> bool
        ensures { result ≡ is_some (change_of stream self.now) }
    {
        match self {
            Entry::Create { .. } | Entry::Define { .. } | Entry::Retire { .. } => false,
            Entry::Commit { stream: of, .. } => *of as usize == stream,
            Entry::Distillate { stream: of, .. } => *of as usize == stream,
        }
    }

    /// The ranges that the entry cuts and the points that it adds, if it is a commit of this stream.
    pub fn change(&self, stream: u32) -> Option<(&Ranges, &Bag)>
        ensures { MatchOption result (change_of stream self.now ≡ None)
            (λ c. change_of stream self.now ≡ Some (record { cut = c.0.now; added = c.1.now })) }
    {
        match self {
            Entry::Create { .. } | Entry::Define { .. } | Entry::Retire { .. } => None,
            Entry::Commit {
                stream: of,
                cut,
                added,
            }
            | Entry::Distillate {
                stream: of,
                cut,
                added,
                ..
            } => {
                if *of == stream {
                    Some((cut, added))
                } else {
                    None
                }
            }
        }
    }

    /// The versions of its inputs that the entry has read, if it is a commit of this stream: none of a user's commit.
    pub fn read(&self, stream: u32) -> Option<Option<Reads>>
        ensures { result ≡ read_of stream self.now }
    {
        match self {
            Entry::Create { .. } | Entry::Define { .. } | Entry::Retire { .. } => None,
            Entry::Commit { stream: of, .. } => (*of == stream).then_some(None),
            Entry::Distillate {
                stream: of,
                reads,
                ..
            } => (*of == stream).then_some(Some(*reads)),
        }
    }

    /// The first version that the entry leaves, if it retires the versions of this stream before that one.
    pub fn first(&self, stream: u32) -> Option<u64>
        ensures { result ≡ first_of stream self.now }
    {
        match self {
            Entry::Retire { stream: of, first } => (*of == stream).then_some(*first),
            Entry::Create { .. }
            | Entry::Define { .. }
            | Entry::Commit { .. }
            | Entry::Distillate { .. } => None,
        }
    }
}

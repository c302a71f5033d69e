ghost use Rattle.std.specs.Prelude.{◌≡◌, ℕ, [], ◌∷◌, ◌++◌, length, IfOk, IfSome, IsNone, OnOk, OnErr};
ghost use Rattle.btr_hist.specs.History.{ids, stream_of, spec_of, latest, read_by, earliest};
ghost use Rattle.btr_hist.specs.Legal.{rejection};
ghost use Rattle.btr_hist.specs.Answer.{answer};

use crate::answer::Answer;
use crate::answering::answer_of;
use crate::entry::Entry;
use crate::kernel::{Reads, Spec};
use crate::query::Query;
use crate::rejecting::{commit, creation, definition, distillate};
use crate::rejection::Rejection;
use crate::retiring::retirement;
use crate::walks::{earliest_of, latest_of, read_by, spec_of, stream_count, stream_number};
use std::alloc::{AllocError, Global};
use std::marker::Model;

/// A history, kept as the list of its entries.
#[derive(Drop)]
pub struct History {
    entries: Vec<Entry>,
}

impl Model for History {
    ghost use Rattle.std.specs.Prelude.{List};
    ghost use Rattle.btr_hist.specs.declared.entry.Entry.{Entry};

    ghost Value = { List Entry };

    ghost view = { λ h. h.entries.items };
}

impl History {
    /// No entries. It takes no memory.
    pub fn empty(alloc: Global) -> History
        ensures { result ≡ [] }
    {
        History {
            entries: Vec::new(alloc),
        }
    }

    /// Adds an entry, which need not be allowed (see [`History::rejection`]). An `Err` means out of memory, and nothing is
    /// changed.
    pub fn push(&mut self, entry: Entry) -> Result<(), AllocError>
        ensures ok { OnOk result (self.new ≡ self.old ++ entry ∷ []) }
        ensures err { OnErr result (self.new ≡ self.old) }
    {
        self.entries.push(entry)?;
        Ok(())
    }

    /// Removes the last entry, if there is one, and returns it. It takes no memory.
    pub fn pop(&mut self) -> Option<Entry>
        ensures last { IfSome result (λ e. self.old ≡ self.new ++ e ∷ []) }
        ensures none { IsNone result → (self.old ≡ []) × (self.new ≡ []) }
    {
        self.entries.pop()
    }

    /// The number of entries, in constant time. It takes no memory.
    pub fn entries(&self) -> usize
        ensures { result ≡ length self.now }
    {
        self.entries.len()
    }

    /// The number of the first stream with this id in order of creation, if there is one. It goes through all entries, and takes
    /// no memory.
    pub fn find(&self, id: u128) -> Option<usize>
        ensures { result ≡ stream_of self.now id }
    {
        stream_number(&self.entries, id)
    }

    /// The number of streams. It goes through all entries, and takes no memory.
    pub fn streams(&self) -> usize
        ensures { result ≡ length (ids self.now) }
    {
        stream_count(&self.entries)
    }

    /// The latest version of a stream: the number of its commits. It goes through all entries, and takes no memory.
    pub fn latest(&self, stream: u32) -> usize
        ensures { result ≡ latest self.now stream }
    {
        latest_of(&self.entries, stream as usize)
    }

    /// The first version of a stream that is not retired: that of its last retirement, or 0 if there is none. It goes through all
    /// entries, and takes no memory.
    pub fn earliest(&self, stream: u32) -> u64
        ensures { result ≡ earliest self.now stream }
    {
        earliest_of(&self.entries, stream)
    }

    /// The spec of an output. A plain stream, and a number that is not that of a stream, have none. It goes through all entries,
    /// and takes no memory.
    pub fn spec(&self, stream: u32) -> Option<Spec>
        ensures { result ≡ spec_of self.now stream }
    {
        spec_of(&self.entries, stream as usize)
    }

    /// The versions of its inputs that a version of an output was computed from. Version 0, a version of a plain stream, and one
    /// that the stream does not have yet, have none. It goes through all entries, and takes no memory.
    pub fn reads(&self, stream: u32, version: u64) -> Option<Reads>
        ensures { result ≡ read_by self.now stream version }
    {
        read_by(&self.entries, stream, version)
    }

    /// The answer to a question, by filters and folds over all entries. It costs the whole history each time. An `Err` means
    /// out of memory.
    pub fn answer(&self, alloc: Global, query: &Query) -> Result<Answer, AllocError>
        ensures { IfOk result (λ a. a ≡ answer self.now query.now) }
    {
        answer_of(alloc, &self.entries, query)
    }

    /// The reason why an entry may not follow, or `None` if it may. It costs the whole history each time. An `Err` means out of
    /// memory.
    pub fn rejection(&self, alloc: Global, entry: &Entry) -> Result<Option<Rejection>, AllocError>
        ensures { IfOk result (λ r. r ≡ rejection self.now entry.now) }
    {
        match entry {
            Entry::Create { id } => Ok(creation(&self.entries, *id)),
            Entry::Define { id, spec } => Ok(definition(&self.entries, *id, spec)),
            Entry::Commit { stream, cut, added } => commit(
                alloc,
                &self.entries,
                *stream,
                cut,
                added,
            ),
            Entry::Distillate {
                stream,
                cut,
                added,
                reads,
            } => distillate(alloc, &self.entries, *stream, cut, added, reads),
            Entry::Retire { stream, first } => retirement(&self.entries, *stream, *first),
        }
    }
}

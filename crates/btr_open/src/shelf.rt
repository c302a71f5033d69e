//! A shelf: a sealed store that answers questions from nodes that are fetched one at a time.
ghost use Rattle.std.specs.Prelude.{◌≡◌, ◌≤◌, ◌^◌, ℕ, nat_eq, if◌then◌else◌, List, length, map, slice_get};
ghost use Rattle.std.specs.Prelude.{IfOk, IfErr, OnOk, MatchOption, None, Some};
ghost use Rattle.btr_hist.specs.declared.entry.Entry.{Entry as EntrySpec};
ghost use Rattle.btr_hist.specs.Answer.{answer};
ghost use Rattle.btr_hist.specs.History.{stream_of as stream_with};
ghost use Rattle.btr_tree.specs.Spots.{IsHarmlessFault};
ghost use Rattle.btr_streams.specs.declared.asking.Wanted.TheVariants as want;
ghost use Rattle.btr_streams.specs.Wanted.{answer_to, MayBeRead};
ghost use Rattle.btr_open.specs.Shelf.{HasNumbers, number_at, HasRollOf, AtEachShelf, AtEachPossibleShelf, IsShelfCause};
ghost use Rattle.btr_open.specs.Shelf.{versions_on, root_on, rolled_root, rolled_reads, rolled_version, row_on};

use crate::shelf_rows::{aligned_at, changes_at, info_at, nearest_at, points_at, windows_at};
use btr_hist::{Answer, Query, Reads, Rows, StreamList, StreamRow};
use btr_roll::{Roll, RollStream, RollVersion};
use btr_streams::{StreamFacts, Wanted, test_query};
use btr_tree::{NodeFault, Nodes, Root};
use std::alloc::{AllocError, Global};
use std::collections::BTreeMap;
use std::marker::Model;

/// A sealed store that holds no nodes: the streams with the roots of all their versions, and the number of entries. It answers questions
/// from nodes that are fetched one at a time, as [`Board`](btr_streams::Board) does from trees in memory.
///
/// A shelf does not change. So any number of threads may ask it side by side, each with its own source of nodes.
#[derive(Drop)]
pub struct Shelf {
    roll: Roll,
    entries: u64,

    /// The number of each stream, by its id.
    numbers: BTreeMap<u128, u32>,
}

impl Model for Shelf {
    ghost use Rattle.btr_open.specs.Shelf.{ShelfValue, HasNumbers};

    ghost Value = { ShelfValue };

    ghost view = { λ s. record { roll = s.roll; entries = s.entries } };

    ghost invariant = { λ s. HasNumbers s.numbers.entries s.roll };
}

impl Shelf {
    /// Returns the shelf with these streams and this number of entries. It costs a logarithm for each stream. An `Err` means out of memory.
    pub(crate) fn of(alloc: Global, roll: Roll, entries: u64) -> Result<Shelf, AllocError>
        requires { length roll ≤ 2 ^ 32 }
        ensures { IfOk result (λ s. s ≡ record { roll = roll; entries = entries }) }
    {
        let numbers = numbers_of(alloc, &roll.streams)?;
        Ok(Shelf {
            roll,
            entries,
            numbers,
        })
    }

    /// Returns the number of entries, in constant time. It takes no memory.
    pub fn entries(&self) -> u64
        ensures of { (h : List EntrySpec) → HasRollOf h self.now → result ≡ length h }
        ensures kept { result ≡ self.now.entries }
    {
        self.entries
    }

    /// Returns the number of the stream with this id, if there is one: the first in order of creation. It takes logarithmic time and no
    /// memory.
    pub fn find(&self, id: u128) -> Option<u32>
        ensures { (h : List EntrySpec) → HasRollOf h self.now → result ≡ stream_with h id }
    {
        self.numbers.get(&id).copied()
    }

    /// Answers a question. It costs one call of `nodes` for each node that the question needs, and one for each root, and its rows. The
    /// list of all streams, and a refusal, make no call. It takes memory for the rows alone.
    ///
    /// An `Ok` is the answer for the shelf's history, although pages of it may be lost.
    ///
    /// `Failed` is a call that failed, and `Want` is out of memory. `Damaged` names a block as [`btr_scan::range_from`] does. It is not
    /// returned if all pages of the shelf's history are there.
    pub fn answer<N: Nodes>(
        &self,
        nodes: &mut N,
        alloc: Global,
        query: &Query,
    ) -> Result<Answer, NodeFault>
        ensures answer { N.is_observable → IfOk result (λ a. AtEachPossibleShelf (N.IsPage (N.contents nodes.old)) self.now (λ h.
            a ≡ answer h query.now)) }
        ensures sound { N.is_observable → IfErr result (λ e. AtEachShelf (N.IsPage (N.contents nodes.old)) self.now (λ h.
            IsHarmlessFault e)) }
        ensures same { N.contents nodes.new ≡ N.contents nodes.old }
        ensures rises { N.faults nodes.old ≤ N.faults nodes.new }
        ensures cause { IfErr result (IsShelfCause N.is_observable self.now (λ o. N.IsPage (N.contents nodes.old))
            (N.faults nodes.old) (N.faults nodes.new)) }
    {
        match test_query(self, query) {
            Ok(wanted) => self.read(nodes, alloc, wanted),
            Err(refusal) => Ok(Answer::Refused(refusal)),
        }
    }

    /// Answers with what is wanted.
    fn read<N: Nodes>(
        &self,
        nodes: &mut N,
        alloc: Global,
        wanted: Wanted,
    ) -> Result<Answer, NodeFault>
        requires { MayBeRead (versions_on self.now.roll) wanted }
        ensures answer { N.is_observable → IfOk result (λ a. AtEachPossibleShelf (N.IsPage (N.contents nodes.old)) self.now (λ h.
            a ≡ answer_to h wanted)) }
        ensures sound { N.is_observable → IfErr result (λ e. AtEachShelf (N.IsPage (N.contents nodes.old)) self.now (λ h.
            IsHarmlessFault e)) }
        ensures same { N.contents nodes.new ≡ N.contents nodes.old }
        ensures rises { N.faults nodes.old ≤ N.faults nodes.new }
        ensures cause { IfErr result (IsShelfCause N.is_observable self.now (λ o. N.IsPage (N.contents nodes.old))
            (N.faults nodes.old) (N.faults nodes.new)) }
    {
        match wanted {
            Wanted::Points {
                stream,
                version,
                range,
            } => points_at(nodes, alloc, self.root(stream, version), range),
            Wanted::Nearest {
                stream,
                version,
                time,
                toward,
            } => nearest_at(nodes, alloc, self.root(stream, version), time, toward),
            Wanted::Aligned {
                stream,
                version,
                range,
                p,
            } => aligned_at(nodes, alloc, self.root(stream, version), range, p),
            Wanted::Windows {
                stream,
                version,
                range,
                width,
            } => windows_at(nodes, alloc, self.root(stream, version), range, width),
            Wanted::Changes {
                stream,
                old,
                new,
                p,
            } => {
                let older = self.root(stream, old);
                let newer = self.root(stream, new);
                changes_at(nodes, alloc, older, newer, p)
            }
            Wanted::Info {
                stream,
                version,
                output,
                reads,
            } => info_at(nodes, self.root(stream, version), output, reads),
            Wanted::Streams => self.all_streams(alloc),
        }
    }

    /// Returns the root of a version of a stream. Its block is 0 for version 0, and for a version that there is not.
    fn root(&self, stream: u32, version: u64) -> Root
        ensures { result ≡ root_on self.now.roll stream version }
    {
        Root {
            block: root_block(&self.roll, stream, version),
            stream,
            version,
        }
    }

    /// Answers with all streams, in order of creation. It is refused only for memory.
    fn all_streams(&self, alloc: Global) -> Result<Answer, NodeFault>
        ensures answer { (h : List EntrySpec) → HasRollOf h self.now → IfOk result (λ a. a ≡ answer_to h want.Streams) }
        ensures want { IfErr result (λ e. e ≡ NodeFault.Want) }
    {
        let entries = self.entries();
        match stream_rows(alloc, &self.roll.streams) {
            Ok(rows) => Ok(Answer::Found {
                version: entries,
                rows: Rows::Streams(StreamList::from_rows(rows)),
            }),
            Err(_) => Err(NodeFault::Want),
        }
    }
}

impl StreamFacts for Shelf {
    ghost use Rattle.btr_open.specs.Shelf.{HasRollOf, versions_on};

    ghost IsOf = { HasRollOf };

    ghost versions = { λ s. versions_on s.roll };

    fn latest_version(&self, stream: u32) -> Option<u64> {
        let its = stream_of(&self.roll, stream)?;
        Some(its.versions.len() as u64)
    }

    fn earliest_version(&self, stream: u32) -> u64 {
        match stream_of(&self.roll, stream) {
            Some(its) => its.first,
            None => 0,
        }
    }

    fn is_output(&self, stream: u32) -> bool {
        match stream_of(&self.roll, stream) {
            Some(its) => its.spec.is_some(),
            None => false,
        }
    }

    fn versions_read(&self, stream: u32, version: u64) -> Option<Reads> {
        match stream_of(&self.roll, stream) {
            Some(its) => reads_of(its, version),
            None => None,
        }
    }
}

/// Returns the number of each id of the streams: that of the first stream with it. It costs a logarithm for each stream. An `Err` means out
/// of memory.
fn numbers_of(alloc: Global, streams: &[RollStream]) -> Result<BTreeMap<u128, u32>, AllocError>
    requires { length streams.now ≤ 2 ^ 32 }
    ensures { IfOk result (λ m. HasNumbers m.entries streams.now) }
{
    let mut numbers = BTreeMap::new(alloc);
    // From the last stream to the first, so that the first stream with an id is the one that stays.
    for done in 0..streams.len() {
        let place = streams.len() - 1 - done;
        let stream = &streams[place];
        put(&mut numbers, stream.id, place as u32)?;
    }
    Ok(numbers)
}

/// Puts the number of an id, in place of the number that it had. An `Err` means out of memory.
fn put(numbers: &mut BTreeMap<u128, u32>, id: u128, number: u32) -> Result<(), AllocError>
    ensures { OnOk result ((key : ℕ) → number_at numbers.new.entries key
        ≡ (if nat_eq key id then Some number else number_at numbers.old.entries key)) }
{
    match numbers.insert(id, number) {
        Ok(_) => Ok(()),
        Err(_) => Err(AllocError),
    }
}

/// Returns the stream with this number, if there is one.
fn stream_of(roll: &Roll, stream: u32) -> Option<&RollStream>
    ensures { MatchOption result (slice_get roll.now stream ≡ None) (λ its. slice_get roll.now stream ≡ Some its.now) }
{
    roll.streams.get(stream as usize)
}

/// Returns the block of the root of a version of a stream: 0 for version 0, and for a version that there is not.
fn root_block(roll: &Roll, stream: u32, version: u64) -> u64
    ensures { result ≡ rolled_root (slice_get roll.now stream) version }
{
    match stream_of(roll, stream) {
        Some(its) => block_of(its, version),
        None => 0,
    }
}

/// Returns the block of the root of a version: 0 for version 0, and for a version that the stream does not have.
fn block_of(its: &RollStream, version: u64) -> u64
    ensures { result ≡ rolled_root (Some its.now) version }
{
    match version_of(its, version) {
        Some(there) => there.root,
        None => 0,
    }
}

/// Returns what a version of a stream has read, if it has read something.
fn reads_of(its: &RollStream, version: u64) -> Option<Reads>
    ensures { result ≡ rolled_reads its.now version }
{
    match version_of(its, version) {
        Some(there) => there.reads,
        None => None,
    }
}

/// Returns a version of a stream, if it is not version 0 and the stream has it.
fn version_of(its: &RollStream, version: u64) -> Option<RollVersion>
    ensures { result ≡ rolled_version its.now.versions version }
{
    if version == 0 {
        return None;
    }
    its.versions.get((version - 1) as usize).copied()
}

/// Returns the rows of streams, in order.
fn stream_rows(alloc: Global, streams: &[RollStream]) -> Result<Vec<StreamRow>, AllocError>
    ensures { IfOk result (λ rows. rows.items ≡ map row_on streams.now) }
{
    let mut rows = Vec::with_capacity(alloc, streams.len())?;
    for stream in streams {
        rows.push(StreamRow {
            id: stream.id,
            latest: stream.versions.len() as u64,
            output: stream.spec.is_some(),
        })?;
    }
    Ok(rows)
}

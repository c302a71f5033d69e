//! The reasons why an entry may not follow a history, by walks over all entries.
ghost use Rattle.std.specs.Prelude.{◌≡◌, max, IfOk, Some, None};
ghost use Rattle.std.specs.Option.{option_map};
ghost use Rattle.btr_base.specs.Bag.{IsInOrder};
ghost use Rattle.btr_hist.specs.History.{spec_of, latest, reads};
ghost use Rattle.btr_hist.specs.Legal.{create_rejection, define_rejection, commit_rejection, distillate_rejection};
ghost use Rattle.btr_hist.specs.Legal.{change_rejection, distillate_change_rejection, points_rejection, first_out_of_domain};
ghost use Rattle.btr_hist.specs.Legal.{version_rejection, has_inputs, takes_reads, may_read, may_read_second};

use crate::crowded::first_crowded;
use crate::entry::Entry;
use crate::kernel::{Reads, Spec};
use crate::rejection::Rejection;
use crate::walks::{
    has_id, latest_of, points_after, points_of_version, read_by, spec_of, stream_count,
};
use btr_base::{
    Bag, END, FIRST, MAX_COMMIT_POINTS, MAX_COMMIT_RANGES, MAX_POINTS, MAX_STREAMS, MAX_VERSIONS,
    Point, Ranges, parted,
};
use std::alloc::{AllocError, Global};

/// The greatest number of ranges that a distillate may cut: 2^34.
pub const MAX_DISTILLATE_RANGES: usize = 17_179_869_184;

/// The reason why a stream with this id may not be created, or `None`.
pub(crate) fn creation(entries: &[Entry], id: u128) -> Option<Rejection>
    ensures { result ≡ create_rejection entries.now id }
{
    if has_id(entries, id) {
        return Some(Rejection::StreamExists);
    }
    if stream_count(entries) >= MAX_STREAMS {
        return Some(Rejection::StreamLimit);
    }
    None
}

/// The reason why an output with this id and spec may not be created, or `None`.
pub(crate) fn definition(entries: &[Entry], id: u128, spec: &Spec) -> Option<Rejection>
    ensures { result ≡ define_rejection entries.now id spec.now }
{
    if !has_inputs(entries, spec) {
        return Some(Rejection::NoStream);
    }
    if let Some(found) = creation(entries, id) {
        return Some(found);
    }
    if !spec.is_good() {
        return Some(Rejection::BadSpec);
    }
    None
}

/// Whether the inputs of a spec are streams.
fn has_inputs(entries: &[Entry], spec: &Spec) -> bool
    ensures { result ≡ has_inputs entries.now spec.now }
{
    let streams = stream_count(entries);
    let has_second = match spec.second {
        Some(stream) => (stream as usize) < streams,
        None => true,
    };
    (spec.first as usize) < streams && has_second
}

/// The reason why a user's commit may not follow, or `None`. An `Err` means out of memory.
pub(crate) fn commit(
    alloc: Global,
    entries: &[Entry],
    stream: u32,
    cut: &Ranges,
    added: &Bag,
) -> Result<Option<Rejection>, AllocError>
    ensures { IfOk result (λ r. r ≡ commit_rejection entries.now stream (record { cut = cut.now; added = added.now })) }
{
    if stream as usize >= stream_count(entries) {
        return Ok(Some(Rejection::NoStream));
    }
    if spec_of(entries, stream as usize).is_some() {
        return Ok(Some(Rejection::NotWritable));
    }
    if let Some(found) = change_rejection(cut, added) {
        return Ok(Some(found));
    }
    next_version(alloc, entries, stream, cut, added)
}

/// The reason why a distillate may not follow, whatever the kernel is, or `None`. An `Err` means out of memory.
pub(crate) fn distillate(
    alloc: Global,
    entries: &[Entry],
    stream: u32,
    cut: &Ranges,
    added: &Bag,
    reads: &Reads,
) -> Result<Option<Rejection>, AllocError>
    ensures { IfOk result
        (λ r. r ≡ distillate_rejection entries.now stream (record { cut = cut.now; added = added.now }) reads.now) }
{
    if stream as usize >= stream_count(entries) {
        return Ok(Some(Rejection::NoStream));
    }
    if !takes_reads(entries, stream, reads) {
        return Ok(Some(Rejection::NotWritable));
    }
    if let Some(found) = distillate_change_rejection(cut, added) {
        return Ok(Some(found));
    }
    next_version(alloc, entries, stream, cut, added)
}

/// The reason why a stream may not have a next version, with this change, or `None`: there are too many versions, or points. An
/// `Err` means out of memory.
fn next_version(
    alloc: Global,
    entries: &[Entry],
    stream: u32,
    cut: &Ranges,
    added: &Bag,
) -> Result<Option<Rejection>, AllocError>
    ensures { IfOk result (λ r. r ≡ version_rejection entries.now stream (record { cut = cut.now; added = added.now })) }
{
    let latest = latest_of(entries, stream as usize);
    if latest >= MAX_VERSIONS {
        return Ok(Some(Rejection::VersionLimit));
    }
    let bag = points_of_version(alloc, entries, stream, latest as u64)?;
    let next = points_after(alloc, &bag, cut, added)?;
    Ok(points_rejection(next.as_slice()))
}

/// Whether the stream is an output, and its next distillate may read these versions.
fn takes_reads(entries: &[Entry], stream: u32, new: &Reads) -> bool
    ensures { result ≡ takes_reads entries.now stream (spec_of entries.now stream) new.now }
{
    match spec_of(entries, stream as usize) {
        Some(spec) => may_read(entries, &spec, &last_read(entries, stream, &spec), new),
        None => false,
    }
}

/// The versions of the inputs that the latest version of an output stands for: what it has read, or version 0 of each.
pub(crate) fn last_read(entries: &[Entry], stream: u32, spec: &Spec) -> Reads
    ensures { result ≡ reads entries.now stream spec.now (latest entries.now stream) }
{
    let latest = latest_of(entries, stream as usize) as u64;
    match read_by(entries, stream, latest) {
        Some(read) => read,
        None => spec.nothing_read(),
    }
}

/// Whether a distillate may read these versions of the inputs, if the last one read the old ones.
fn may_read(entries: &[Entry], spec: &Spec, old: &Reads, new: &Reads) -> bool
    ensures { result ≡ may_read entries.now spec.now old.now new.now }
{
    old.first <= new.first
        && new.first <= latest_of(entries, spec.first as usize) as u64
        && may_read_second(entries, spec.second, old.second, new.second)
}

/// Whether this version of a second input may be read, or there is neither.
fn may_read_second(
    entries: &[Entry],
    stream: Option<u32>,
    old: Option<u64>,
    new: Option<u64>,
) -> bool
    ensures { result ≡ may_read_second entries.now stream old new }
{
    match (stream, old, new) {
        (None, None, None) => true,
        (Some(stream), Some(old), Some(new)) => {
            old <= new && new <= latest_of(entries, stream as usize) as u64
        }
        _ => false,
    }
}

/// The reason why a commit of these ranges and points is not allowed, whatever the stream holds, or `None`. It takes time logarithmic
/// in the number of points, and no memory.
pub fn change_rejection(cut: &Ranges, added: &Bag) -> Option<Rejection>
    ensures { result ≡ change_rejection (record { cut = cut.now; added = added.now }) }
{
    let cut = cut.as_slice();
    let added = added.as_slice();
    if let Some(time) = time_out_of_domain(added) {
        return Some(Rejection::OutOfDomain { time });
    }
    if cut.is_empty() && added.is_empty() {
        return Some(Rejection::Empty);
    }
    if cut.len() > MAX_COMMIT_RANGES || added.len() > MAX_COMMIT_POINTS {
        return Some(Rejection::TooMany {
            count: cut.len().max(added.len()) as u64,
        });
    }
    None
}

/// The reason why a distillate of these ranges and points is not allowed, whatever the stream holds, or `None`. It takes time
/// logarithmic in the number of points, and no memory.
pub fn distillate_change_rejection(cut: &Ranges, added: &Bag) -> Option<Rejection>
    ensures { result ≡ distillate_change_rejection (record { cut = cut.now; added = added.now }) }
{
    let cut = cut.as_slice();
    if let Some(time) = time_out_of_domain(added.as_slice()) {
        return Some(Rejection::OutOfDomain { time });
    }
    if cut.len() > MAX_DISTILLATE_RANGES {
        return Some(Rejection::TooMany {
            count: cut.len() as u64,
        });
    }
    None
}

/// The reason why a version may not hold these points, or `None`. It takes time linear in their number, and no memory.
pub fn points_rejection(points: &[Point]) -> Option<Rejection>
    requires { IsInOrder points.now }
    ensures { result ≡ points_rejection points.now }
{
    if let Some(start) = first_crowded(points) {
        return Some(Rejection::Crowded { start });
    }
    let count = points.len() as u64;
    if count > MAX_POINTS {
        return Some(Rejection::TooManyPoints { count });
    }
    None
}

/// The time of the first of some points in order that lies outside the domain. It is the first point's, or the first one's after the
/// domain.
fn time_out_of_domain(points: &[Point]) -> Option<i64>
    requires { IsInOrder points.now }
    ensures { result ≡ option_map (λ p. p.time) (first_out_of_domain points.now) }
{
    let first = points.first()?;
    if first.time < FIRST {
        return Some(first.time);
    }
    let (_, after) = parted(points, END);
    let late = after.first()?;
    Some(late.time)
}

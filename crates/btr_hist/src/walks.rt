//! Walks over the entries of a history: what the entries say of streams and of their versions.
ghost use Rattle.std.specs.Prelude.{◌≡◌, length, nat_eq, IfOk};
ghost use Rattle.std.specs.List.{list_any};
ghost use Rattle.btr_base.specs.Commit.{after};
ghost use Rattle.btr_hist.specs.History.{ids, stream_of, spec_of, latest, bag, read_by, earliest};

use crate::entry::Entry;
use crate::kernel::{Reads, Spec};
use btr_base::{Bag, Ranges};
use std::alloc::{AllocError, Global};

/// The number of streams.
pub(crate) fn stream_count(entries: &[Entry]) -> usize
    ensures { result ≡ length (ids entries.now) }
{
    let mut count = 0;
    for entry in entries {
        if let Some(_) = entry.new_id() {
            count += 1;
        }
    }
    count
}

/// The number of the first stream with this id.
pub(crate) fn stream_number(entries: &[Entry], id: u128) -> Option<usize>
    ensures { result ≡ stream_of entries.now id }
{
    let mut number = 0;
    for entry in entries {
        if let Some(other) = entry.new_id() {
            if other == id {
                return Some(number);
            }
            number += 1;
        }
    }
    None
}

/// Whether a stream has this id.
pub(crate) fn has_id(entries: &[Entry], id: u128) -> bool
    ensures { result ≡ list_any (nat_eq id) (ids entries.now) }
{
    for entry in entries {
        if let Some(other) = entry.new_id() {
            if other == id {
                return true;
            }
        }
    }
    false
}

/// The spec of an output. There is none of a plain stream.
pub(crate) fn spec_of(entries: &[Entry], stream: usize) -> Option<Spec>
    ensures { result ≡ spec_of entries.now stream }
{
    let mut left = stream;
    for entry in entries {
        if let Some(kind) = entry.new_kind() {
            if left == 0 {
                return kind;
            }
            left -= 1;
        }
    }
    None
}

/// The number of commits of a stream.
pub(crate) fn latest_of(entries: &[Entry], stream: usize) -> usize
    ensures { result ≡ latest entries.now stream }
{
    let mut count = 0;
    for entry in entries {
        if entry.is_commit_of(stream) {
            count += 1;
        }
    }
    count
}

/// The first version of a stream that is not retired: that of its last retirement, or 0 if there is none.
pub(crate) fn earliest_of(entries: &[Entry], stream: u32) -> u64
    ensures { result ≡ earliest entries.now stream }
{
    let mut first = 0;
    for entry in entries {
        if let Some(next) = entry.first(stream) {
            first = next;
        }
    }
    first
}

/// The versions of the inputs that a version of a stream has read. Version 0 has read none.
pub(crate) fn read_by(entries: &[Entry], stream: u32, version: u64) -> Option<Reads>
    ensures { result ≡ read_by entries.now stream version }
{
    if version == 0 {
        return None;
    }
    let mut left = version - 1;
    for entry in entries {
        if let Some(read) = entry.read(stream) {
            if left == 0 {
                return read;
            }
            left -= 1;
        }
    }
    None
}

/// The points of a version n: those after the first n commits of the stream. It goes through all entries, and each commit of
/// the stream costs the points that it finds. An `Err` means out of memory.
pub(crate) fn points_of_version(
    alloc: Global,
    entries: &[Entry],
    stream: u32,
    version: u64,
) -> Result<Bag, AllocError>
    ensures { IfOk result (λ b. b ≡ bag entries.now stream version) }
{
    let mut bag = Bag::from_points(Vec::new(alloc));
    let mut left = version;
    for entry in entries {
        if let Some((cut, added)) = entry.change(stream) {
            if left > 0 {
                bag = points_after(alloc, &bag, cut, added)?;
                left -= 1;
            }
        }
    }
    Ok(bag)
}

/// The points after one commit, in one pass over points and ranges. An `Err` means out of memory.
pub(crate) fn points_after(
    alloc: Global,
    bag: &Bag,
    cut: &Ranges,
    added: &Bag,
) -> Result<Bag, AllocError>
    ensures { IfOk result (λ b. b ≡ after bag.now (record { cut = cut.now; added = added.now })) }
{
    bag.outside(alloc, cut)?.merge(alloc, added)
}

//! The table of a roll: the ids differ, the inputs of outputs are before them, and outputs have read versions that are there.
ghost use Rattle.std.specs.Prelude.{◌≡◌, ◌≢◌, ℕ, ◌<◌, ◌↔◌, map, slice_get, IfOk, IfSome, IsTrue};
ghost use Rattle.std.specs.List.{AllPairs};
ghost use Rattle.std.specs.List.Sorted.{IsStrictlyIncreasing};
ghost use Rattle.btr_hist.specs.History.{nothing_read};
ghost use Rattle.btr_roll.specs.Roll.{versions_count, ReadsNext, ReadsSecond, MayReadNext, ReadInTurn, reads_of_versions};
ghost use Rattle.btr_roll.specs.Roll.{IsOutputAt, KeepsTableAt, KeepsTable};

use crate::roll::{RollStream, RollVersion};
use btr_hist::{Reads, Spec};
use std::alloc::{AllocError, Global};

/// Returns whether the ids differ and each stream keeps the table at its place. It takes time linear in the versions and n log n
/// in the streams, and memory for the ids. An `Err` means out of memory.
pub fn keeps_table(alloc: Global, streams: &[RollStream]) -> Result<bool, AllocError>
    ensures { IfOk result (λ keeps. IsTrue keeps ↔ KeepsTable streams.now) }
{
    if !each_keeps_table(streams) {
        return Ok(false);
    }
    let ids = ids_of(alloc, streams)?;
    Ok(are_distinct(ids))
}

/// Returns the ids of the streams, in their order.
fn ids_of(alloc: Global, streams: &[RollStream]) -> Result<Vec<u128>, AllocError>
    ensures { IfOk result (λ ids. ids.items ≡ map (λ s. s.id) streams.now) }
{
    let mut ids = Vec::with_capacity(alloc, streams.len())?;
    for stream in streams {
        ids.push(stream.id)?;
    }
    Ok(ids)
}

/// Returns whether no two of the ids are equal.
fn are_distinct(ids: Vec<u128>) -> bool
    ensures { IsTrue result ↔ AllPairs (λ a b. a ≢ b) ids.items }
{
    let mut sorted = ids;
    sorted.sort_unstable();
    are_rising(&sorted)
}

/// Returns whether each number is below the next.
fn are_rising(numbers: &[u128]) -> bool
    ensures { IsTrue result ↔ IsStrictlyIncreasing numbers.now }
{
    for next in 1..numbers.len() {
        if numbers[next - 1] >= numbers[next] {
            return false;
        }
    }
    true
}

/// Returns whether each stream keeps the table at its place.
fn each_keeps_table(streams: &[RollStream]) -> bool
    ensures { IsTrue result ↔ ((place : ℕ) → IfSome (slice_get streams.now place) (KeepsTableAt streams.now place)) }
{
    for place in 0..streams.len() {
        if !keeps_table_at(streams, place, &streams[place]) {
            return false;
        }
    }
    true
}

/// Returns whether the stream is plain, or an output with inputs and reads that are allowed at the place.
fn keeps_table_at(streams: &[RollStream], place: usize, stream: &RollStream) -> bool
    ensures { IsTrue result ↔ KeepsTableAt streams.now place stream.now }
{
    match &stream.spec {
        None => true,
        Some(spec) => is_output_at(streams, place, spec, &stream.versions),
    }
}

/// Returns whether the inputs of an output are before the place, and its versions have read in turn.
fn is_output_at(streams: &[RollStream], place: usize, spec: &Spec, versions: &[RollVersion]) -> bool
    ensures { IsTrue result ↔ IsOutputAt streams.now place spec.now versions.now }
{
    are_before(place, spec) && read_in_turn(streams, spec, versions)
}

/// Returns whether the inputs of a spec are before the place.
fn are_before(place: usize, spec: &Spec) -> bool
    ensures { IsTrue result ↔ ((spec.now.first < place) × IfSome spec.now.second (λ input. input < place)) }
{
    let second = match spec.second {
        Some(input) => (input as usize) < place,
        None => true,
    };
    (spec.first as usize) < place && second
}

/// Returns whether each of the versions may have read what it has after the one before it, from version 0 of each input on.
fn read_in_turn(streams: &[RollStream], spec: &Spec, versions: &[RollVersion]) -> bool
    ensures { IsTrue result
        ↔ ReadInTurn streams.now spec.now (nothing_read spec.now) (reads_of_versions versions.now) }
{
    let mut old = spec.nothing_read();
    for version in versions {
        if let Some(new) = version.reads {
            if !may_read_next(streams, spec, &old, &new) {
                return false;
            }
            old = new;
        }
    }
    true
}

/// Returns whether a version of an output may have read the new versions, if the version before it has read the old ones.
fn may_read_next(streams: &[RollStream], spec: &Spec, old: &Reads, new: &Reads) -> bool
    ensures { IsTrue result ↔ MayReadNext streams.now spec.now old.now new.now }
{
    reads_next(streams, spec.first, old.first, new.first)
        && reads_second(streams, spec.second, old.second, new.second)
}

/// Returns whether the new version of an input is not before the old one, and the input has it.
fn reads_next(streams: &[RollStream], input: u32, old: u64, new: u64) -> bool
    ensures { IsTrue result ↔ ReadsNext streams.now input old new }
{
    old <= new && new <= versions_count(streams, input)
}

/// Returns whether a version of a second input is read exactly if there is one, and it may be read after the old one.
fn reads_second(
    streams: &[RollStream],
    input: Option<u32>,
    old: Option<u64>,
    new: Option<u64>,
) -> bool
    ensures { IsTrue result ↔ ReadsSecond streams.now input old new }
{
    match (input, old, new) {
        (None, None, None) => true,
        (Some(input), Some(old), Some(new)) => reads_next(streams, input, old, new),
        _ => false,
    }
}

/// Returns the number of versions of an input, which is its latest version, or 0 if there is no stream of this number.
fn versions_count(streams: &[RollStream], input: u32) -> u64
    ensures { result ≡ versions_count (slice_get streams.now input) }
{
    match streams.get(input as usize) {
        Some(stream) => stream.versions.len() as u64,
        None => 0,
    }
}

//! The reasons why versions of a stream may not be retired, by walks over all entries.
ghost use Rattle.std.specs.Prelude.{◌≡◌, IfOk};
ghost use Rattle.btr_hist.specs.History.{kinds};
ghost use Rattle.btr_hist.specs.Legal.{first_some, read_from, lesser, least_read, held_by, held_from, retire_rejection};

use crate::entry::Entry;
use crate::kernel::{Reads, Spec};
use crate::rejecting::last_read;
use crate::rejection::Rejection;
use crate::walks::{earliest_of, latest_of, stream_count};
use std::alloc::AllocError;

/// The reason why the versions of a stream before the first may not be retired, or `None`. It costs the whole history for each output.
/// An `Err` means more streams than memory can hold.
pub(crate) fn retirement(
    entries: &[Entry],
    stream: u32,
    first: u64,
) -> Result<Option<Rejection>, AllocError>
    ensures { IfOk result (λ r. r ≡ retire_rejection entries.now stream first) }
{
    if stream as usize >= stream_count(entries) {
        return Ok(Some(Rejection::NoStream));
    }
    let present = earliest_of(entries, stream);
    let latest = latest_of(entries, stream as usize) as u64;
    if first <= present || latest < first {
        return Ok(Some(Rejection::BadFirst {
            first,
            present,
            latest,
        }));
    }
    held(entries, stream, first)
}

/// The reason why the output of the least number that holds versions of the stream before the first holds them, or `None`. An `Err`
/// means more streams than memory can hold.
fn held(entries: &[Entry], stream: u32, first: u64) -> Result<Option<Rejection>, AllocError>
    ensures { IfOk result (λ r. r ≡ first_some (held_from entries.now stream first 0 (kinds entries.now))) }
{
    let mut output = 0;
    for entry in entries {
        if let Some(kind) = entry.new_kind() {
            if output > u32::MAX as usize {
                return Err(AllocError);
            }
            if let Some(found) = held_by(entries, stream, first, output as u32, kind) {
                return Ok(Some(found));
            }
            output += 1;
        }
    }
    Ok(None)
}

/// The reason why a stream of this kind holds versions of another stream before the first, or `None`: it is an output, and was computed
/// last from one of them.
fn held_by(
    entries: &[Entry],
    stream: u32,
    first: u64,
    output: u32,
    kind: Option<Spec>,
) -> Option<Rejection>
    ensures { result ≡ held_by entries.now stream first output kind }
{
    let spec = kind?;
    let version = least_read(stream, &spec, &last_read(entries, output, &spec))?;
    if version < first {
        Some(Rejection::Held { output, version })
    } else {
        None
    }
}

/// The version of a stream among those that an output of this spec has read, if the stream is an input: the lesser one, if it is both
/// inputs.
pub fn least_read(stream: u32, spec: &Spec, read: &Reads) -> Option<u64>
    ensures { result ≡ least_read stream spec.now read.now }
{
    let first = read_from(stream, Some(spec.first), Some(read.first));
    let second = read_from(stream, spec.second, read.second);
    lesser(first, second)
}

/// The version that was read of an input, if there is one and the input is the stream.
fn read_from(stream: u32, input: Option<u32>, version: Option<u64>) -> Option<u64>
    ensures { result ≡ read_from stream input version }
{
    match (input, version) {
        (Some(input), Some(version)) => (input == stream).then_some(version),
        _ => None,
    }
}

/// The lesser of two numbers, or the one that is there, if there is one.
fn lesser(a: Option<u64>, b: Option<u64>) -> Option<u64>
    ensures { result ≡ lesser a b }
{
    match (a, b) {
        (None, other) => other,
        (Some(a), None) => Some(a),
        (Some(a), Some(b)) => Some(a.min(b)),
    }
}

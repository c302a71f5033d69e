//! How many bytes the parts of a checkpoint's content have.
ghost use Rattle.std.specs.Prelude.{◌≡◌, ◌+◌, ◌*◌, ◌<◌, ◌≤◌, ◌^◌, ℕ, length, slice_get, Some};
ghost use Rattle.std.specs.List.{flat_map};
ghost use Rattle.btr_base.specs.declared.limits.TheConstants.{MAX_STREAMS, MAX_VERSIONS};
ghost use Rattle.btr_roll.specs.Roll.{RollStreamValue, has_firsts, first_bytes, stream_bytes, version_bytes, kind_bytes};

use crate::roll::{RollStream, RollVersion};
use btr_entry::{reads_length, spec_length};
use btr_hist::Spec;

/// Returns whether a checkpoint of this format has the first versions that are not retired. It takes constant time and no memory.
pub fn has_firsts(format: u32) -> bool
    ensures { result ≡ has_firsts format }
{
    format >= 2
}

/// Returns the number of bytes of streams in a checkpoint of this format, in time linear in the streams and versions. It takes no
/// memory.
pub fn streams_length(format: u32, streams: &[RollStream]) -> u64
    requires few { length streams.now ≤ MAX_STREAMS }
    requires each { (n : ℕ) (s : RollStreamValue) → slice_get streams.now n ≡ Some s → length s.versions ≤ MAX_VERSIONS }
    ensures length { result ≡ length (flat_map (stream_bytes format) streams.now) }
    ensures small { result ≤ (84 + 33 * MAX_VERSIONS) * length streams.now }
{
    let mut bytes = 0;
    for stream in streams {
        bytes += stream_length(format, stream);
    }
    bytes
}

/// Returns the number of bytes of a stream.
fn stream_length(format: u32, stream: &RollStream) -> u64
    requires few { length stream.now.versions ≤ MAX_VERSIONS }
    ensures length { result ≡ length (stream_bytes format stream.now) }
    ensures small { result ≤ 84 + 33 * MAX_VERSIONS }
{
    32 + kind_length(&stream.spec) + first_length(format) + versions_length(&stream.versions)
}

/// Returns the number of bytes of the first version that is not retired, in a checkpoint of this format. It takes constant time and no
/// memory.
pub fn first_length(format: u32) -> u64
    ensures length { (first : ℕ) → result ≡ length (first_bytes (has_firsts format) first) }
    ensures small { result ≤ 8 }
{
    if has_firsts(format) { 8 } else { 0 }
}

/// Returns the number of bytes of versions, in time linear in the versions. It takes no memory.
pub fn versions_length(versions: &[RollVersion]) -> u64
    requires few { length versions.now ≤ MAX_VERSIONS }
    ensures length { result ≡ length (flat_map version_bytes versions.now) }
    ensures small { result ≤ 33 * length versions.now }
{
    let mut bytes = 0;
    for version in versions {
        bytes += version_length(version);
    }
    bytes
}

/// Returns the number of bytes of a version.
fn version_length(version: &RollVersion) -> u64
    ensures length { result ≡ length (version_bytes version.now) }
    ensures small { result ≤ 33 }
{
    match &version.reads {
        None => 16,
        Some(reads) => 16 + reads_length(reads),
    }
}

/// Returns the number of bytes of the kind of a stream. It takes constant time and no memory.
pub fn kind_length(spec: &Option<Spec>) -> u64
    ensures length { result ≡ length (kind_bytes spec.now) }
    ensures small { result ≤ 44 }
{
    match spec {
        None => 1,
        Some(spec) => 1 + spec_length(spec),
    }
}

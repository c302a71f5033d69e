//! The streams of a roll and their versions, from their bytes. Each count is compared with the bytes that are left before
//! memory is taken for it: a version has at least 16 bytes, and a stream at least 33.
ghost use Rattle.std.specs.Prelude.{◌≡◌, ℕ, ◌≤◌, ◌++◌, List, Option, IfOk, IfSome, IfNone};
ghost use Rattle.btr_base.specs.declared.limits.TheConstants.{MAX_VERSIONS};
ghost use Rattle.btr_hist.specs.declared.kernel.Spec.{Spec as SpecValue};
ghost use Rattle.btr_hist.specs.declared.kernel.Reads.{Reads as ReadsSpec};
ghost use Rattle.btr_roll.specs.declared.roll.RollVersion.{RollVersion as VersionSpec};
ghost use Rattle.btr_entry.specs.Grammar.{IsSpec};
ghost use Rattle.btr_roll.specs.Roll.{RollStreamValue, kind_format, some_reads_bytes, version_bytes, kind_bytes, first_bytes, stream_bytes};
ghost use Rattle.btr_roll.specs.Roll.{ReadsFit, VersionFits, FirstFits, StreamFits};
ghost use Rattle.btr_roll.specs.Items.{IsStreamStart, AreItems};

use crate::lengths::has_firsts;
use crate::roll::{RollStream, RollVersion};
use btr_base::MAX_VERSIONS;
use btr_entry::{read_id, read_reads, read_spec, read_u64, spec_format};
use btr_hist::{Reads, Spec};
use std::alloc::{AllocError, Global};

/// Reads this many streams from the first bytes, and returns them with the bytes after them. Returns `None` if the bytes do
/// not begin with this many streams that fit. An `Err` means out of memory.
pub fn read_streams(
    alloc: Global,
    format: u32,
    bytes: &[u8],
    count: usize,
) -> Result<Option<(Vec<RollStream>, &[u8])>, AllocError>
    ensures some { IfOk result (λ o. IfSome o (λ x.
        AreItems (stream_bytes format) (StreamFits format) count bytes.now x.0.items x.1.now)) }
    ensures none { IfOk result (λ o. IfNone o ((streams : List RollStreamValue) (rest : List ℕ)
        → AreItems (stream_bytes format) (StreamFits format) count bytes.now streams rest → ⊥)) }
{
    if count > bytes.len() / 33 {
        return Ok(None);
    }
    let mut streams = Vec::with_capacity(alloc, count)?;
    let mut rest = bytes;
    while streams.len() < count {
        let Some((stream, after)) = read_stream(alloc, format, rest)? else {
            return Ok(None);
        };
        streams.push(stream)?;
        rest = after;
    }
    Ok(Some((streams, rest)))
}

/// Reads a stream from the first bytes, and returns it with the bytes after it. Returns `None` if the bytes do not begin with
/// a stream that fits in a checkpoint of this format.
fn read_stream(
    alloc: Global,
    format: u32,
    bytes: &[u8],
) -> Result<Option<(RollStream, &[u8])>, AllocError>
    ensures some { IfOk result (λ o. IfSome o (λ x. bytes.now ≡ stream_bytes format x.0 ++ x.1.now)) }
    ensures fits { IfOk result (λ o. IfSome o (λ x. StreamFits format x.0)) }
    ensures none { IfOk result (λ o. IfNone o ((s : RollStreamValue) (rest : List ℕ)
        → StreamFits format s → bytes.now ≡ stream_bytes format s ++ rest → ⊥)) }
{
    let Some((id, entry, spec, count, rest)) = read_stream_start(bytes) else {
        return Ok(None);
    };
    if kind_format(&spec) > format {
        return Ok(None);
    }
    let Some((first, rest)) = read_first(has_firsts(format), rest, count) else {
        return Ok(None);
    };
    let Some((versions, rest)) = read_versions(alloc, rest, count, spec.is_some())? else {
        return Ok(None);
    };
    Ok(Some((
        RollStream {
            id,
            entry,
            spec,
            first,
            versions,
        },
        rest,
    )))
}

/// Reads from the first bytes the id of a stream, the number of its entry, the spec of an output and the number of versions,
/// and returns them with the bytes after them.
fn read_stream_start(bytes: &[u8]) -> Option<(u128, u64, Option<Spec>, usize, &[u8])>
    ensures some { IfSome result (λ x. IsStreamStart bytes.now x.0 x.1 x.2 x.3 x.4.now) }
    ensures none { IfNone result ((id entry : ℕ) (spec : Option SpecValue) (count : ℕ) (rest : List ℕ)
        → IsStreamStart bytes.now id entry spec count rest → ⊥) }
{
    let (id, rest) = read_id(bytes)?;
    let (entry, rest) = read_u64(rest)?;
    let (spec, rest) = read_kind(rest)?;
    let (count, rest) = read_u64(rest)?;
    if count > MAX_VERSIONS as u64 {
        return None;
    }
    Some((id, entry, spec, count as usize, rest))
}

/// Returns the least format of a checkpoint that can have a stream of this kind.
fn kind_format(spec: &Option<Spec>) -> u32
    ensures { result ≡ kind_format spec.now }
{
    match spec {
        None => 1,
        Some(spec) => spec_format(spec),
    }
}

/// Reads the first version that is not retired, if the checkpoint has it, and returns it with the bytes after it: 0 if it has none.
/// Returns `None` if a stream with this latest version can have no such first version.
fn read_first(has: bool, bytes: &[u8], latest: usize) -> Option<(u64, &[u8])>
    requires { latest ≤ MAX_VERSIONS }
    ensures some { IfSome result (λ x. bytes.now ≡ first_bytes has x.0 ++ x.1.now) }
    ensures fits { IfSome result (λ x. FirstFits has latest x.0) }
    ensures none { IfNone result ((first : ℕ) (rest : List ℕ)
        → FirstFits has latest first → bytes.now ≡ first_bytes has first ++ rest → ⊥) }
{
    if !has {
        return Some((0, bytes));
    }
    let (first, rest) = read_u64(bytes)?;
    if first > latest as u64 {
        return None;
    }
    Some((first, rest))
}

/// Reads the kind of a stream, and returns the spec of an output with the bytes after it.
fn read_kind(bytes: &[u8]) -> Option<(Option<Spec>, &[u8])>
    ensures some { IfSome result (λ x. bytes.now ≡ kind_bytes x.0 ++ x.1.now) }
    ensures fits { IfSome result (λ x. IfSome x.0 IsSpec) }
    ensures none { IfNone result ((spec : Option SpecValue) (rest : List ℕ)
        → IfSome spec IsSpec → bytes.now ≡ kind_bytes spec ++ rest → ⊥) }
{
    let (kind, rest) = bytes.split_first()?;
    match *kind {
        0 => Some((None, rest)),
        1 => {
            let (spec, rest) = read_spec(rest)?;
            Some((Some(spec), rest))
        }
        _ => None,
    }
}

/// Reads this many versions, of an output or of a plain stream, from the first bytes, and returns them with the bytes after
/// them. Returns `None` if the bytes do not begin with this many versions that fit. An `Err` means out of memory.
fn read_versions(
    alloc: Global,
    bytes: &[u8],
    count: usize,
    output: bool,
) -> Result<Option<(Vec<RollVersion>, &[u8])>, AllocError>
    ensures some { IfOk result (λ o. IfSome o (λ x. AreItems version_bytes (VersionFits output) count bytes.now x.0.items x.1.now)) }
    ensures none { IfOk result (λ o. IfNone o ((versions : List VersionSpec) (rest : List ℕ)
        → AreItems version_bytes (VersionFits output) count bytes.now versions rest → ⊥)) }
{
    if count > bytes.len() / 16 {
        return Ok(None);
    }
    let mut versions = Vec::with_capacity(alloc, count)?;
    let mut rest = bytes;
    while versions.len() < count {
        let Some((version, after)) = read_version(rest, output) else {
            return Ok(None);
        };
        versions.push(version)?;
        rest = after;
    }
    Ok(Some((versions, rest)))
}

/// Reads a version, of an output or of a plain stream, from the first bytes, and returns it with the bytes after it.
fn read_version(bytes: &[u8], output: bool) -> Option<(RollVersion, &[u8])>
    ensures some { IfSome result (λ x. bytes.now ≡ version_bytes x.0 ++ x.1.now) }
    ensures fits { IfSome result (λ x. VersionFits output x.0) }
    ensures none { IfNone result ((v : VersionSpec) (rest : List ℕ)
        → VersionFits output v → bytes.now ≡ version_bytes v ++ rest → ⊥) }
{
    let (entry, rest) = read_u64(bytes)?;
    let (root, rest) = read_u64(rest)?;
    let (reads, rest) = read_some_reads(rest, output)?;
    Some((RollVersion { entry, root, reads }, rest))
}

/// Reads what a version of an output has read, and nothing for a version of a plain stream.
fn read_some_reads(bytes: &[u8], output: bool) -> Option<(Option<Reads>, &[u8])>
    ensures some { IfSome result (λ x. bytes.now ≡ some_reads_bytes x.0 ++ x.1.now) }
    ensures fits { IfSome result (λ x. ReadsFit output x.0) }
    ensures none { IfNone result ((reads : Option ReadsSpec) (rest : List ℕ)
        → ReadsFit output reads → bytes.now ≡ some_reads_bytes reads ++ rest → ⊥) }
{
    if !output {
        return Some((None, bytes));
    }
    let (reads, rest) = read_reads(bytes)?;
    Some((Some(reads), rest))
}

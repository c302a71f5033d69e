ghost use Rattle.std.specs.Prelude.{◌∷◌, IfOk, IfSome, IfNone};
ghost use Rattle.btr_hist.specs.declared.entry.Entry.{Entry as EntrySpec};
ghost use Rattle.btr_entry.specs.Grammar.{IsEntry};

use crate::fields::{read_id, read_u32};
use crate::lists::read_change;
use crate::reads_bytes::{read_reads, read_version};
use crate::spec_bytes::read_spec;
use btr_base::{MAX_COMMIT_POINTS, MAX_COMMIT_RANGES, MAX_POINTS};
use btr_hist::{Entry, MAX_DISTILLATE_RANGES};
use std::alloc::{AllocError, Global};

/// Decodes all of the bytes into the entry that they spell. Returns `None` if they spell none. An `Err` means out of
/// memory.
///
/// It takes time linear in the bytes, and memory for the ranges and points. Each count is compared with the bytes that
/// are left before memory is taken for it.
pub fn decode(alloc: Global, bytes: &[u8]) -> Result<Option<Entry>, AllocError>
    // The bytes are the spelling of the entry that is returned.
    ensures found { IfOk result (λ o. IfSome o (λ e. IsEntry bytes.now e)) }
    // If none is returned, the bytes are the spelling of no entry.
    ensures none { IfOk result (λ o. IfNone o ((e : EntrySpec) → IsEntry bytes.now e → ⊥)) }
{
    match bytes {
        [1, rest @ ..] => Ok(read_create(rest)),
        [2, rest @ ..] => read_commit(alloc, rest),
        [3, rest @ ..] => Ok(read_define(rest)),
        [4, rest @ ..] => read_distillate(alloc, rest),
        [5, rest @ ..] => Ok(read_retirement(rest)),
        _ => Ok(None),
    }
}

/// Reads the rest of a create, after the first byte 1.
fn read_create(bytes: &[u8]) -> Option<Entry>
    ensures found { IfSome result (λ e. IsEntry (1 ∷ bytes.now) e) }
    ensures none { IfNone result ((e : EntrySpec) → IsEntry (1 ∷ bytes.now) e → ⊥) }
{
    let (id, rest) = read_id(bytes)?;
    if !rest.is_empty() {
        return None;
    }
    Some(Entry::Create { id })
}

/// Reads the rest of a commit, after the first byte 2.
fn read_commit(alloc: Global, bytes: &[u8]) -> Result<Option<Entry>, AllocError>
    ensures found { IfOk result (λ o. IfSome o (λ e. IsEntry (2 ∷ bytes.now) e)) }
    ensures none { IfOk result (λ o. IfNone o ((e : EntrySpec) → IsEntry (2 ∷ bytes.now) e → ⊥)) }
{
    let Some((stream, rest)) = read_u32(bytes) else {
        return Ok(None);
    };
    let change = read_change(
        alloc,
        rest,
        MAX_COMMIT_RANGES as u64,
        MAX_COMMIT_POINTS as u64,
    )?;
    let Some((cut, added)) = change else {
        return Ok(None);
    };
    if cut.as_slice().is_empty() && added.as_slice().is_empty() {
        return Ok(None);
    }
    Ok(Some(Entry::Commit { stream, cut, added }))
}

/// Reads the rest of the definition of an output, after the first byte 3.
fn read_define(bytes: &[u8]) -> Option<Entry>
    ensures found { IfSome result (λ e. IsEntry (3 ∷ bytes.now) e) }
    ensures none { IfNone result ((e : EntrySpec) → IsEntry (3 ∷ bytes.now) e → ⊥) }
{
    let (id, rest) = read_id(bytes)?;
    let (spec, rest) = read_spec(rest)?;
    if !rest.is_empty() {
        return None;
    }
    Some(Entry::Define { id, spec })
}

/// Reads the rest of a distillate, after the first byte 4.
fn read_distillate(alloc: Global, bytes: &[u8]) -> Result<Option<Entry>, AllocError>
    ensures found { IfOk result (λ o. IfSome o (λ e. IsEntry (4 ∷ bytes.now) e)) }
    ensures none { IfOk result (λ o. IfNone o ((e : EntrySpec) → IsEntry (4 ∷ bytes.now) e → ⊥)) }
{
    let Some((stream, rest)) = read_u32(bytes) else {
        return Ok(None);
    };
    let Some((reads, rest)) = read_reads(rest) else {
        return Ok(None);
    };
    let Some((cut, added)) = read_change(alloc, rest, MAX_DISTILLATE_RANGES as u64, MAX_POINTS)?
    else {
        return Ok(None);
    };
    Ok(Some(Entry::Distillate {
        stream,
        cut,
        added,
        reads,
    }))
}

/// Reads the rest of a retirement, after the first byte 5.
fn read_retirement(bytes: &[u8]) -> Option<Entry>
    ensures found { IfSome result (λ e. IsEntry (5 ∷ bytes.now) e) }
    ensures none { IfNone result ((e : EntrySpec) → IsEntry (5 ∷ bytes.now) e → ⊥) }
{
    let (stream, rest) = read_u32(bytes)?;
    let (first, rest) = read_version(rest)?;
    if first == 0 {
        return None;
    }
    if !rest.is_empty() {
        return None;
    }
    Some(Entry::Retire { stream, first })
}

ghost use Rattle.std.specs.Prelude.{◌≡◌, ◌++◌, ◌∷◌, ℕ, ◌+◌, ◌*◌, length, List, IfOk, OnOk, IsTrue};
ghost use Rattle.std.specs.Int.{w32, w64, w128};
ghost use Rattle.std.specs.List.{flat_map};
ghost use Rattle.btr_base.specs.Bag.{IsInOrder};
ghost use Rattle.btr_hist.specs.Kernel.{is_good};
ghost use Rattle.btr_entry.specs.Grammar.{number, range, point, listed, spec_bytes, reads_bytes, spelling};
ghost use Rattle.btr_entry.specs.Grammar.{IsBounded, IsBoundedDistillate, IsWithinBounds};
ghost use Rattle.btr_entry.specs.Grammar.{IsCommit, IsOutput, IsDistilled, IsFirstVersion, IsRetirement, IsSpelled, ValuesFit};

use crate::fields::{put_byte, put_id, put_signed, put_u32, put_u64};
use crate::reads_bytes::{put_reads, reads_length};
use crate::spec_bytes::{put_spec, spec_length};
use btr_base::{Bag, Point, Range, Ranges};
use btr_hist::{Entry, Reads, Spec};
use std::alloc::AllocError;

/// Appends the one spelling of an entry, [`spelling_length`] bytes. It takes time linear in the spelling. An `Err` means out of memory,
/// and a part of the spelling may have been appended.
pub fn append_entry(out: &mut Vec<u8>, entry: &Entry) -> Result<(), AllocError>
    requires { IsWithinBounds entry.now }
    ensures bytes { OnOk result (out.new.items ≡ out.old.items ++ spelling entry.now) }
    ensures spelled { OnOk result (IsSpelled entry.now) }
{
    let points = append_before_points(out, entry)?;
    append_points(out, points)
}

/// Appends the spelling of an entry up to its points, and returns the points, whose bytes are the rest of it: none if the entry is no
/// commit. It takes time linear in the ranges of the cut. An `Err` means out of memory, and a part may have been appended.
pub fn append_before_points<'a>(
    out: &mut Vec<u8>,
    entry: &'a Entry,
) -> Result<&'a [Point], AllocError>
    requires { IsWithinBounds entry.now }
    ensures bytes { IfOk result (λ p. out.new.items ++ flat_map point p.now ≡ out.old.items ++ spelling entry.now) }
    ensures spelled { IfOk result (λ p. ValuesFit p.now → IsSpelled entry.now) }
{
    match entry {
        Entry::Create { id } => put_create(out, *id)?,
        Entry::Define { id, spec } => put_define(out, *id, spec)?,
        Entry::Commit { stream, cut, added } => return put_commit(out, *stream, cut, added),
        Entry::Distillate {
            stream,
            cut,
            added,
            reads,
        } => return put_distillate(out, *stream, cut, added, reads),
        Entry::Retire { stream, first } => put_retirement(out, *stream, *first)?,
    }
    Ok(&[])
}

/// Appends the bytes of points, 16 for each. It takes linear time. An `Err` means out of memory, and a part may have been appended.
pub fn append_points(out: &mut Vec<u8>, points: &[Point]) -> Result<(), AllocError>
    ensures bytes { OnOk result (out.new.items ≡ out.old.items ++ flat_map point points.now) }
    ensures values { OnOk result (ValuesFit points.now) }
{
    for point in points {
        put_signed(out, point.time)?;
        put_signed(out, point.value)?;
    }
    Ok(())
}

/// Returns the number of bytes of an entry's spelling. It takes constant time and no memory.
pub fn spelling_length(entry: &Entry) -> u64
    requires { IsWithinBounds entry.now }
    ensures { result ≡ length (spelling entry.now) }
{
    match entry {
        Entry::Create { .. } => 17,
        Entry::Commit { cut, added, .. } => {
            let ranges = cut.as_slice().len();
            let points = added.as_slice().len();
            21 + 16 * (ranges as u64 + points as u64)
        }
        Entry::Define { spec, .. } => 17 + spec_length(spec),
        Entry::Distillate {
            cut,
            added,
            reads,
            ..
        } => {
            let ranges = cut.as_slice().len();
            let points = added.as_slice().len();
            21 + reads_length(reads) + 16 * (ranges as u64 + points as u64)
        }
        Entry::Retire { .. } => 13,
    }
}

/// Appends the spelling of a create.
fn put_create(out: &mut Vec<u8>, id: u128) -> Result<(), AllocError>
    ensures { OnOk result (out.new.items ≡ out.old.items ++ 1 ∷ number w128 id) }
{
    put_byte(out, 1)?;
    put_id(out, id)
}

/// Appends the spelling of a commit up to its points, and returns the points.
fn put_commit<'a>(
    out: &mut Vec<u8>,
    stream: u32,
    cut: &Ranges,
    added: &'a Bag,
) -> Result<&'a [Point], AllocError>
    requires { IsBounded cut.now added.now }
    ensures bytes { IfOk result (λ p. out.new.items ++ flat_map point p.now
        ≡ out.old.items ++ 2 ∷ (number w32 stream ++ listed range cut.now ++ listed point added.now)) }
    ensures spelled { IfOk result (λ p. ValuesFit p.now → IsCommit stream cut.now added.now) }
{
    put_byte(out, 2)?;
    put_u32(out, stream)?;
    put_ranges(out, cut.as_slice())?;
    put_count(out, added)
}

/// Appends the spelling of the definition of an output.
fn put_define(out: &mut Vec<u8>, id: u128, spec: &Spec) -> Result<(), AllocError>
    requires { IsTrue (is_good spec.now) }
    ensures bytes { OnOk result (out.new.items ≡ out.old.items ++ 3 ∷ (number w128 id ++ spec_bytes spec.now)) }
    ensures spelled { OnOk result (IsOutput id spec.now) }
{
    put_byte(out, 3)?;
    put_id(out, id)?;
    put_spec(out, spec)
}

/// Appends the spelling of a distillate up to its points, and returns the points.
fn put_distillate<'a>(
    out: &mut Vec<u8>,
    stream: u32,
    cut: &Ranges,
    added: &'a Bag,
    reads: &Reads,
) -> Result<&'a [Point], AllocError>
    requires { IsBoundedDistillate cut.now added.now reads.now }
    ensures bytes { IfOk result (λ p. out.new.items ++ flat_map point p.now
        ≡ out.old.items ++ 4 ∷ (number w32 stream ++ (reads_bytes reads.now ++ (listed range cut.now ++ listed point added.now)))) }
    ensures spelled { IfOk result (λ p. ValuesFit p.now → IsDistilled stream cut.now added.now reads.now) }
{
    put_byte(out, 4)?;
    put_u32(out, stream)?;
    put_reads(out, reads)?;
    put_ranges(out, cut.as_slice())?;
    put_count(out, added)
}

/// Appends the spelling of a retirement.
fn put_retirement(out: &mut Vec<u8>, stream: u32, first: u64) -> Result<(), AllocError>
    requires { IsFirstVersion first }
    ensures bytes { OnOk result (out.new.items ≡ out.old.items ++ 5 ∷ (number w32 stream ++ number w64 first)) }
    ensures spelled { OnOk result (IsRetirement stream first) }
{
    put_byte(out, 5)?;
    put_u32(out, stream)?;
    put_u64(out, first)
}

/// Appends the number of points, and returns the points.
fn put_count<'a>(out: &mut Vec<u8>, added: &'a Bag) -> Result<&'a [Point], AllocError>
    ensures points { IfOk result (λ p. p.now ≡ added.now) }
    ensures order { OnOk result (IsInOrder added.now) }
    ensures bytes { IfOk result (λ p. out.new.items ++ flat_map point p.now ≡ out.old.items ++ listed point added.now) }
{
    let points = added.as_slice();
    put_u64(out, points.len() as u64)?;
    Ok(points)
}

/// Appends the number of ranges and each range.
fn put_ranges(out: &mut Vec<u8>, ranges: &[Range]) -> Result<(), AllocError>
    ensures { OnOk result (out.new.items ≡ out.old.items ++ listed range ranges.now) }
{
    put_u64(out, ranges.len() as u64)?;
    for range in ranges {
        put_signed(out, range.from)?;
        put_signed(out, range.to)?;
    }
    Ok(())
}

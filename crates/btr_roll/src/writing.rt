//! The bytes of a roll, piece by piece.
ghost use Rattle.std.specs.Prelude.{◌≡◌, ◌++◌, IfSome, IsTrue, OnOk};
ghost use Rattle.std.specs.List.{flat_map};
ghost use Rattle.btr_hist.specs.Kernel.{is_good};
ghost use Rattle.btr_roll.specs.Roll.{some_reads_bytes, version_bytes, kind_bytes, first_bytes, stream_bytes, roll_bytes};
ghost use Rattle.btr_roll.specs.Roll.{IsRollWithinBounds};

use crate::lengths::has_firsts;
use crate::roll::{RollStream, RollVersion};
use btr_entry::{put_byte, put_id, put_reads, put_spec, put_u32, put_u64};
use btr_hist::{Reads, Spec};
use std::alloc::AllocError;

/// Appends the number of streams and each stream.
pub fn put_roll(out: &mut Vec<u8>, format: u32, streams: &[RollStream]) -> Result<(), AllocError>
    requires { IsRollWithinBounds streams.now }
    ensures { OnOk result (out.new.items ≡ out.old.items ++ roll_bytes format streams.now) }
{
    put_u32(out, streams.len() as u32)?;
    for stream in streams {
        put_stream(out, format, stream)?;
    }
    Ok(())
}

/// Appends a stream with its versions.
fn put_stream(out: &mut Vec<u8>, format: u32, stream: &RollStream) -> Result<(), AllocError>
    requires { IfSome stream.now.spec (λ spec. IsTrue (is_good spec)) }
    ensures { OnOk result (out.new.items ≡ out.old.items ++ stream_bytes format stream.now) }
{
    put_id(out, stream.id)?;
    put_u64(out, stream.entry)?;
    put_kind(out, &stream.spec)?;
    put_u64(out, stream.versions.len() as u64)?;
    put_first(out, has_firsts(format), stream.first)?;
    put_versions(out, &stream.versions)
}

/// Appends the first version that is not retired, if the checkpoint has it.
fn put_first(out: &mut Vec<u8>, has: bool, first: u64) -> Result<(), AllocError>
    ensures { OnOk result (out.new.items ≡ out.old.items ++ first_bytes has first) }
{
    if has {
        put_u64(out, first)?;
    }
    Ok(())
}

/// Appends the kind of a stream, with the spec of an output.
fn put_kind(out: &mut Vec<u8>, spec: &Option<Spec>) -> Result<(), AllocError>
    requires { IfSome spec.now (λ s. IsTrue (is_good s)) }
    ensures { OnOk result (out.new.items ≡ out.old.items ++ kind_bytes spec.now) }
{
    match spec {
        None => put_byte(out, 0),
        Some(spec) => {
            put_byte(out, 1)?;
            put_spec(out, spec)
        }
    }
}

/// Appends each version.
fn put_versions(out: &mut Vec<u8>, versions: &[RollVersion]) -> Result<(), AllocError>
    ensures { OnOk result (out.new.items ≡ out.old.items ++ flat_map version_bytes versions.now) }
{
    for version in versions {
        put_version(out, version)?;
    }
    Ok(())
}

/// Appends a version.
fn put_version(out: &mut Vec<u8>, version: &RollVersion) -> Result<(), AllocError>
    ensures { OnOk result (out.new.items ≡ out.old.items ++ version_bytes version.now) }
{
    put_u64(out, version.entry)?;
    put_u64(out, version.root)?;
    put_some_reads(out, &version.reads)
}

/// Appends what a version has read, if it has.
fn put_some_reads(out: &mut Vec<u8>, reads: &Option<Reads>) -> Result<(), AllocError>
    ensures { OnOk result (out.new.items ≡ out.old.items ++ some_reads_bytes reads.now) }
{
    match reads {
        None => Ok(()),
        Some(reads) => put_reads(out, reads),
    }
}

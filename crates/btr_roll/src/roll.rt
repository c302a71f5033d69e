//! The content of a checkpoint: the streams of a store with their versions, as bytes and back.
ghost use Rattle.std.specs.Prelude.{◌≡◌, List, IfOk, IfSome, IfNone};
ghost use Rattle.btr_roll.specs.Roll.{RollStreamValue, roll_bytes, RollFits, IsRoll, IsRollBytes, IsRollWithinBounds};

use crate::reading::read_streams;
use crate::table::keeps_table;
use crate::writing::put_roll;
use btr_base::MAX_STREAMS;
use btr_entry::read_u32;
use btr_hist::{Reads, Spec};
use std::alloc::{AllocError, Global};
use std::marker::Model;

/// A version of a stream.
#[derive(Clone, Copy)]
pub struct RollVersion {
    /// The number of the entry that made the version, from 1.
    pub entry: u64,

    /// The block of the root of the version's tree, or 0 if the version has no point.
    pub root: u64,

    /// The versions of the inputs that it was computed from, if the stream is an output.
    pub reads: Option<Reads>,
}

/// A stream with its versions. Its number is its place among the streams of the roll, from 0.
#[derive(Drop)]
pub struct RollStream {
    pub id: u128,

    /// The number of the entry that made the stream, from 1.
    pub entry: u64,

    /// The spec, if the stream is an output.
    pub spec: Option<Spec>,

    /// The first version that is not retired, or 0 if none is retired.
    pub first: u64,

    /// The versions, from version 1 on.
    pub versions: Vec<RollVersion>,
}

impl Model for RollStream {
    ghost use Rattle.btr_roll.specs.Roll.{RollStreamValue};

    ghost Value = { RollStreamValue };

    ghost view = { λ s. record { id = s.id; entry = s.entry; spec = s.spec; first = s.first; versions = s.versions.items } };
}

/// All streams of a store with their versions, in order of creation: what a checkpoint has.
#[derive(Drop)]
pub struct Roll {
    pub streams: Vec<RollStream>,
}

impl Model for Roll {
    ghost use Rattle.std.specs.Prelude.{List};
    ghost use Rattle.btr_roll.specs.Roll.{RollStreamValue};

    ghost Value = { List RollStreamValue };

    ghost view = { λ r. r.streams.items };
}

/// Encodes a roll for a checkpoint of this format. It takes time linear in the bytes. It does not test the table: an `Ok` says nothing of
/// whether [`decode_roll`] accepts the bytes. An `Err` means out of memory.
pub fn encode_roll(alloc: Global, format: u32, roll: &Roll) -> Result<Vec<u8>, AllocError>
    requires { IsRollWithinBounds roll.now }
    ensures bytes { IfOk result (λ v. v.items ≡ roll_bytes format roll.now) }
    ensures spelled { IsRoll format roll.now → IfOk result (λ v. IsRollBytes format v.items roll.now) }
{
    let mut out = Vec::new(alloc);
    put_roll(&mut out, format, &roll.streams)?;
    Ok(out)
}

/// Decodes all of the bytes into the roll that they spell in a checkpoint of this format. Returns `None` if they spell none that a
/// checkpoint can have. An `Err` means out of memory.
///
/// It takes time linear in the bytes, and n log n in the number of streams, and memory linear in the bytes. Each count is
/// compared with the bytes that are left before memory is taken for it.
pub fn decode_roll(alloc: Global, format: u32, bytes: &[u8]) -> Result<Option<Roll>, AllocError>
    // The bytes are those of the roll that is returned.
    ensures found { IfOk result (λ o. IfSome o (λ roll. IsRollBytes format bytes.now roll)) }
    // If none is returned, the bytes are those of no roll.
    ensures none { IfOk result (λ o. IfNone o ((roll : List RollStreamValue) → IsRollBytes format bytes.now roll → ⊥)) }
{
    let Some(streams) = read_roll(alloc, format, bytes)? else {
        return Ok(None);
    };
    if !keeps_table(alloc, &streams)? {
        return Ok(None);
    }
    Ok(Some(Roll { streams }))
}

/// Reads all of the bytes as streams, and does not test the table. Returns `None` if no streams that fit have these bytes.
fn read_roll(
    alloc: Global,
    format: u32,
    bytes: &[u8],
) -> Result<Option<Vec<RollStream>>, AllocError>
    ensures fits { IfOk result (λ o. IfSome o (λ v. RollFits format v.items)) }
    ensures found { IfOk result (λ o. IfSome o (λ v. bytes.now ≡ roll_bytes format v.items)) }
    ensures none { IfOk result (λ o. IfNone o ((streams : List RollStreamValue)
        → RollFits format streams → bytes.now ≡ roll_bytes format streams → ⊥)) }
{
    let Some((count, rest)) = read_u32(bytes) else {
        return Ok(None);
    };
    if count as usize > MAX_STREAMS {
        return Ok(None);
    }
    let Some((streams, rest)) = read_streams(alloc, format, rest, count as usize)? else {
        return Ok(None);
    };
    if !rest.is_empty() {
        return Ok(None);
    }
    Ok(Some(streams))
}

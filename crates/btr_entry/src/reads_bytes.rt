//! The versions that a distillate was computed from as bytes, and back.
ghost use Rattle.std.specs.Prelude.{◌≡◌, ◌≤◌, ℕ, List, ◌++◌, length, IfSome, IfNone, OnOk};
ghost use Rattle.std.specs.Int.{w64};
ghost use Rattle.btr_hist.specs.declared.kernel.Reads.{Reads as ReadsSpec};
ghost use Rattle.btr_entry.specs.Grammar.{number, reads_bytes, AreVersions};

use crate::fields::{put_byte, put_u64, read_u64};
use btr_base::MAX_VERSIONS;
use btr_hist::Reads;
use std::alloc::AllocError;

/// Returns the number of bytes of versions. It takes constant time and no memory.
pub fn reads_length(reads: &Reads) -> u64
    ensures length { result ≡ length (reads_bytes reads.now) }
    ensures small { result ≤ 17 }
{
    match reads.second {
        Some(_) => 17,
        None => 9,
    }
}

/// Appends the number of inputs, and the version of each.
pub fn put_reads(out: &mut Vec<u8>, reads: &Reads) -> Result<(), AllocError>
    ensures { OnOk result (out.new.items ≡ out.old.items ++ reads_bytes reads.now) }
{
    match reads.second {
        None => {
            put_byte(out, 1)?;
            put_u64(out, reads.first)
        }
        Some(second) => {
            put_byte(out, 2)?;
            put_u64(out, reads.first)?;
            put_u64(out, second)
        }
    }
}

/// Reads the number of inputs and the version of each, and returns them with the bytes after them. Returns `None` if
/// there is not one input, or two, or a version is one that no stream can have, or there are fewer bytes.
pub fn read_reads(bytes: &[u8]) -> Option<(Reads, &[u8])>
    ensures some { IfSome result (λ x. bytes.now ≡ reads_bytes x.0 ++ x.1.now) }
    ensures versions { IfSome result (λ x. AreVersions x.0) }
    ensures none { IfNone result ((r : ReadsSpec) (rest : List ℕ) → AreVersions r → bytes.now ≡ reads_bytes r ++ rest → ⊥) }
{
    let (count, rest) = bytes.split_first()?;
    let (first, rest) = read_version(rest)?;
    match *count {
        1 => Some((
            Reads {
                first,
                second: None,
            },
            rest,
        )),
        2 => {
            let (second, rest) = read_version(rest)?;
            Some((
                Reads {
                    first,
                    second: Some(second),
                },
                rest,
            ))
        }
        _ => None,
    }
}

/// Reads a version from the first eight bytes, and returns it with the bytes after it. Returns `None` if there are fewer,
/// or no stream can have this version.
pub fn read_version(bytes: &[u8]) -> Option<(u64, &[u8])>
    ensures some { IfSome result (λ x. bytes.now ≡ number w64 x.0 ++ x.1.now) }
    ensures fits { IfSome result (λ x. x.0 ≤ MAX_VERSIONS) }
    ensures none { IfNone result ((n : ℕ) (rest : List ℕ) → n ≤ MAX_VERSIONS → bytes.now ≡ number w64 n ++ rest → ⊥) }
{
    let (version, rest) = read_u64(bytes)?;
    if version > MAX_VERSIONS as u64 {
        return None;
    }
    Some((version, rest))
}

//! Reading a source to its end, up to a limit.
ghost use Rattle.std.specs.Prelude.{◌≡◌, ◌+◌, ◌-◌, ◌<◌, ◌≤◌, ◌++◌, ◌↔◌, [], length, false, true, IfOk, OnOk, OnErr, IsErrOf, IsTrue};
ghost use Rattle.btr_io.specs.declared.reading.ReadAllFault.TheVariants.{Fault, TooLong, Want};
ghost use Rattle.btr_io.specs.Faults.{Rose};
ghost use Rattle.btr_io.specs.Bytes.{gave, Gives};

use crate::{Failed, Source};
use std::alloc::{AllocError, Global};
use thiserror::Error;

/// The most bytes that one call of a source is asked for: 64 KiB.
const PIECE: usize = 1 << 16;

/// Why a source was not read to its end.
#[derive(Clone, Copy, Debug, PartialEq, Error)]
pub enum ReadAllFault {
    /// The source failed.
    #[error("the source failed")]
    Fault,
    /// The source gave more bytes than the limit.
    #[error("the source has more bytes than the limit")]
    TooLong,
    /// Out of memory for the bytes.
    #[error("out of memory")]
    Want,
}

impl From<AllocError> for ReadAllFault {
    ghost from_gives = { λ _ e. e ≡ Want };

    fn from(_: AllocError) -> Self {
        ReadAllFault::Want
    }
}

impl From<Failed> for ReadAllFault {
    ghost from_gives = { λ _ e. e ≡ Fault };

    fn from(_: Failed) -> Self {
        ReadAllFault::Fault
    }
}

/// Reads a source to its end, and returns all the bytes that it had left, at most `limit` of them.
///
/// `TooLong` exactly if the source gave more than `limit` bytes: then it gave one more, and none after that. `Fault` only if
/// the source failed, and `Want` if memory ran out. After an error the source has the bytes left that it did not give.
///
/// A call of the source asks for at most 64 KiB. The cost is that of these calls and of copying each byte twice: into a
/// buffer of 64 KiB, and then into a vector that grows geometrically.
pub fn read_all<S: Source>(
    alloc: Global,
    source: &mut S,
    limit: u64,
) -> Result<Vec<u8>, ReadAllFault>
    ensures bytes { S.is_observable → IfOk result (λ bytes. bytes.items ≡ S.left source.old) }
    ensures end { S.is_observable → OnOk result (S.left source.new ≡ []) }
    ensures within { IfOk result (λ bytes. length bytes.items ≤ limit) }
    ensures given { S.is_observable → Gives (limit + 1) (S.left source.old) (S.left source.new) }
    ensures too_long { S.is_observable → (IsErrOf result TooLong ↔ (limit < gave (S.left source.old) (S.left source.new))) }
    ensures fault { IsErrOf result Fault → Rose (S.faults source.old) (S.faults source.new) }
    ensures never_falls { S.faults source.old ≤ S.faults source.new }
{
    let mut piece = vec![in alloc; 0u8; PIECE]?;
    let mut bytes = Vec::new(alloc);
    while read_piece(source, &mut piece, &mut bytes, limit)? {}
    Ok(bytes)
}

/// Reads one piece and appends it to the bytes that were read so far. Returns whether the source gave any.
fn read_piece<S: Source>(
    source: &mut S,
    piece: &mut [u8],
    bytes: &mut Vec<u8>,
    limit: u64,
) -> Result<bool, ReadAllFault>
    requires within { length bytes.old.items ≤ limit }
    requires piece { 0 < length piece.old }
    ensures kept { S.is_observable → OnOk result (bytes.new.items ++ S.left source.new ≡ bytes.old.items ++ S.left source.old) }
    ensures more { IfOk result (λ more. IsTrue more → length bytes.old.items < length bytes.new.items) }
    ensures end { S.is_observable → IfOk result (λ more. more ≡ false → S.left source.new ≡ []) }
    ensures within { OnOk result (length bytes.new.items ≤ limit) }
    ensures given { S.is_observable → Gives (limit + 1 - length bytes.old.items) (S.left source.old) (S.left source.new) }
    ensures too_long { S.is_observable
        → (IsErrOf result TooLong ↔ (limit < length bytes.old.items + gave (S.left source.old) (S.left source.new))) }
    ensures fault { IsErrOf result Fault → Rose (S.faults source.old) (S.faults source.new) }
    ensures never_falls { S.faults source.old ≤ S.faults source.new }
{
    let room = limit - bytes.len() as u64;
    let asked = piece.len().min(room.saturating_add(1) as usize);
    let n = source.read(&mut piece[..asked])?;
    if n as u64 > room {
        return Err(ReadAllFault::TooLong);
    }
    bytes.extend_from_slice(&piece[..n])?;
    Ok(n > 0)
}

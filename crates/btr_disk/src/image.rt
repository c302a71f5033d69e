//! What a crash may leave of a device in memory.
ghost use Rattle.std.specs.Prelude.{◌≡◌, ◌+◌, ◌*◌, ◌%◌, ◌<◌, ◌≤◌, ℕ, true, length, reverse};
ghost use Rattle.btr_disk.specs.Bytes.{Has, SameBut};
ghost use Rattle.btr_disk.specs.CallRecord.{IsUnsyncedAt, contents_of};
ghost use Rattle.btr_disk.specs.Replay.{WasAtLastSync, is_replayable};
ghost use Rattle.btr_disk.specs.Torn.{IsTornAt};
ghost use Rattle.btr_disk.specs.Fill.{FillsWhere, IsAddressIn, fill_byte};

use crate::call_record::Call;
use crate::{BLOCK, GATE_MARK};

/// What a crash leaves at the addresses where it may leave any bytes.
#[derive(Clone, Copy)]
pub enum Fill {
    /// What a read returns.
    Written,
    /// What a read returned at the last sync that succeeded, or when the device was made.
    ///
    /// A write for which the device had no room to remember it changed nothing, so nothing of it is undone.
    Kept,
    /// Zeros.
    Zeros,
    /// Bytes of 255.
    Ones,
    /// In each block the mark of an open gate, and then bytes of 255.
    Gates,
}

/// The byte at this address.
fn byte_of(fill: Fill, at: usize) -> u8
    ensures { result ≡ fill_byte fill at }
{
    match fill {
        Fill::Written | Fill::Kept | Fill::Zeros => 0,
        Fill::Ones => 255,
        Fill::Gates => GATE_MARK.get(at % BLOCK).copied().unwrap_or(255),
    }
}

/// Fills the `n` bytes from the address `at` on, those that there are.
fn fill_range(bytes: &mut [u8], at: usize, n: usize, fill: Fill)
    ensures { FillsWhere fill (IsAddressIn at n) bytes.old bytes.new }
{
    let end = at.saturating_add(n).min(bytes.len());
    for k in at..end {
        bytes[k] = byte_of(fill, k);
    }
}

/// Fills what these calls wrote since the last sync.
pub(crate) fn fill_calls(bytes: &mut [u8], calls: &[Call], fill: Fill)
    ensures { FillsWhere fill (IsUnsyncedAt (reverse calls.now)) bytes.old bytes.new }
{
    let Some((call, earlier)) = calls.split_last() else {
        return;
    };
    match *call {
        Call::Synced => {}
        Call::Nothing => fill_calls(bytes, earlier, fill),
        Call::Wrote(at, n) => {
            fill_range(bytes, at, n, fill);
            fill_calls(bytes, earlier, fill);
        }
    }
}

/// Undoes these calls, from the newest back to the last sync that succeeded.
///
/// `replaced` ends with the bytes that they replaced.
pub(crate) fn undo_calls(bytes: &mut [u8], calls: &[Call], replaced: &[u8])
    requires { is_replayable (reverse calls.now) (length replaced.now) (length bytes.old) ≡ true }
    ensures length { length bytes.new ≡ length bytes.old }
    ensures undone { WasAtLastSync (contents_of bytes.old) (reverse calls.now) replaced.now (contents_of bytes.new) }
{
    let Some((call, earlier)) = calls.split_last() else {
        return;
    };
    match *call {
        Call::Synced => {}
        Call::Nothing => undo_calls(bytes, earlier, replaced),
        Call::Wrote(at, n) => {
            let start = replaced.len() - n;
            put_back(bytes, at, &replaced[start..]);
            undo_calls(bytes, earlier, &replaced[..start]);
        }
    }
}

/// Writes `part` at the address `at`.
fn put_back(bytes: &mut [u8], at: usize, part: &[u8])
    requires { at + length part.now ≤ length bytes.old }
    ensures length { length bytes.new ≡ length bytes.old }
    ensures written { Has (contents_of bytes.new) at part.now }
    ensures elsewhere { SameBut at (length part.now) (contents_of bytes.old) (contents_of bytes.new) }
{
    bytes[at..at + part.len()].copy_from_slice(part);
}

/// Fills the torn blocks.
pub(crate) fn fill_torn(bytes: &mut [u8], torn: &[bool], fill: Fill)
    requires { length bytes.old ≡ 4096 * length torn.now }
    ensures { FillsWhere fill (IsTornAt torn.now) bytes.old bytes.new }
{
    for (block, is_torn) in torn.iter().enumerate() {
        fill_block(bytes, block, *is_torn, fill);
    }
}

/// Fills a block if it is torn.
fn fill_block(bytes: &mut [u8], block: usize, is_torn: bool, fill: Fill)
    requires { 4096 * block + 4096 ≤ length bytes.old }
    ensures { FillsWhere fill (λ k. (is_torn ≡ true) × IsAddressIn (4096 * block) 4096 k) bytes.old bytes.new }
{
    if is_torn {
        fill_range(bytes, BLOCK * block, BLOCK, fill);
    }
}

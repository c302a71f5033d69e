//! Numbers and pieces at an index of a page's bytes. Numbers have their highest byte first.
ghost use Rattle.std.specs.Prelude.{◌≡◌, ◌+◌, ◌≤◌, ◌++◌, length, take};
ghost use Rattle.std.specs.Int.{w32, w64, w128};
ghost use Rattle.btr_node.specs.Page.{number};
ghost use Rattle.btr_node.specs.Reading.{u32_in, u64_in, u128_in};

use crate::page::PAGE;

/// The number of four bytes from the index `at` on.
pub(crate) fn u32_at(bytes: &[u8; PAGE], at: usize) -> u32
    requires { at + 4 ≤ 4096 }
    ensures { result ≡ u32_in at bytes.now }
{
    let mut word = [0; 4];
    word.copy_from_slice(&bytes[at..at + 4]);
    u32::from_be_bytes(word)
}

/// The number of eight bytes from the index `at` on.
pub(crate) fn u64_at(bytes: &[u8; PAGE], at: usize) -> u64
    requires { at + 8 ≤ 4096 }
    ensures { result ≡ u64_in at bytes.now }
{
    let mut word = [0; 8];
    word.copy_from_slice(&bytes[at..at + 8]);
    u64::from_be_bytes(word)
}

/// The number of sixteen bytes from the index `at` on.
pub(crate) fn u128_at(bytes: &[u8; PAGE], at: usize) -> u128
    requires { at + 16 ≤ 4096 }
    ensures { result ≡ u128_in at bytes.now }
{
    let mut word = [0; 16];
    word.copy_from_slice(&bytes[at..at + 16]);
    u128::from_be_bytes(word)
}

/// Writes a piece from the index `at` on.
pub(crate) fn put(to: &mut [u8; PAGE], at: usize, piece: &[u8])
    requires { at + length piece.now ≤ 4096 }
    ensures { take (at + length piece.now) to.new ≡ take at to.old ++ piece.now }
{
    let bytes = &mut to[..];
    bytes[at..at + piece.len()].copy_from_slice(piece);
}

/// Writes a number in four bytes.
#[tactic(auto, unfolding(crate::specs::Page::number))]
pub(crate) fn put_u32(to: &mut [u8; PAGE], at: usize, n: u32)
    requires { at + 4 ≤ 4096 }
    ensures { take (at + 4) to.new ≡ take at to.old ++ number w32 n }
{
    put(to, at, &n.to_be_bytes());
}

/// Writes a number in eight bytes.
#[tactic(auto, unfolding(crate::specs::Page::number))]
pub(crate) fn put_u64(to: &mut [u8; PAGE], at: usize, n: u64)
    requires { at + 8 ≤ 4096 }
    ensures { take (at + 8) to.new ≡ take at to.old ++ number w64 n }
{
    put(to, at, &n.to_be_bytes());
}

/// Writes a number in sixteen bytes.
#[tactic(auto, unfolding(crate::specs::Page::number))]
pub(crate) fn put_u128(to: &mut [u8; PAGE], at: usize, n: u128)
    requires { at + 16 ≤ 4096 }
    ensures { take (at + 16) to.new ≡ take at to.old ++ number w128 n }
{
    put(to, at, &n.to_be_bytes());
}

//! Numbers as bytes: each in all the bytes of its width, the highest byte first.
ghost use Rattle.std.specs.Prelude.{◌≡◌, ◌≢◌, ◌<◌, ◌≤◌, ◌^◌, [], ◌∷◌, ◌++◌, ℕ, List, length, IfSome, IfNone, OnOk};
ghost use Rattle.std.specs.Int.{w32, w64, w128};
ghost use Rattle.btr_entry.specs.Grammar.{number, signed};
ghost use Rattle.btr_entry.specs.Fields.{IsItems};

use std::alloc::AllocError;

/// Reads an id from the first sixteen bytes, and returns it with the bytes after it. Returns `None` if there are fewer.
pub fn read_id(bytes: &[u8]) -> Option<(u128, &[u8])>
    ensures some { IfSome result (λ x. bytes.now ≡ number w128 x.0 ++ x.1.now) }
    ensures fits { IfSome result (λ x. x.0 < 2 ^ 128) }
    ensures none { IfNone result (length bytes.now < 16) }
{
    if bytes.len() < 16 {
        return None;
    }
    let (prefix, rest) = bytes.split_at(16);
    let id = read_u128(prefix)?;
    Some((id, rest))
}

/// Reads the number of all sixteen bytes. Returns `None` if there are more or fewer.
fn read_u128(bytes: &[u8]) -> Option<u128>
    ensures some { IfSome result (λ n. bytes.now ≡ number w128 n) }
    ensures none { IfNone result (length bytes.now ≢ 16) }
{
    let array = <[u8; 16]>::try_from(bytes).ok()?;
    Some(u128::from_be_bytes(array))
}

/// Reads a number from the first four bytes, and returns it with the bytes after it. Returns `None` if there are fewer.
pub fn read_u32(bytes: &[u8]) -> Option<(u32, &[u8])>
    ensures some { IfSome result (λ x. bytes.now ≡ number w32 x.0 ++ x.1.now) }
    ensures fits { IfSome result (λ x. x.0 < 2 ^ 32) }
    ensures none { IfNone result (length bytes.now < 4) }
{
    if bytes.len() < 4 {
        return None;
    }
    let (prefix, rest) = bytes.split_at(4);
    let number = u32::from_be_bytes([prefix[0], prefix[1], prefix[2], prefix[3]]);
    Some((number, rest))
}

/// Reads a number from the first eight bytes, and returns it with the bytes after it. Returns `None` if there are fewer.
pub fn read_u64(bytes: &[u8]) -> Option<(u64, &[u8])>
    ensures some { IfSome result (λ x. bytes.now ≡ number w64 x.0 ++ x.1.now) }
    ensures fits { IfSome result (λ x. x.0 < 2 ^ 64) }
    ensures none { IfNone result (length bytes.now < 8) }
{
    if bytes.len() < 8 {
        return None;
    }
    let (prefix, rest) = bytes.split_at(8);
    let number = u64::from_be_bytes([
        prefix[0], prefix[1], prefix[2], prefix[3], prefix[4], prefix[5], prefix[6], prefix[7],
    ]);
    Some((number, rest))
}

/// Reads a signed number from the first eight bytes, and returns it with the bytes after it.
#[tactic(auto, unfolding(crate::specs::Grammar::number, crate::specs::Grammar::signed))]
pub fn read_i64(bytes: &[u8]) -> (i64, &[u8])
    requires { 8 ≤ length bytes.now }
    ensures { bytes.now ≡ signed result.0 ++ result.1.now }
{
    let (prefix, rest) = bytes.split_at(8);
    let number = i64::from_be_bytes([
        prefix[0], prefix[1], prefix[2], prefix[3], prefix[4], prefix[5], prefix[6], prefix[7],
    ]);
    (number, rest)
}

/// Reads a count, and splits the bytes after it into the items, sixteen bytes for each, and the rest. Returns `None` if
/// there are fewer bytes than the count needs, or the count is above the limit.
pub fn split_items(bytes: &[u8], limit: u64) -> Option<(&[u8], &[u8])>
    requires { limit ≤ 2 ^ 34 }
    ensures some { IfSome result (λ x. IsItems limit bytes.now x.0.now x.1.now) }
    ensures none { IfNone result ((items rest : List ℕ) → IsItems limit bytes.now items rest → ⊥) }
{
    let (count, rest) = read_u64(bytes)?;
    if count > limit {
        return None;
    }
    let len = 16 * count as usize;
    if rest.len() < len {
        return None;
    }
    Some(rest.split_at(len))
}

/// Appends a byte.
pub fn put_byte(out: &mut Vec<u8>, byte: u8) -> Result<(), AllocError>
    ensures { OnOk result (out.new.items ≡ out.old.items ++ byte ∷ []) }
{
    out.push(byte)?;
    Ok(())
}

/// Appends an id in sixteen bytes.
#[tactic(auto, unfolding(crate::specs::Grammar::number))]
pub fn put_id(out: &mut Vec<u8>, id: u128) -> Result<(), AllocError>
    ensures { OnOk result (out.new.items ≡ out.old.items ++ number w128 id) }
{
    out.extend_from_slice(&id.to_be_bytes())
}

/// Appends a number in four bytes.
#[tactic(auto, unfolding(crate::specs::Grammar::number))]
pub fn put_u32(out: &mut Vec<u8>, n: u32) -> Result<(), AllocError>
    ensures { OnOk result (out.new.items ≡ out.old.items ++ number w32 n) }
{
    out.extend_from_slice(&n.to_be_bytes())
}

/// Appends a number in eight bytes.
#[tactic(auto, unfolding(crate::specs::Grammar::number))]
pub fn put_u64(out: &mut Vec<u8>, n: u64) -> Result<(), AllocError>
    ensures { OnOk result (out.new.items ≡ out.old.items ++ number w64 n) }
{
    out.extend_from_slice(&n.to_be_bytes())
}

/// Appends a signed number in eight bytes.
#[tactic(auto, unfolding(crate::specs::Grammar::number, crate::specs::Grammar::signed))]
pub fn put_signed(out: &mut Vec<u8>, z: i64) -> Result<(), AllocError>
    ensures { OnOk result (out.new.items ≡ out.old.items ++ signed z) }
{
    out.extend_from_slice(&z.to_be_bytes())
}

//! Nodes of an index. The root has height 128. An inner node of height h has the ids whose hash has bit h - 1 clear in one
//! node of height h - 1, and the other ids in a second one.
ghost use Rattle.std.specs.Prelude.{◌≡◌, ℕ, ◌<◌, ◌≤◌, IfOk};
ghost use Rattle.btr_board.specs.Put.{put_at};
ghost use Rattle.btr_board.specs.Numbers.{first, bit, number_in};

use std::alloc::{AllocError, Global};
use std::sync::Arc;

/// The greatest number of entries of a leaf above height 0.
const MOST: usize = 16;

/// An odd number, 2^128 over the golden ratio: the product with it spreads ids that are alike over all high bits.
const SCATTER: u128 = 210306068529402873165736369884012333109;

/// An id and its number.
#[derive(Clone, Copy)]
pub(crate) struct IndexEntry {
    pub(crate) id: u128,
    pub(crate) number: u32,
}

/// A node of an index. Indexes share nodes.
#[derive(Drop)]
pub(crate) enum IndexNode {
    /// The entries, with no id twice: at most 16, but any number at height 0.
    Leaf(Vec<IndexEntry>),

    /// The nodes of the height below: of the ids whose bit is 0, and of those whose bit is 1.
    Inner {
        zeros: Arc<IndexNode, Global>,
        ones: Arc<IndexNode, Global>,
    },
}

/// Returns a bit of the id's hash.
fn bit_of(height: u8, id: u128) -> bool
    requires { height < 128 }
    ensures { result ≡ bit height id }
{
    (id.wrapping_mul(SCATTER) >> height) % 2 == 1
}

/// Returns the number of the first entry with this id.
fn first_number(entries: &[IndexEntry], id: u128) -> Option<u32>
    ensures { result ≡ first entries.now id }
{
    for entry in entries {
        if entry.id == id {
            return Some(entry.number);
        }
    }
    None
}

/// Returns the number that a node has for an id.
pub(crate) fn find_in(node: &IndexNode, height: u8, id: u128) -> Option<u32>
    requires { height ≤ 128 }
    ensures { result ≡ number_in height node.now id }
{
    match node {
        IndexNode::Leaf(entries) => first_number(entries, id),
        IndexNode::Inner { zeros, ones } => {
            if height == 0 {
                return None;
            }
            let below = height - 1;
            if bit_of(below, id) {
                return find_in(ones, below, id);
            }
            find_in(zeros, below, id)
        }
    }
}

/// Returns a node with `entry`, and with the entries of `node` that have another id.
pub(crate) fn insert_in(
    alloc: Global,
    node: &IndexNode,
    height: u8,
    entry: IndexEntry,
) -> Result<Arc<IndexNode, Global>, AllocError>
    requires { height ≤ 128 }
    ensures { IfOk result (λ n. (j : ℕ) → number_in height n.value j ≡ put_at entry.id entry.number (number_in height node.now) j) }
{
    match node {
        IndexNode::Leaf(entries) => build(alloc, with_entry(alloc, entries, entry)?, height),
        IndexNode::Inner { zeros, ones } => {
            if height == 0 {
                return build(alloc, with_entry(alloc, &[], entry)?, height);
            }
            let below = height - 1;
            if bit_of(below, entry.id) {
                let ones = insert_in(alloc, ones, below, entry)?;
                let zeros = Arc::try_clone(zeros)?;
                return Ok(Arc::new(alloc, IndexNode::Inner { zeros, ones })?);
            }
            let zeros = insert_in(alloc, zeros, below, entry)?;
            let ones = Arc::try_clone(ones)?;
            Ok(Arc::new(alloc, IndexNode::Inner { zeros, ones })?)
        }
    }
}

/// Returns the node of these entries: a leaf if they are few.
pub(crate) fn build(
    alloc: Global,
    entries: Vec<IndexEntry>,
    height: u8,
) -> Result<Arc<IndexNode, Global>, AllocError>
    requires { height ≤ 128 }
    ensures { IfOk result (λ n. (j : ℕ) → number_in height n.value j ≡ first entries.items j) }
{
    if height == 0 || entries.len() <= MOST {
        return Ok(Arc::new(alloc, IndexNode::Leaf(entries))?);
    }
    let below = height - 1;
    let zeros = build(alloc, half(alloc, &entries, below, false)?, below)?;
    let ones = build(alloc, half(alloc, &entries, below, true)?, below)?;
    Ok(Arc::new(alloc, IndexNode::Inner { zeros, ones })?)
}

/// Returns the entries of the ids whose bit is `one`.
fn half(
    alloc: Global,
    entries: &[IndexEntry],
    place: u8,
    one: bool,
) -> Result<Vec<IndexEntry>, AllocError>
    requires { place < 128 }
    ensures { IfOk result (λ v. (j : ℕ) → bit place j ≡ one → first v.items j ≡ first entries.now j) }
{
    let mut part = Vec::new(alloc);
    for entry in entries {
        if bit_of(place, entry.id) == one {
            part.push(*entry)?;
        }
    }
    Ok(part)
}

/// Returns the entries that have another id than `new`, and `new`.
pub(crate) fn with_entry(
    alloc: Global,
    entries: &[IndexEntry],
    new: IndexEntry,
) -> Result<Vec<IndexEntry>, AllocError>
    ensures { IfOk result (λ v. (j : ℕ) → first v.items j ≡ put_at new.id new.number (first entries.now) j) }
{
    let mut others = Vec::with_capacity(alloc, entries.len().saturating_add(1))?;
    for entry in entries {
        if entry.id != new.id {
            others.push(*entry)?;
        }
    }
    others.push(new)?;
    Ok(others)
}

//! Nodes of a trail, by height. A leaf has height 0, and a node of height h has at most 32^(h + 1) places.
//!
//! A node that is missing is `None`: it has no item at any place.
ghost use Rattle.std.specs.Prelude.{◌≡◌, ℕ, suc, ◌+◌, ◌/◌, ◌%◌, ◌<◌, ◌≤◌, ◌↔◌, IfOk, IsTrue, Some, length};
ghost use Rattle.std.specs.Option.{option_copied};
ghost use Rattle.btr_board.specs.Put.{put_at};
ghost use Rattle.btr_board.specs.Places.{value_at, node_of, link_of, items_of, children_of, width, found, IsFilled};

use std::alloc::{AllocError, Global};
use std::sync::Arc;

/// A node of a trail. Trails share nodes and items.
#[derive(Drop)]
pub(crate) enum TrailNode<T: Drop> {
    /// At most 32 items. All places up to the last item are taken.
    Leaf(Vec<Arc<T, Global>>),

    /// At most 32 nodes of the height below.
    Inner(Vec<Arc<TrailNode<T>, Global>>),
}

/// Returns the items of a leaf. A node that is missing, and an inner node, has none.
fn items<'a, T: Drop>(root: Option<&'a Arc<TrailNode<T>, Global>>) -> &'a [Arc<T, Global>]
    ensures { result.now ≡ items_of (link_of root.entry) }
{
    match root {
        None => &[],
        Some(node) => match &**node {
            TrailNode::Leaf(items) => items,
            TrailNode::Inner(_) => &[],
        },
    }
}

/// Returns the children of an inner node. A node that is missing, and a leaf, has none.
fn children<'a, T: Drop>(
    root: Option<&'a Arc<TrailNode<T>, Global>>,
) -> &'a [Arc<TrailNode<T>, Global>]
    ensures { result.now ≡ children_of (link_of root.entry) }
{
    match root {
        None => &[],
        Some(node) => match &**node {
            TrailNode::Leaf(_) => &[],
            TrailNode::Inner(children) => children,
        },
    }
}

/// Returns which child of a node has a place, and which place of the child it is.
fn step(height: u8, place: usize) -> (usize, usize)
    requires { height ≤ 12 }
    ensures child { result.0 ≡ place / width height }
    ensures rest { result.1 ≡ place % width height }
{
    let shift = 5 * height;
    (place >> shift, place & ((1 << shift) - 1))
}

/// Returns whether a node of this height has more than `len` places.
pub(crate) fn has_room(height: u8, len: usize) -> bool
    ensures { IsTrue result ↔ (len < width (height + 1)) }
{
    height >= 12 || len < 1 << (5 * (height + 1))
}

/// Returns the item at a place of a node, if there is one.
pub(crate) fn get_at<'a, T: Drop>(
    root: Option<&'a Arc<TrailNode<T>, Global>>,
    height: u8,
    place: usize,
) -> Option<&'a T>
    requires { height ≤ 12 }
    ensures { option_copied result ≡ found height (link_of root.entry) place }
{
    if height == 0 {
        return match items(root).get(place) {
            None => None,
            Some(item) => Some(&**item),
        };
    }
    let (at, rest) = step(height, place);
    get_at(children(root).get(at), height - 1, rest)
}

/// Returns a node with `item` at a place, and else with the items of `root`. Each place before it must have an item.
pub(crate) fn put<T: Drop>(
    alloc: Global,
    root: Option<&Arc<TrailNode<T>, Global>>,
    height: u8,
    place: usize,
    item: T,
) -> Result<Arc<TrailNode<T>, Global>, AllocError>
    requires low { height ≤ 12 }
    requires filled { IsFilled (found height (link_of root)) place }
    ensures { IfOk result (λ n. (j : ℕ) → found height (Some n.value) j ≡ put_at place item (found height (link_of root.entry)) j) }
{
    if height == 0 {
        let item = Arc::new(alloc, item)?;
        let items = with(alloc, items(root), place, item)?;
        return Ok(Arc::new(alloc, TrailNode::Leaf(items))?);
    }
    let (at, rest) = step(height, place);
    let children = children(root);
    let child = put(alloc, children.get(at), height - 1, rest, item)?;
    let children = with(alloc, children, at, child)?;
    Ok(Arc::new(alloc, TrailNode::Inner(children))?)
}

/// Returns the values with `value` at a place, which is one of theirs or the next.
fn with<X: Drop>(
    alloc: Global,
    values: &[Arc<X, Global>],
    place: usize,
    value: Arc<X, Global>,
) -> Result<Vec<Arc<X, Global>>, AllocError>
    requires { place ≤ length values.now }
    ensures { IfOk result (λ v. (j : ℕ) → value_at v.items j ≡ put_at place value.value (value_at values.now) j) }
{
    let mut copy = copied(alloc, values)?;
    if place < copy.len() {
        copy[place] = value;
        return Ok(copy);
    }
    copy.push(value)?;
    Ok(copy)
}

/// Returns the same values, in a vector with room for one more.
fn copied<X: Drop>(
    alloc: Global,
    values: &[Arc<X, Global>],
) -> Result<Vec<Arc<X, Global>>, AllocError>
    ensures length { IfOk result (λ v. length v.items ≡ length values.now) }
    ensures values { IfOk result (λ v. (j : ℕ) → value_at v.items j ≡ value_at values.now j) }
{
    let mut copy = Vec::with_capacity(alloc, values.len().saturating_add(1))?;
    for value in values {
        copy.push(Arc::try_clone(value)?)?;
    }
    Ok(copy)
}

/// Returns a node one level higher. Its first places are those of `root`.
pub(crate) fn raised<T: Drop>(
    alloc: Global,
    root: &Option<Arc<TrailNode<T>, Global>>,
    height: u8,
) -> Result<Arc<TrailNode<T>, Global>, AllocError>
    ensures { IfOk result (λ n. (j : ℕ) → j < width (height + 1)
        → found (height + 1) (Some n.value) j ≡ found height (node_of root.now) j) }
{
    let mut children = Vec::new(alloc);
    match root {
        None => {}
        Some(root) => {
            let first = Arc::try_clone(root)?;
            children.push(first)?;
        }
    }
    Ok(Arc::new(alloc, TrailNode::Inner(children))?)
}

//! The list.
ghost use Rattle.std.specs.Prelude.{◌≡◌, ◌<◌, ◌≤◌, ◌++◌, ◌∷◌, [], length, IfOk, MatchOption, Some, slice_get, slice_set};

use crate::trail_node::{TrailNode, get_at, has_room, put, raised};
use std::alloc::{AllocError, Global};
use std::marker::Model;
use std::sync::Arc;

/// A persistent list. A push or a set makes a new list and leaves the old one as it is; the two share most nodes. Any thread
/// can read them.
#[derive(Drop)]
pub struct Trail<T: Drop> {
    root: Option<Arc<TrailNode<T>, Global>>,
    height: u8,
    len: usize,
}

impl<T: Drop> Model for Trail<T> {
    ghost use Rattle.std.specs.Prelude.{List};
    ghost use Rattle.btr_board.specs.Places.{listed, found, node_of, IsTrail};

    ghost Value = { List T };

    ghost view = { λ t. listed t.len (found t.height (node_of t.root)) };

    ghost invariant = { λ t. IsTrail t.height t.len (found t.height (node_of t.root)) };
}

impl<T: Drop> Trail<T> {
    /// Returns the list without items, in constant time. It takes no memory.
    pub fn empty() -> Trail<T>
        ensures { result ≡ [] }
    {
        Trail {
            root: None,
            height: 0,
            len: 0,
        }
    }

    /// Returns the number of items, in constant time. It takes no memory.
    pub fn len(&self) -> usize
        ensures { result ≡ length self.now }
    {
        self.len
    }

    /// Returns the same list once more, in constant time. An `Err` is out of memory.
    pub fn share(&self) -> Result<Trail<T>, AllocError>
        ensures { IfOk result (λ t. t ≡ self.now) }
    {
        let root = match &self.root {
            None => None,
            Some(root) => Some(Arc::try_clone(root)?),
        };
        Ok(Trail {
            root,
            height: self.height,
            len: self.len,
        })
    }

    /// Returns the item at a place, counted from 0, or `None` if `place` is not below the length. It visits one node a
    /// level, of at most log32(n) + 1 levels for n items, and takes no memory.
    pub fn get(&self, place: usize) -> Option<&T>
        ensures { MatchOption result (length self.now ≤ place) (λ x. slice_get self.now place ≡ Some x.now) }
    {
        if place >= self.len {
            return None;
        }
        get_at(self.root.as_ref(), self.height, place)
    }

    /// Returns the list with one item more at its end. This list stays as it is. It copies one node a level, of at most
    /// log32(n) + 1 levels for n items, and the new list shares all others. An `Err` is out of memory, or that the list has
    /// 2^64 - 1 items.
    pub fn push(&self, alloc: Global, item: T) -> Result<Trail<T>, AllocError>
        ensures { IfOk result (λ t. t ≡ self.now ++ item ∷ []) }
    {
        let len = self.len;
        if len == usize::MAX {
            return Err(AllocError);
        }
        if has_room(self.height, len) {
            let root = put(alloc, self.root.as_ref(), self.height, len, item)?;
            return Ok(Trail {
                root: Some(root),
                height: self.height,
                len: len + 1,
            });
        }
        let above = raised(alloc, &self.root, self.height)?;
        let root = put(alloc, Some(&above), self.height + 1, len, item)?;
        Ok(Trail {
            root: Some(root),
            height: self.height + 1,
            len: len + 1,
        })
    }

    /// Returns the list with another item at a place, counted from 0. This list stays as it is. It copies one node a level,
    /// of at most log32(n) + 1 levels for n items, and the new list shares all others. An `Err` is out of memory.
    pub fn set(&self, alloc: Global, place: usize, item: T) -> Result<Trail<T>, AllocError>
        requires { place < length self.now }
        ensures { IfOk result (λ t. t ≡ slice_set self.now place item) }
    {
        let root = put(alloc, self.root.as_ref(), self.height, place, item)?;
        Ok(Trail {
            root: Some(root),
            height: self.height,
            len: self.len,
        })
    }
}

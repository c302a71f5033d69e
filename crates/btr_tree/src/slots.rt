//! The 64 slots of an inner node in memory.
ghost use Rattle.std.specs.Prelude.{◌≡◌, ◌<◌, ◌≤◌, true, nat_lt, option_map, IfSome, IsNone, IfOk, OnOk};
ghost use Rattle.btr_tree.specs.Packed.{without_address};
ghost use Rattle.btr_tree.specs.Slots.{linked, node_of, kept_in, slot_in, child_in, base_of, empty_slot, addressed};
ghost use Rattle.btr_tree.specs.Slots.{IsNextOccupied, IsPreviousOccupied, IsFilled, IsPut, AreSameSlots};

use crate::node::{Child, Link, Slot};
use crate::packed::Packed;
use btr_base::{Agg, FAN_OUT};
use std::alloc::{AllocError, Global};

/// A slot that is kept, and its child.
#[cycle(node)]
#[derive(Drop)]
pub(crate) struct Kept {
    slot: Packed,
    child: Link,
}

/// The 64 slots of an inner node, in order of time.
///
/// In memory only those slots are kept that have a point, or whose version is not the base version of the node. A slot that is
/// kept takes at most 64 bytes, and the others take none.
#[cycle(node)]
#[derive(Drop)]
pub struct Slots {
    base: u64,
    mask: u64,
    kept: Vec<Kept>,
}

impl Slots {
    /// Slots of which none is put yet, with room to keep `room` of them.
    pub(crate) fn new(alloc: Global, base: u64, room: usize) -> Result<Slots, AllocError>
        ensures filled { IfOk result (λ s. IsFilled 0 s) }
        ensures base { IfOk result (λ s. base_of s ≡ base) }
    {
        Ok(Slots {
            base,
            mask: 0,
            kept: Vec::with_capacity(alloc, room)?,
        })
    }

    /// The slot of a number, in constant time. It takes no memory.
    pub fn slot(&self, i: u8) -> Slot
        requires { i < 64 }
        ensures { result ≡ slot_in self.now i }
    {
        match self.kept_at(i) {
            Some(kept) => kept.slot.slot(),
            None => Slot {
                agg: Agg::none(),
                version: self.base,
                child: 0,
            },
        }
    }

    /// The link to the child of a slot, in constant time. It takes no memory.
    pub fn child(&self, i: u8) -> Child<'_>
        requires { i < 64 }
        ensures { node_of result ≡ child_in self.now i }
    {
        match self.kept_at(i) {
            Some(kept) => kept.child.seen(),
            None => Child { node: None },
        }
    }

    /// The slot of a number with the block of its child, in constant time. It takes no memory.
    pub(crate) fn addressed(&self, i: u8) -> Slot
        requires { i < 64 }
        ensures { result ≡ addressed self.now i }
    {
        let slot = self.slot(i);
        Slot {
            agg: slot.agg,
            version: slot.version,
            child: self.child(i).block(),
        }
    }

    /// The first slot from `from` on that has a point, or `None` if there is none. It takes time linear in the number of slots
    /// from `from` on, and no memory.
    pub fn next_occupied(&self, from: u8) -> Option<u8>
        requires { from ≤ 64 }
        ensures { IsNextOccupied (slot_in self.now) from result }
    {
        for i in from..FAN_OUT {
            if self.is_occupied(i) {
                return Some(i);
            }
        }
        None
    }

    /// The last slot below `to` that has a point, or `None` if there is none. It takes time linear in `to`, and no memory.
    pub fn previous_occupied(&self, to: u8) -> Option<u8>
        requires { to ≤ 64 }
        ensures { IsPreviousOccupied (slot_in self.now) to result }
    {
        let mut i = to;
        while i > 0 {
            i -= 1;
            if self.is_occupied(i) {
                return Some(i);
            }
        }
        None
    }

    /// The slot of a number if it is kept, or `None` if it is the empty slot of the base version.
    pub(crate) fn kept_slot(&self, i: u8) -> Option<Slot>
        requires { i < 64 }
        ensures some { IfSome result (λ s. s ≡ slot_in self.now i) }
        ensures none { IsNone result → slot_in self.now i ≡ empty_slot (base_of self.now) }
    {
        match self.kept_at(i) {
            Some(kept) => Some(kept.slot.slot()),
            None => None,
        }
    }

    /// How many slots are kept.
    pub(crate) fn len(&self) -> usize {
        self.kept.len()
    }

    /// The base version.
    pub(crate) fn base(&self) -> u64
        ensures { result ≡ base_of self.now }
    {
        self.base
    }

    /// Puts the next slot and its child. The slot is kept if it has a point or a child, or a version other than the base version.
    pub(crate) fn put(&mut self, i: u8, slot: Slot, child: Link) -> Result<(), AllocError>
        requires place { i < 64 }
        requires filled { IsFilled i self.now }
        ensures { OnOk result (IsPut i slot (linked child) self.old self.new) }
    {
        if is_as_base(&slot, self.base) && child.node.is_none() {
            return Ok(());
        }
        self.keep(i, slot, child)
    }

    /// Puts the next slot and its child as they are in a node with the same base version. Both nodes share the child.
    pub(crate) fn put_from(&mut self, i: u8, other: &Slots) -> Result<(), AllocError>
        requires place { i < 64 }
        requires filled { IsFilled i self.now }
        requires base { base_of self.now ≡ base_of other.now }
        ensures { OnOk result (IsPut i (slot_in other.now i) (child_in other.now i) self.old self.new) }
    {
        match other.kept_at(i) {
            Some(kept) => self.keep(i, kept.slot.slot(), kept.child.seen().share()?),
            None => Ok(()),
        }
    }

    /// Puts the next slot and its child, and keeps them.
    fn keep(&mut self, i: u8, slot: Slot, child: Link) -> Result<(), AllocError>
        requires place { i < 64 }
        requires filled { IsFilled i self.now }
        ensures { OnOk result (IsPut i slot (linked child) self.old self.new) }
    {
        self.kept.push(Kept {
            slot: Packed::of(&slot),
            child,
        })?;
        self.mask += 1 << i;
        Ok(())
    }

    /// Frees the room that no slot takes.
    pub(crate) fn fit(&mut self)
        ensures { AreSameSlots self.old self.new }
    {
        self.kept.shrink_to_fit();
    }

    /// Whether a slot has a point.
    fn is_occupied(&self, i: u8) -> bool
        requires { i < 64 }
        ensures { result ≡ nat_lt 0 (slot_in self.now i).agg.count }
    {
        match self.kept_at(i) {
            Some(kept) => kept.slot.has_points(),
            None => false,
        }
    }

    /// What is kept of a slot.
    fn kept_at(&self, i: u8) -> Option<&Kept>
        requires { i < 64 }
        ensures { option_map (λ k. k.now) result ≡ kept_in self.now i }
    {
        if self.mask >> i & 1 == 0 {
            return None;
        }
        let rank = (self.mask % (1 << i)).count_ones();
        self.kept.get(rank as usize)
    }
}

/// Whether a slot is the empty slot of a version.
fn is_as_base(slot: &Slot, base: u64) -> bool
    ensures { result ≡ true → without_address slot.now ≡ empty_slot base }
{
    let agg = &slot.agg;
    agg.count == 0 && slot.version == base
}

//! The table of an inner node's page.
ghost use Rattle.std.specs.Prelude.{◌≡◌, ◌↔◌, IsTrue};
ghost use Rattle.std.specs.List.{AllByRecursion, sum_by};
ghost use Rattle.btr_node.specs.Page.{IsInnerPage, IsSlot};

use crate::page::{PageHeader, PageSlot, SLOTS};
use crate::span_table::kept_span;
use btr_base::{LEAF_POINTS, MAX_POINTS};

/// Whether an inner node's page keeps the table.
pub(crate) fn is_inner(header: &PageHeader, slots: &[PageSlot; SLOTS]) -> bool
    ensures { IsTrue result ↔ IsInnerPage header.now slots.now }
{
    kept_span(header).is_some()
        && 1 <= header.height
        && LEAF_POINTS as u64 + 1 <= header.count
        && header.count <= MAX_POINTS
        && total(slots) == u128::from(header.count)
        && are_slots(slots, header.version)
}

/// The sum of the counts of all slots.
fn total(slots: &[PageSlot; SLOTS]) -> u128
    ensures { result ≡ sum_by (λ s. s.agg.count) slots.now }
{
    let mut all = 0;
    for slot in slots {
        all += u128::from(slot.count());
    }
    all
}

/// Whether each is a slot of a node of this version.
fn are_slots(slots: &[PageSlot; SLOTS], version: u64) -> bool
    ensures { IsTrue result ↔ AllByRecursion (IsSlot version) slots.now }
{
    for slot in slots {
        if !is_slot(slot, version) {
            return false;
        }
    }
    true
}

/// Whether it is a slot of a node of this version.
fn is_slot(slot: &PageSlot, version: u64) -> bool
    ensures { IsTrue result ↔ IsSlot version slot.now }
{
    if slot.version > version {
        return false;
    }
    if slot.count() == 0 {
        slot.child == 0
    } else {
        1 <= slot.version && 1 <= slot.child
    }
}

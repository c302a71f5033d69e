//! What stands at places of a page's bytes, whatever the bytes are.
ghost use Rattle.std.specs.Prelude.{◌≡◌, ◌↔◌, ◌+◌, ◌≤◌, pos, ◌*ℤ◌, IsTrue, IfSome, IfNone};
ghost use Rattle.std.specs.Int.{cast_signed, w64, w128};
ghost use Rattle.btr_node.specs.Reading.{header_in, point_in, agg_from, slot_in, items_in, IsExact, IsExactAt, AreExact};

use crate::fields::{u32_at, u64_at, u128_at};
use crate::page::{PAGE, PageHeader, PageSlot, SLOTS};
use btr_base::{Agg, LEAF_POINTS, Point};

/// The fields of both kinds.
#[tactic(auto, unfolding(crate::specs::Reading::header_in))]
pub(crate) fn read_header(bytes: &[u8; PAGE]) -> PageHeader
    ensures { result ≡ header_in bytes.now }
{
    PageHeader {
        start: u64_at(bytes, 8).cast_signed(),
        height: u32_at(bytes, 16),
        stream: u32_at(bytes, 20),
        version: u64_at(bytes, 24),
        count: u64_at(bytes, 32),
    }
}

/// Reads all places for points.
pub(crate) fn read_points(bytes: &[u8; PAGE], points: &mut [Point; LEAF_POINTS])
    ensures { points.new ≡ items_in point_in 16 252 64 bytes.now }
{
    for i in 0..LEAF_POINTS {
        points[i] = point_at(bytes, 64 + 16 * i);
    }
}

/// The point from the index `at` on.
#[tactic(auto, unfolding(crate::specs::Reading::point_in))]
fn point_at(bytes: &[u8; PAGE], at: usize) -> Point
    requires { at + 16 ≤ 4096 }
    ensures { result ≡ point_in at bytes.now }
{
    Point {
        time: u64_at(bytes, at).cast_signed(),
        value: u64_at(bytes, at + 8).cast_signed(),
    }
}

/// Reads all slots. The answer is whether each slot has the numbers that stand at its place.
pub(crate) fn read_slots(bytes: &[u8; PAGE], slots: &mut [PageSlot; SLOTS]) -> bool
    ensures read { IsTrue result → slots.new ≡ items_in slot_in 56 64 64 bytes.now }
    ensures exact { IsTrue result ↔ AreExact 64 bytes.now }
{
    for i in 0..SLOTS {
        match slot_at(bytes, 64 + 56 * i) {
            Some(slot) => slots[i] = slot,
            None => return false,
        }
    }
    true
}

/// The slot from the index `at` on, or `None` if the numbers there are those of no slot.
#[tactic(auto, unfolding(crate::specs::Reading::slot_in, crate::specs::Reading::agg_in, crate::specs::Reading::IsExactAt))]
fn slot_at(bytes: &[u8; PAGE], at: usize) -> Option<PageSlot>
    requires { at + 56 ≤ 4096 }
    ensures some { IfSome result (λ s. s ≡ slot_in at bytes.now) }
    ensures exact { IfSome result (λ s. IsExactAt at bytes.now) }
    ensures none { IfNone result (IsExactAt at bytes.now → ⊥) }
{
    let agg = agg_of(
        u64_at(bytes, at),
        u128_at(bytes, at + 8),
        u64_at(bytes, at + 24),
        u64_at(bytes, at + 32),
    )?;
    Some(PageSlot {
        agg,
        version: u64_at(bytes, at + 40),
        child: u64_at(bytes, at + 48),
    })
}

/// The aggregate of these numbers, of which the last three are in two's complement, or `None` if they are those of no aggregate.
#[tactic(auto, unfolding(crate::specs::Reading::agg_from))]
fn agg_of(count: u64, sum: u128, least: u64, greatest: u64) -> Option<Agg>
    ensures some { IfSome result (λ a. a ≡ agg_from count (cast_signed w128 sum) (cast_signed w64 least) (cast_signed w64 greatest)) }
    ensures exact { IfSome result (λ a. IsExact count (cast_signed w128 sum) (cast_signed w64 least) (cast_signed w64 greatest)) }
    ensures none { IfNone result (IsExact count (cast_signed w128 sum) (cast_signed w64 least) (cast_signed w64 greatest) → ⊥) }
{
    let sum = sum.cast_signed();
    let least = least.cast_signed();
    let greatest = greatest.cast_signed();
    if count == 0 {
        return none_of(sum, least, greatest);
    }
    if times(count, least) <= sum && sum <= times(count, greatest) {
        Some(Agg {
            count,
            sum,
            ends: Some((least, greatest)),
        })
    } else {
        None
    }
}

/// The aggregate of no points, if these numbers are zeros.
#[tactic(auto, unfolding(crate::specs::Reading::agg_from))]
fn none_of(sum: i128, least: i64, greatest: i64) -> Option<Agg>
    ensures some { IfSome result (λ a. a ≡ agg_from 0 sum least greatest) }
    ensures exact { IfSome result (λ a. IsExact 0 sum least greatest) }
    ensures none { IfNone result (IsExact 0 sum least greatest → ⊥) }
{
    if sum == 0 && least == 0 && greatest == 0 {
        Some(Agg::none())
    } else {
        None
    }
}

/// The product.
fn times(count: u64, value: i64) -> i128
    ensures { result ≡ pos count *ℤ value }
{
    i128::from(count) * i128::from(value)
}

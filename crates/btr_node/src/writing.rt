//! A page's fields, points and slots written in order, each after the last.
ghost use Rattle.std.specs.Prelude.{◌≡◌, ◌+◌, ◌*◌, ◌<◌, ◌≤◌, ◌++◌, length, take};
ghost use Rattle.std.specs.Int.{w64, w128, cast_unsigned};
ghost use Rattle.std.specs.List.{flat_map};
ghost use Rattle.btr_node.specs.Page.{header_bytes, point_bytes, slot_bytes, ends_or};

use crate::fields::{put, put_u32, put_u64, put_u128};
use crate::page::{PAGE, PageHeader, PageSlot, SLOTS};
use btr_base::{Agg, Point};

/// Writes the fields of both kinds, from the index 8 on, and the zeros after them.
pub(crate) fn put_header(to: &mut [u8; PAGE], header: &PageHeader)
    ensures { take 64 to.new ≡ take 8 to.old ++ header_bytes header.now }
{
    put_u64(to, 8, header.start.cast_unsigned());
    put_u32(to, 16, header.height);
    put_u32(to, 20, header.stream);
    put_u64(to, 24, header.version);
    put_u64(to, 32, header.count);
    put(to, 40, &[0; 24]);
}

/// Writes points, from the index 64 on.
pub(crate) fn put_points(to: &mut [u8; PAGE], points: &[Point])
    requires { length points.now ≤ 252 }
    ensures { take (64 + 16 * length points.now) to.new ≡ take 64 to.old ++ flat_map point_bytes points.now }
{
    for i in 0..points.len() {
        put_point(to, 64 + 16 * i, &points[i]);
    }
}

/// Writes a point.
pub(crate) fn put_point(to: &mut [u8; PAGE], at: usize, point: &Point)
    requires { at + 16 ≤ 4096 }
    ensures { take (at + 16) to.new ≡ take at to.old ++ point_bytes point.now }
{
    put_u64(to, at, point.time.cast_unsigned());
    put_u64(to, at + 8, point.value.cast_unsigned());
}

/// Writes all slots, from the index 64 on.
pub(crate) fn put_slots(to: &mut [u8; PAGE], slots: &[PageSlot; SLOTS])
    ensures { take 3648 to.new ≡ take 64 to.old ++ flat_map slot_bytes slots.now }
{
    for i in 0..SLOTS {
        put_slot(to, i, &slots[i]);
    }
}

/// Writes the slot of this number in the page of an inner node. It takes constant time and no memory.
pub fn put_slot(to: &mut [u8; PAGE], i: usize, slot: &PageSlot)
    requires { i < 64 }
    ensures { take (64 + 56 * i + 56) to.new ≡ take (64 + 56 * i) to.old ++ slot_bytes slot.now }
{
    let at = 64 + 56 * i;
    let (least, greatest) = ends_of(&slot.agg);
    put_u64(to, at, slot.count());
    put_u128(to, at + 8, sum_of(&slot.agg));
    put_u64(to, at + 24, least);
    put_u64(to, at + 32, greatest);
    put_u64(to, at + 40, slot.version);
    put_u64(to, at + 48, slot.child);
}

/// The sum of an aggregate, in two's complement.
fn sum_of(agg: &Agg) -> u128
    ensures { result ≡ cast_unsigned w128 agg.now.total }
{
    agg.sum.cast_unsigned()
}

/// The least and the greatest value of an aggregate, in two's complement, or zeros.
fn ends_of(agg: &Agg) -> (u64, u64)
    ensures least { result.0 ≡ cast_unsigned w64 (ends_or agg.now.ends).0 }
    ensures greatest { result.1 ≡ cast_unsigned w64 (ends_or agg.now.ends).1 }
{
    match agg.ends {
        Some((least, greatest)) => (least.cast_unsigned(), greatest.cast_unsigned()),
        None => (0, 0),
    }
}

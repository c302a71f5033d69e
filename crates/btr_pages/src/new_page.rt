//! The page of a node that a commit wrote, filled in place.
ghost use Rattle.std.specs.Prelude.{◌≡◌, ◌<◌, ◌%◌, ◌^◌, ◌++◌, take, map, get_or};
ghost use Rattle.std.specs.List.{flat_map, sum_by};
ghost use Rattle.btr_node.specs.Page.{page_bytes, slot_bytes};
ghost use Rattle.btr_node.specs.declared.page.NodePage.TheVariants.{Inner};
ghost use Rattle.btr_tree.specs.PageNodes.{unused_slot};
ghost use Rattle.btr_pages.specs.Pages.{page_of, page_slots_of, page_slot};

use btr_base::{Agg, LEAF_POINTS, Point};
use btr_node::{
    PAGE, PageHeader, PageSlot, SLOTS, fill_leaf, put_inner_end, put_inner_header, put_slot,
};
use btr_tree::{NewNode, NewSlots};

/// Writes the page of a node of a stream. It takes constant time and no memory.
pub fn fill_page(to: &mut [u8; PAGE], node: &NewNode, stream: u32)
    ensures { to.new ≡ page_bytes (page_of stream node.now) }
{
    if node.slots.len() > 0 {
        let header = header_of(node, stream, total(&node.slots));
        return fill_inner(to, &header, &node.slots);
    }
    let points = node.points.as_slice();
    let header = header_of(node, stream, points.len() as u64);
    fill_leaf(to, &header, first_points(points));
}

/// The fields of the page of a node of a stream, with this count.
fn header_of(node: &NewNode, stream: u32, count: u64) -> PageHeader
    ensures { result ≡ record {
      start = node.now.span.start;
      height = node.now.span.height;
      stream = stream;
      version = node.now.version;
      count = count;
    } }
{
    let span = node.span;
    PageHeader {
        start: span.start,
        height: u32::from(span.height),
        stream,
        version: node.version,
        count,
    }
}

/// The points for which a page has places.
fn first_points(points: &[Point]) -> &[Point]
    ensures { result.now ≡ take 252 points.now }
{
    &points[..points.len().min(LEAF_POINTS)]
}

/// Writes the page of an inner node with these fields and slots.
fn fill_inner(to: &mut [u8; PAGE], header: &PageHeader, slots: &NewSlots)
    ensures { to.new ≡ page_bytes (Inner header.now.start header.now.height header.now.stream header.now.version header.now.count
        (page_slots_of slots.now)) }
{
    put_inner_header(to, header);
    put_slots(to, slots);
    put_inner_end(to);
}

/// Writes the slots of a node as those of a page, from the index 64 on.
fn put_slots(to: &mut [u8; PAGE], slots: &NewSlots)
    ensures { take 3648 to.new ≡ take 64 to.old ++ flat_map slot_bytes (page_slots_of slots.now) }
{
    for i in 0..SLOTS {
        put_slot(to, i, &slot_at(slots, i as u8));
    }
}

/// The slot of a number, or a slot without a point if there are not that many.
fn slot_at(slots: &NewSlots, i: u8) -> PageSlot
    ensures { result ≡ get_or (map page_slot slots.now) i unused_slot }
{
    match slots.get(i) {
        None => PageSlot {
            agg: Agg::none(),
            version: 0,
            child: 0,
        },
        Some(slot) => PageSlot {
            agg: slot.agg,
            version: slot.version,
            child: slot.child,
        },
    }
}

/// The sum of the counts of all slots of a page. It wraps at the end of its type.
fn total(slots: &NewSlots) -> u64
    ensures { result ≡ sum_by (λ s. s.agg.count) (page_slots_of slots.now) % 2 ^ 64 }
{
    let mut all: u64 = 0;
    for i in 0..SLOTS {
        all = all.wrapping_add(slot_at(slots, i as u8).count());
    }
    all
}

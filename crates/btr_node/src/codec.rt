//! The two directions: from a page to its bytes, and back.
ghost use Rattle.std.specs.Prelude.{◌≡◌, IfSome, take, codes};
ghost use Rattle.btr_node.specs.declared.page.NodePage.{NodePage as PageSpec};
ghost use Rattle.btr_node.specs.Page.{page_bytes, Keeps, Spells, Fits};

use crate::filling::{fill_leaf, put_inner_end, put_inner_header};
use crate::inner_table::is_inner;
use crate::leaf_table::is_leaf;
use crate::page::{NodePage, PAGE, PageSlot, SLOTS};
use crate::reading::{read_header, read_points, read_slots};
use crate::writing::put_slots;
use btr_base::{Agg, LEAF_POINTS, Point};

/// The first eight bytes of a leaf's page.
pub(crate) const LEAF_MARK: [u8; 8] = *b"BTR-LEAF";

/// The first eight bytes of an inner node's page.
pub(crate) const NODE_MARK: [u8; 8] = *b"BTR-NODE";

/// The zeros after the fields of both kinds.
const GAP: [u8; 24] = [0; 24];

/// The zeros after the slots of an inner node.
const TAIL: [u8; 448] = [0; 448];

/// Writes the bytes of a page that keeps the table: [`decode`] turns them into the page again. It takes constant time and no
/// memory.
pub fn encode(page: &NodePage, to: &mut [u8; PAGE])
    requires { Keeps page.now }
    ensures { Spells to.new page.now }
{
    spell(page, to);
}

/// Writes the bytes of a page, whether it keeps the table or not. It takes constant time and no memory.
pub fn spell(page: &NodePage, to: &mut [u8; PAGE])
    ensures { to.new ≡ page_bytes page.now }
{
    let header = page.header();
    match page {
        NodePage::Leaf { points, .. } => {
            fill_leaf(to, &header, points);
        }
        NodePage::Inner { slots, .. } => {
            put_inner_header(to, &header);
            put_slots(to, slots);
            put_inner_end(to);
        }
    }
}

/// The page that a block is, or `None` if it is damaged: no page that keeps the table has these bytes. It takes constant time
/// and no memory.
pub fn decode(bytes: &[u8; PAGE]) -> Option<NodePage>
    // The bytes are those of the page that is returned, which keeps the table.
    ensures found { IfSome result (λ page. Spells bytes.now page) }
    // Its numbers fit their widths, and its aggregates are those of points: so no other page has the same bytes.
    ensures fits { IfSome result (λ page. Fits page) }
    // A page is returned wherever the bytes are those of one.
    ensures only { (page : PageSpec) → Fits page → Spells bytes.now page → result ≡ Some page }
{
    if bytes[..8] == LEAF_MARK[..] {
        leaf_of(bytes)
    } else if bytes[..8] == NODE_MARK[..] {
        inner_of(bytes)
    } else {
        None
    }
}

/// The leaf that a block with the mark of a leaf is, or `None` if it is damaged. Other bytes are other fields and points, so they
/// are not compared with the page that is returned. The places that are not read are compared with zeros.
// It is not inlined, so that the page is made in its place and not copied once more.
#[inline(never)]
fn leaf_of(bytes: &[u8; PAGE]) -> Option<NodePage>
    requires { take 8 bytes.now ≡ codes "BTR-LEAF" }
    ensures found { IfSome result (λ page. Spells bytes.now page) }
    ensures fits { IfSome result (λ page. Fits page) }
    ensures only { (page : PageSpec) → Fits page → Spells bytes.now page → result ≡ Some page }
{
    if bytes[40..64] != GAP[..] {
        return None;
    }
    let header = read_header(bytes);
    let mut points = [Point { time: 0, value: 0 }; LEAF_POINTS];
    read_points(bytes, &mut points);
    if !is_leaf(&header, &points) {
        return None;
    }
    Some(NodePage::Leaf {
        start: header.start,
        height: header.height,
        stream: header.stream,
        version: header.version,
        count: header.count,
        points,
    })
}

/// The inner node that a block with the mark of an inner node is, or `None` if it is damaged. Other bytes are other fields and
/// slots, as `read_slots` refuses the numbers of no aggregate. The places that are not read are compared with zeros.
// It is not inlined, as `leaf_of` is not.
#[inline(never)]
fn inner_of(bytes: &[u8; PAGE]) -> Option<NodePage>
    requires { take 8 bytes.now ≡ codes "BTR-NODE" }
    ensures found { IfSome result (λ page. Spells bytes.now page) }
    ensures fits { IfSome result (λ page. Fits page) }
    ensures only { (page : PageSpec) → Fits page → Spells bytes.now page → result ≡ Some page }
{
    if bytes[40..64] != GAP[..] || bytes[3648..] != TAIL[..] {
        return None;
    }
    let header = read_header(bytes);
    let mut slots = [PageSlot {
        agg: Agg::none(),
        version: 0,
        child: 0,
    }; SLOTS];
    if !read_slots(bytes, &mut slots) || !is_inner(&header, &slots) {
        return None;
    }
    Some(NodePage::Inner {
        start: header.start,
        height: header.height,
        stream: header.stream,
        version: header.version,
        count: header.count,
        slots,
    })
}

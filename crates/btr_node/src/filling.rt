//! Pages that are filled in place, piece by piece: no page is made as a value.
ghost use Rattle.std.specs.Prelude.{◌≡◌, ◌≤◌, ◌-◌, ◌++◌, length, take, codes};
ghost use Rattle.btr_node.specs.Page.{header_bytes, page_bytes, places_with, zeros};
ghost use Rattle.btr_node.specs.declared.page.NodePage.TheVariants.{Leaf};

use crate::codec::{LEAF_MARK, NODE_MARK};
use crate::fields::put;
use crate::page::{PAGE, PageHeader};
use crate::writing::{put_header, put_points};
use btr_base::Point;

/// Writes the page of a leaf with these fields and points, and unused places after them. It takes constant time and no memory.
pub fn fill_leaf(to: &mut [u8; PAGE], header: &PageHeader, points: &[Point])
    requires few { length points.now ≤ 252 }
    ensures { to.new ≡ page_bytes
        (Leaf header.now.start header.now.height header.now.stream header.now.version header.now.count (places_with points.now)) }
{
    put(to, 0, &LEAF_MARK);
    put_header(to, header);
    put_points(to, points);
    put_zeros(to, 64 + 16 * points.len());
}

/// Writes the first 64 bytes of the page of an inner node with these fields: 64 slots follow them, and then its end. It takes
/// constant time and no memory.
pub fn put_inner_header(to: &mut [u8; PAGE], header: &PageHeader)
    ensures { take 64 to.new ≡ codes "BTR-NODE" ++ header_bytes header.now }
{
    put(to, 0, &NODE_MARK);
    put_header(to, header);
}

/// Writes the zeros that follow the slots of the page of an inner node. It takes constant time and no memory.
pub fn put_inner_end(to: &mut [u8; PAGE])
    ensures { to.new ≡ take 3648 to.old ++ zeros 448 }
{
    put_zeros(to, 3648);
}

/// Writes zeros from the index `at` on, up to the end of the page.
fn put_zeros(to: &mut [u8; PAGE], at: usize)
    requires { at ≤ 4096 }
    ensures { to.new ≡ take at to.old ++ zeros (4096 - at) }
{
    let bytes = &mut to[..];
    bytes[at..].fill(0);
}

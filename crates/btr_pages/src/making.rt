//! How a tree is made of a page.
ghost use Rattle.std.specs.Prelude.{◌≡◌, ℕ, IfOk, MatchOption};
ghost use Rattle.btr_base.specs.Span.{IsSpan};
ghost use Rattle.btr_node.specs.Page.{Keeps, Fits, IsInnerPage};
ghost use Rattle.btr_pages.specs.Made.{AreLeafPoints, IsBuildable, IsInnerMadeOf, IsLeafMade, IsMadeAt, header_span};

use crate::children::{parts_of, versions};
use crate::known::Known;
use crate::trees::Trees;
use btr_base::{Bag, Point, Span};
use btr_node::{NodePage, PageHeader, PageSlot};
use btr_tree::{Steps, Tree};
use std::alloc::{AllocError, Global};

/// Makes the tree of a page. `None` is that the page has a child of which no tree was made, or one that is not in a lower block. An
/// `Err` is out of memory.
pub(crate) fn make<L>(
    alloc: Global,
    nodes: &Trees,
    block: u64,
    page: &NodePage,
    steps: &mut Steps<L>,
) -> Result<Option<Known>, AllocError>
    requires keeps { Keeps page.now }
    requires fits { Fits page.now }
    ensures { IfOk result (λ r. MatchOption r (IsBuildable nodes.now block page.now → ⊥) (IsMadeAt nodes.now block page.now)) }
{
    let header = page.header();
    let span = page.span();
    let tree = match page {
        NodePage::Leaf { points, .. } => {
            let points = &points[..header.count as usize];
            make_leaf(alloc, block, span, header.version, points, steps)?
        }
        NodePage::Inner { slots, .. } => {
            let Some(tree) = make_inner(alloc, nodes, block, &header, slots, steps)? else {
                return Ok(None);
            };
            tree
        }
    };
    Ok(Some(Known {
        block,
        stream: header.stream,
        count: header.count,
        tree,
    }))
}

/// Makes the tree of the points of a leaf's page. An `Err` is out of memory.
fn make_leaf<L>(
    alloc: Global,
    block: u64,
    span: Span,
    version: u64,
    points: &[Point],
    steps: &mut Steps<L>,
) -> Result<Tree, AllocError>
    requires { AreLeafPoints span points.now }
    ensures { IfOk result (IsLeafMade block span version points.now) }
{
    let bag = Bag::from_points(Vec::from_slice(alloc, points)?);
    Tree::leaf(alloc, span, version, block, &bag, steps)
}

/// Makes the tree of an inner node's page. `None` is that the page has a child of which no tree was made, or one that is not in a
/// lower block. An `Err` is out of memory.
fn make_inner<L>(
    alloc: Global,
    nodes: &Trees,
    block: u64,
    header: &PageHeader,
    slots: &[PageSlot; 64],
    steps: &mut Steps<L>,
) -> Result<Option<Tree>, AllocError>
    requires keeps { IsInnerPage header.now slots.now }
    ensures { IfOk result (λ r. IsInnerMadeOf nodes.now block header.now slots.now r) }
{
    let span = span_of(header);
    let Some(parts) = parts_of(alloc, nodes, block, span, header.stream, slots)? else {
        return Ok(None);
    };
    let version = header.version;
    let tree = Tree::inner(alloc, span, version, block, &parts, &versions(slots), steps)?;
    Ok(Some(tree))
}

/// The span of a page with these fields.
fn span_of(header: &PageHeader) -> Span
    requires { IsSpan (header_span header.now) }
    ensures { result ≡ header_span header.now }
{
    Span {
        start: header.start,
        height: header.height as u8,
    }
}

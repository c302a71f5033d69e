//! Nodes that are fetched from blocks, one page at a time.
ghost use Rattle.std.specs.Prelude.{◌≡◌, ◌↔◌, ℕ, ◌<◌, ◌≤◌, IfOk, IfErr, IsTrue};
ghost use Rattle.btr_base.specs.declared.limits.TheConstants.{FIRST as BEGIN};
ghost use Rattle.btr_node.specs.Page.{Keeps, Fits};
ghost use Rattle.btr_node.specs.declared.page.NodePage.{NodePage as PageSpec};
ghost use Rattle.btr_tree.specs.Nodes.{above_root};
ghost use Rattle.btr_tree.specs.PageNodes.{IsRootPage};
ghost use Rattle.btr_tree.specs.Root.{root_part};
ghost use Rattle.btr_tree.specs.NodeSource.{AtEachPlace, UsesSource};
ghost use Rattle.btr_tree.specs.Spots.{IsNodeCause, IsFetchCause, IsRootCause, IsHarmlessFault, FitsSpot, IsSafeSpot, IsSpotAt};
ghost use Rattle.btr_tree.specs.Spots.{StandsIn, MayStandIn, AtEachRoot, AtEachPossibleRoot, IsRootSpot, page_spot};

use crate::spot::{Root, Spot};
use btr_base::{ROOT_HEIGHT, Span};
use btr_node::NodePage;

/// Why a node is not fetched.
#[derive(Clone, Copy, PartialEq, Eq)]
pub enum NodeFault {
    /// A call failed. The count of faults rose in that call.
    Failed,

    /// A block is not as it should be. It has no page; or its page has a slot whose child has a page, but not that of the slot.
    Damaged { block: u64 },

    /// Out of memory.
    Want,
}

/// Where the pages of nodes are fetched from.
///
/// A type that is observable tells which page each block has. A call of another type may return any page that keeps the table.
pub trait Nodes {
    /// Whether the contracts of this type speak of the pages in blocks.
    ghost is_observable: { Type 0 };

    /// The type of what it tells of the blocks.
    ghost Contents: { Type 0 };

    /// What it tells of the blocks.
    ghost contents: { Self → Contents };

    /// The block has this page.
    ghost IsPage: { Contents → ℕ → PageSpec → Type 0 };

    /// How many calls failed.
    ghost faults: { Self → ℕ };

    /// The page in a block. `Damaged` names this block, and is returned only if it has no page.
    fn node(&mut self, block: u64) -> Result<NodePage, NodeFault>
        ensures keeps { IfOk result (λ page. Keeps page) }
        ensures fits { IfOk result (λ page. Fits page) }
        ensures page { is_observable → IfOk result (λ page. IsPage (contents self.old) block page) }
        ensures same { contents self.new ≡ contents self.old }
        ensures rises { faults self.old ≤ faults self.new }
        ensures cause { IfErr result (IsNodeCause is_observable (IsPage (contents self.old)) block (faults self.old) (faults self.new)) };

    /// A block has one page at most.
    ghost one_page: { (c : Contents) (block : ℕ) (p q : PageSpec) → IsPage c block p → IsPage c block q → p ≡ q };
}

/// Fetches the page of a span's node. It is that of the place, or else the block of the parent is named as damaged.
pub fn fetch_node<N: Nodes>(nodes: &mut N, span: Span, at: Spot) -> Result<NodePage, NodeFault>
    requires safe { IsSafeSpot N.is_observable (λ o. N.IsPage (N.contents nodes.old)) at span }
    requires some { 0 < at.count }
    ensures keeps { IfOk result (λ page. Keeps page) }
    ensures fits { IfOk result (λ page. Fits page × FitsSpot at span page) }
    ensures page { N.is_observable → IfOk result (λ page. N.IsPage (N.contents nodes.old) at.block page) }
    ensures sound { N.is_observable → IfErr result (λ e.
        AtEachPlace (IsSpotAt (StandsIn (N.IsPage (N.contents nodes.old)))) at span (λ h. IsHarmlessFault e)) }
    ensures uses { UsesSource N.contents N.faults
        (λ t. IsFetchCause N.is_observable (λ o. N.IsPage t)) nodes.old nodes.new result }
{
    let page = nodes.node(at.block)?;
    if !is_page_of(&page, span, at) {
        return Err(NodeFault::Damaged { block: at.parent });
    }
    Ok(page)
}

/// Whether a page is that of a place.
fn is_page_of(page: &NodePage, span: Span, at: Spot) -> bool
    requires { Keeps page.now }
    ensures { IsTrue result ↔ FitsSpot at span page.now }
{
    let header = page.header();
    page.span() == span
        && header.stream == at.stream
        && header.version == at.version
        && header.count == at.count
}

/// The place of a root, whose page is fetched: a walk begins there. It is that of no point if the root's block is 0.
///
/// If the root's block has no page of a root of the stream which is not newer than the version, that block is named as damaged.
pub fn find_root<N: Nodes>(nodes: &mut N, root: Root) -> Result<Spot, NodeFault>
    ensures safe { IfOk result (λ at. IsSafeSpot N.is_observable (λ o. N.IsPage (N.contents nodes.new)) at root_part) }
    ensures found { N.is_observable → IfOk result (IsRootSpot (N.IsPage (N.contents nodes.old)) root) }
    ensures at { N.is_observable → IfOk result (λ at. AtEachPossibleRoot (N.IsPage (N.contents nodes.old)) root
        (λ h. IsSpotAt (MayStandIn (N.IsPage (N.contents nodes.old))) at 10 BEGIN above_root h)) }
    ensures there { N.is_observable → IfOk result (λ at. AtEachRoot (N.IsPage (N.contents nodes.old)) root
        (λ h. IsSpotAt (StandsIn (N.IsPage (N.contents nodes.old))) at 10 BEGIN above_root h)) }
    ensures sound { N.is_observable → IfErr result (λ e. AtEachRoot (N.IsPage (N.contents nodes.old)) root (λ h. IsHarmlessFault e)) }
    ensures uses { UsesSource N.contents N.faults
        (λ t. IsRootCause N.is_observable root (λ o. N.IsPage t)) nodes.old nodes.new result }
{
    if root.block == 0 {
        return Ok(Spot {
            block: 0,
            stream: root.stream,
            version: root.version,
            count: 0,
            parent: 0,
        });
    }
    let page = nodes.node(root.block)?;
    if !is_root_page(&page, root) {
        return Err(NodeFault::Damaged { block: root.block });
    }
    Ok(spot_of(&page, root.block))
}

/// Whether a page is that of a root.
fn is_root_page(page: &NodePage, root: Root) -> bool
    ensures { IsTrue result ↔ IsRootPage root.stream root.version page.now }
{
    let header = page.header();
    header.height == u32::from(ROOT_HEIGHT)
        && header.stream == root.stream
        && header.version <= root.version
}

/// The place of a page in a block, as that of a root.
fn spot_of(page: &NodePage, block: u64) -> Spot
    ensures { result ≡ page_spot block page.now }
{
    let header = page.header();
    Spot {
        block,
        stream: header.stream,
        version: header.version,
        count: header.count,
        parent: block,
    }
}

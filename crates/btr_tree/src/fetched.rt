//! Fetched nodes as a source.
ghost use Rattle.std.specs.Prelude.{◌≡◌, ℕ, ◌<◌, nat_lt};
ghost use Rattle.btr_tree.specs.Fetched.{found_in};
ghost use Rattle.btr_tree.specs.Spots.{shown_slot};

use crate::fetch::{NodeFault, Nodes, fetch_node};
use crate::found::FoundNode;
use crate::node::Slot;
use crate::source::NodeSource;
use crate::spot::Spot;
use crate::steps::Steps;
use btr_base::{FAN_OUT, LEAF_POINTS, Point, Span};
use btr_node::{NodePage, PageSlot};
use std::marker::PhantomData;

/// Fetched nodes as a source. Its places are those that pages name, and its state fetches the pages.
pub struct Fetched<N> {
    nodes: PhantomData<N>,
}

/// The points of a leaf's page.
#[derive(Clone, Copy)]
pub struct PagePoints {
    count: u64,
    points: [Point; 252],
}

/// The slots of an inner node's page, and where the page is from.
#[derive(Clone, Copy)]
pub struct PageSlots {
    block: u64,
    stream: u32,
    slots: [PageSlot; 64],
}

impl<N: Nodes> NodeSource for Fetched<N> {
    ghost use Rattle.std.specs.Prelude.{take};
    ghost use Rattle.btr_tree.specs.declared.spot.Spot.{Spot as SpotSpec};
    ghost use Rattle.btr_tree.specs.Spots.{IsFetchedAt, IsSafeSpot, IsFetchCause, IsHarmlessFault, shown_spot};
    ghost use Rattle.btr_tree.specs.Spots.{StandsIn, MayStandIn};
    ghost use Rattle.btr_tree.specs.FetchedLaws.{cause_earlier};

    type State = N;

    type Place = Spot;

    type Leaf = PagePoints;

    type Inner = PageSlots;

    type Fault = NodeFault;

    ghost Told = { N.Contents };

    ghost told = { N.contents };

    ghost faults = { N.faults };

    ghost Site = { SpotSpec };

    ghost site = { λ s. s };

    ghost count = { λ s. s.count };

    ghost IsAt = { λ t. IsFetchedAt N.is_observable (λ o. MayStandIn (N.IsPage t)) };

    ghost IsThere = { λ t. IsFetchedAt N.is_observable (λ o. StandsIn (N.IsPage t)) };

    ghost IsSafe = { λ t s height start. IsSafeSpot N.is_observable (λ o. N.IsPage t) s (record { start = start; height = height }) };

    ghost IsCaused = { λ t. IsFetchCause N.is_observable (λ o. N.IsPage t) };

    ghost IsHarmless = { IsHarmlessFault };

    ghost leaf_points = { λ leaf. take leaf.count leaf.points };

    ghost inner_slot = { λ inner. shown_slot inner.slots };

    ghost inner_place = { λ inner. shown_spot inner.block inner.stream inner.slots };

    ghost caused_earlier = { λ t. cause_earlier N.is_observable (λ o. N.IsPage t) };

    fn visit<L>(
        state: &mut N,
        span: Span,
        at: Spot,
        steps: &mut Steps<L>,
    ) -> Result<FoundNode<PagePoints, PageSlots>, NodeFault> {
        if at.count == 0 {
            return Ok(FoundNode::Nothing);
        }
        steps.tick();
        let page = fetch_node(state, span, at)?;
        Ok(found(page, at))
    }

    fn points<'b>(leaf: &'b PagePoints) -> &'b [Point] {
        let count = leaf.count as usize;
        &leaf.points[..count.min(LEAF_POINTS)]
    }

    fn slot(inner: &PageSlots, i: u8) -> Slot {
        let slot = &inner.slots[usize::from(i)];
        Slot {
            agg: slot.agg,
            version: slot.version,
            child: 0,
        }
    }

    fn place(inner: &PageSlots, i: u8) -> Spot {
        let slot = &inner.slots[usize::from(i)];
        Spot {
            block: slot.child,
            stream: inner.stream,
            version: slot.version,
            count: slot.agg.count,
            parent: inner.block,
        }
    }

    fn next_occupied(inner: &PageSlots, from: u8) -> Option<u8> {
        for i in from..FAN_OUT {
            if has_points(&inner.slots, i) {
                return Some(i);
            }
        }
        None
    }

    fn previous_occupied(inner: &PageSlots, to: u8) -> Option<u8> {
        let mut i = to;
        while i > 0 {
            i -= 1;
            if has_points(&inner.slots, i) {
                return Some(i);
            }
        }
        None
    }
}

/// What is found at a place, from its page.
fn found(page: NodePage, at: Spot) -> FoundNode<PagePoints, PageSlots>
    ensures { result ≡ found_in at page }
{
    match page {
        NodePage::Leaf {
            version,
            count,
            points,
            ..
        } => FoundNode::Leaf {
            version,
            points: PagePoints { count, points },
        },
        NodePage::Inner { version, slots, .. } => FoundNode::Inner {
            version,
            slots: PageSlots {
                block: at.block,
                stream: at.stream,
                slots,
            },
        },
    }
}

/// Whether slot `i` of a page has a point.
fn has_points(slots: &[PageSlot; 64], i: u8) -> bool
    requires { i < 64 }
    ensures { result ≡ nat_lt 0 (shown_slot slots.now i).agg.count }
{
    slots[usize::from(i)].count() > 0
}

//! Where a walk finds the nodes of a tree.
ghost use Rattle.std.specs.Prelude.{◌≡◌, ℕ, ℤ, ◌<◌, ◌≤◌, Bool, List, IfOk, IfErr};
ghost use Rattle.btr_base.specs.declared.point.Point.{Point as PointSpec};
ghost use Rattle.btr_tree.specs.declared.node.Slot.{Slot as SlotSpec};
ghost use Rattle.btr_tree.specs.History.{Past};
ghost use Rattle.btr_tree.specs.Slots.{IsNextOccupied, IsPreviousOccupied};
ghost use Rattle.btr_tree.specs.NodeSource.{AtEachPlace, IsRightlyFound, IsSafeFound, UsesSource, CountsVisit};

use crate::found::FoundNode;
use crate::node::Slot;
use crate::steps::Steps;
use btr_base::{Point, Span};

/// Where a walk finds the nodes of a tree: in memory, or in blocks that it fetches one at a time.
///
/// A walk is generic in its source, and so it is proved once for all sources. It starts at the place of a root, and visits
/// places that it reads from inner nodes. The state is what a visit may change. It serves all roots of a walk.
///
/// A source may refuse a visit. What it finds is safe to walk, whatever it holds. What it finds are the nodes of each past's tree
/// of which it may hold a part: it never finds nothing for a node that is lost. If it holds the whole tree of a past, then it
/// refuses only harmlessly.
pub trait NodeSource {
    /// What a visit needs and may change.
    type State;

    /// Where the node of a span is.
    type Place: Copy;

    /// The points of a leaf.
    type Leaf: Drop;

    /// The slots of an inner node.
    type Inner: Drop;

    /// Why a visit is refused.
    type Fault: Drop;

    /// The type of what a state tells.
    ghost Told: { Type 0 };

    /// What a state tells of the nodes.
    ghost told: { Self.State → Told };

    /// How many calls failed.
    ghost faults: { Self.State → ℕ };

    /// The type of what contracts see of a place.
    ghost Site: { Type 0 };

    /// What contracts see of a place.
    ghost site: { Self.Place → Site };

    /// At most how many points there are at a place, by what the place itself says.
    ghost count: { Site → ℕ };

    /// The place may be that of a span, by its height and start, after a past: each node that the source holds there and below it
    /// is that of the past's tree, but some may be lost. The span above it was an inner node as `above` says.
    ghost IsAt: { Told → Site → ℕ → ℤ → (List PointSpec → Bool) → Past → Type 0 };

    /// The place is that of a span after a past, and the source holds all nodes there and below it.
    ghost IsThere: { Told → Site → ℕ → ℤ → (List PointSpec → Bool) → Past → Type 0 };

    /// A walk may visit the place as that of a span, by its height and start.
    ghost IsSafe: { Told → Site → ℕ → ℤ → Type 0 };

    /// Why a call is refused, by what the state tells and by the faults before and after it.
    ghost IsCaused: { Told → ℕ → ℕ → Self.Fault → Type 0 };

    /// The refusal says nothing against what the source holds.
    ghost IsHarmless: { Self.Fault → Type 0 };

    /// The points of a leaf.
    ghost leaf_points: { Self.Leaf → List PointSpec };

    /// The slots of an inner node, by their numbers.
    ghost inner_slot: { Self.Inner → ℕ → SlotSpec };

    /// The places of the children of an inner node, by the numbers of their slots.
    ghost inner_place: { Self.Inner → ℕ → Site };

    /// Visits the node of a span. It counts one step, or none if it finds nothing. It takes constant time, and no memory but
    /// what it returns.
    fn visit<L>(
        state: &mut Self::State,
        span: Span,
        at: Self::Place,
        steps: &mut Steps<L>,
    ) -> Result<FoundNode<Self::Leaf, Self::Inner>, Self::Fault>
        requires safe { IsSafe (told state.old) (site at) span.height span.start }
        ensures safe { IfOk result (IsSafeFound (IsSafe (told state.old)) count leaf_points inner_slot inner_place (count (site at)) span) }
        ensures found { IfOk result (IsRightlyFound (IsAt (told state.old)) leaf_points inner_slot inner_place (site at) span) }
        ensures there { IfOk result (IsRightlyFound (IsThere (told state.old)) leaf_points inner_slot inner_place (site at) span) }
        ensures sound { IfErr result (λ e. AtEachPlace (IsThere (told state.old)) (site at) span (λ h. IsHarmless e)) }
        ensures uses { UsesSource told faults IsCaused state.old state.new result }
        ensures counts { CountsVisit steps.old steps.new result };

    /// The points of a leaf, by time and value, in constant time. It takes no memory.
    fn points<'b>(leaf: &'b Self::Leaf) -> &'b [Point]
        ensures { result.now ≡ leaf_points leaf.now };

    /// Slot `i` of an inner node, without the address of its child, in constant time. It takes no memory.
    fn slot(inner: &Self::Inner, i: u8) -> Slot
        requires { i < 64 }
        ensures { result ≡ inner_slot inner.now i };

    /// The place of the child of slot `i` of an inner node, in constant time. It takes no memory.
    fn place(inner: &Self::Inner, i: u8) -> Self::Place
        requires { i < 64 }
        ensures { site result ≡ inner_place inner.now i };

    /// The first slot from `from` on that has a point, or `None` if there is none. It takes time linear in the number of slots
    /// from `from` on, and no memory.
    fn next_occupied(inner: &Self::Inner, from: u8) -> Option<u8>
        requires { from ≤ 64 }
        ensures { IsNextOccupied (inner_slot inner.now) from result };

    /// The last slot below `to` that has a point, or `None` if there is none. It takes time linear in `to`, and no memory.
    fn previous_occupied(inner: &Self::Inner, to: u8) -> Option<u8>
        requires { to ≤ 64 }
        ensures { IsPreviousOccupied (inner_slot inner.now) to result };

    /// A refusal that has its cause since some call has it since each earlier one.
    ghost caused_earlier: { (t : Told) (a b c : ℕ) (e : Self.Fault) → a ≤ b → IsCaused t b c e → IsCaused t a c e };
}

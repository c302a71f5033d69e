//! How many nodes points get.
ghost use Rattle.std.specs.Prelude.{◌≡◌, ◌≤◌, ◌+◌, ◌*◌, ◌^◌, ℕ, true, length};
ghost use Rattle.btr_base.specs.Bag.{IsInOrder, within};
ghost use Rattle.btr_tree.specs.History.{bag, ◌▷◌};
ghost use Rattle.btr_tree.specs.Change.{AtEachFresh, end_of};
ghost use Rattle.btr_tree.specs.NewNodes.{new_nodes};
ghost use Rattle.btr_tree.specs.Shared.{slot_from, AtEachPart, IsNodeCount};

use btr_base::{FAN_OUT, LEAF_POINTS, Point, Span, parted};

/// How many nodes `build` makes for `points`, if it does not fail.
#[cycle(count)]
fn count_nodes(span: Span, points: &[Point]) -> u64
    requires order { IsInOrder points.now }
    requires inside { within span.start (end_of span) points.now ≡ points.now }
    requires room { 11 * length points.now ≤ 2 ^ 62 }
    ensures count { (version : ℕ) → AtEachFresh span version points.now (λ above h c. above (bag (c ▷ h)) ≡ true
        → result ≡ length (new_nodes span.height span.start above (c ▷ h) version)) }
    ensures few { result ≤ (span.height + 1) * length points.now }
{
    if points.is_empty() {
        return 0;
    }
    if points.len() <= LEAF_POINTS || span.height == 0 {
        return 1;
    }
    1 + count_slots(span, 0, FAN_OUT, points)
}

/// How many nodes are made for the points in the slots of a span from one up to, and without, another.
#[cycle(count)]
pub(crate) fn count_slots(span: Span, from: u8, to: u8, points: &[Point]) -> u64
    requires height { 1 ≤ span.height }
    requires place { (from ≤ to) × (to ≤ 64) }
    requires order { IsInOrder points.now }
    requires inside { within (slot_from span from) (slot_from span to) points.now ≡ points.now }
    requires room { 11 * length points.now ≤ 2 ^ 62 }
    ensures count { (version : ℕ) → AtEachPart span from to version points.now (λ below h c.
        IsNodeCount below span.start from to (c ▷ h) version result) }
    ensures few { result ≤ span.height * length points.now }
{
    let mut count = 0;
    let mut rest = points;
    for i in from..to {
        let part = span.slot(i);
        let (here, after) = parted(rest, part.end());
        count += count_nodes(part, here);
        rest = after;
    }
    count
}

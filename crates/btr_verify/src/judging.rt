//! How a page is judged: by the tree of its own version, and by the marks of its children.
ghost use Rattle.std.specs.Prelude.{◌≡◌, ◌↔◌, ℕ, List, map, slice_get, Some, IfNone, IfSome, IsTrue};
ghost use Rattle.btr_disk.specs.Bytes.{Image};
ghost use Rattle.btr_node.specs.Page.{Keeps, header, slots_of_page};
ghost use Rattle.btr_tree.specs.PageNodes.{Pages, node_of_page, slot_of_page};
ghost use Rattle.btr_hist.specs.declared.entry.Entry.{Entry as EntrySpec};
ghost use Rattle.btr_streams.specs.Board.{HasVersion};
ghost use Rattle.btr_streams.specs.Snapshot.{IsSnapshotOf};
ghost use Rattle.btr_verify.specs.Judged.{IsOwn};
ghost use Rattle.btr_verify.specs.Same.{stored_node};
ghost use Rattle.btr_verify.specs.declared.judging.Mark.TheVariants.{Right as RightMark, WrongBelow as WrongBelowMark};
ghost use Rattle.btr_verify.specs.Trees.{past_of};
ghost use Rattle.btr_verify.specs.Judging.{AreMarkedRight, CanJudge, HasPageVersion, IsFirstNotRight, IsMarkOf};

use crate::own::is_own;
use btr_base::{Agg, Point, Span};
use btr_node::{NodePage, PageHeader, PageSlot, SLOTS};
use btr_streams::Snapshot;
use btr_tree::{Label, Slot, Steps};

/// The label of the counter of the nodes that are visited in the trees of the entries.
struct JudgeWalk;

impl Label for JudgeWalk {}

/// How the page in a block was judged.
#[derive(Clone, Copy)]
pub(crate) enum Mark {
    /// Its own fields are not those of its node in the tree of its version, or the block has no page.
    Wrong,

    /// Its own fields are right, but a page below it is not.
    WrongBelow,

    /// It is right, with all pages below it.
    Right,
}

/// Judges a page by the tree of its version, and by the marks of its children, which are in lower blocks. It takes time linear in its
/// points or slots.
pub(crate) fn judge(snapshot: &Snapshot, marks: &[Mark], page: &NodePage) -> Mark
    requires { Keeps page.now }
    ensures { (pages : Pages) (h : List EntrySpec) (image : Image) (block : ℕ)
        → CanJudge pages h image block marks.now snapshot.now (Some page.now) → IsMarkOf pages h block result page.now }
{
    if !is_own_page(snapshot, page) {
        return Mark::Wrong;
    }
    match first_not_right(marks, page) {
        Some(_) => Mark::WrongBelow,
        None => Mark::Right,
    }
}

/// Whether the own fields of a page are those of its node in the tree of its version.
fn is_own_page(snapshot: &Snapshot, page: &NodePage) -> bool
    requires { Keeps page.now }
    ensures { (h : List EntrySpec) → IsSnapshotOf h snapshot.now → HasPageVersion h page.now
        → IsTrue result ↔ IsOwn (past_of h (header page.now).stream) (node_of_page page.now) }
{
    let PageHeader {
        stream,
        version,
        count,
        ..
    } = page.header();
    let span = page.span();
    match page {
        NodePage::Leaf { points, .. } => {
            let points = &points[..count as usize];
            is_own_node(snapshot, stream, span, version, points, &[])
        }
        NodePage::Inner { slots, .. } => {
            let slots = tree_slots(slots);
            is_own_node(snapshot, stream, span, version, &[], &slots)
        }
    }
}

/// Whether the fields of a stored node are those of its node in the tree of its version.
fn is_own_node(
    snapshot: &Snapshot,
    stream: u32,
    span: Span,
    version: u64,
    points: &[Point],
    slots: &[Slot],
) -> bool
    ensures { (h : List EntrySpec) → IsSnapshotOf h snapshot.now → HasVersion h stream version
        → IsTrue result ↔ IsOwn (past_of h stream) (stored_node span version points.now slots.now) }
{
    match snapshot.tree(stream, version) {
        None => false,
        Some(tree) => {
            let mut steps = Steps::<JudgeWalk>::new();
            is_own(tree, span, version, points, slots, &mut steps)
        }
    }
}

/// The slots of an inner node's page, as slots of the tree.
fn tree_slots(slots: &[PageSlot; SLOTS]) -> [Slot; SLOTS]
    ensures { result ≡ map slot_of_page slots.now }
{
    let none = Slot {
        agg: Agg::none(),
        version: 0,
        child: 0,
    };
    let mut all = [none; SLOTS];
    for i in 0..SLOTS {
        all[i] = tree_slot(&slots[i]);
    }
    all
}

/// A slot of a page, as a slot of the tree.
fn tree_slot(slot: &PageSlot) -> Slot
    ensures { result ≡ slot_of_page slot.now }
{
    Slot {
        agg: slot.agg,
        version: slot.version,
        child: slot.child,
    }
}

/// The child of the first slot of a page that has a point and whose child is not right, if there is one.
pub(crate) fn first_not_right(marks: &[Mark], page: &NodePage) -> Option<u64>
    ensures found { IfSome result (IsFirstNotRight marks.now (slots_of_page page.now)) }
    ensures none { IfNone result (AreMarkedRight marks.now (slots_of_page page.now)) }
{
    for slot in page.slots() {
        if slot.count() > 0 && !is_right(marks, slot.child) {
            return Some(slot.child);
        }
    }
    None
}

/// Whether the page in a block is right, with all pages below it.
pub(crate) fn is_right(marks: &[Mark], block: u64) -> bool
    ensures { IsTrue result ↔ (slice_get marks.now block ≡ Some RightMark) }
{
    match marks.get(block as usize) {
        Some(Mark::Right) => true,
        _ => false,
    }
}

/// Whether the own fields of the page in a block are right, but a page below it is not.
pub(crate) fn is_wrong_below(marks: &[Mark], block: u64) -> bool
    ensures { IsTrue result ↔ (slice_get marks.now block ≡ Some WrongBelowMark) }
{
    match marks.get(block as usize) {
        Some(Mark::WrongBelow) => true,
        _ => false,
    }
}

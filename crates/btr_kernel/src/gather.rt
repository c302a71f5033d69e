//! The points that an output needs, from the trees of its inputs.
ghost use Rattle.std.specs.Prelude.{◌≡◌, ◌^◌, ◌≤◌, ℤ, map, Option, IfOk};
ghost use Rattle.std.specs.List.{filter};
ghost use Rattle.std.specs.Option.{option_map};
ghost use Rattle.btr_base.specs.Bag.{IsInOrder};
ghost use Rattle.btr_base.specs.Point.{AreInDomain};
ghost use Rattle.btr_base.specs.Range.{covered};
ghost use Rattle.btr_tree.specs.History.{bag, Past};
ghost use Rattle.btr_tree.specs.Root.{AtEachTree};
ghost use Rattle.btr_kernel.specs.Past.{begun_earlier as earlier};
ghost use Rattle.btr_kernel.specs.Sources.{IsSecond, second_past_points};

use btr_base::{FIRST, Point, ROOT_HEIGHT, Range, Ranges};
use btr_scan::append_range;
use btr_tree::Tree;
use std::alloc::{AllocError, Global};

/// The ranges, each begun so much earlier, at the earliest at the first time of the domain, and joined where they then touch or
/// overlap. It takes linear time. An `Err` means out of memory.
pub(crate) fn with_past(alloc: Global, ranges: &Ranges, lead: u64) -> Result<Ranges, AllocError>
    requires { lead ≤ 2 ^ 60 }
    ensures { IfOk result (λ r. (t : ℤ) → covered r t ≡ covered (map (earlier lead) ranges.now) t) }
{
    let mut all = Ranges::none(alloc);
    for range in ranges.as_slice() {
        all.add(begun_earlier(*range, lead))?;
    }
    Ok(all)
}

/// The range with its begin so much earlier, at the earliest at the first time of the domain.
fn begun_earlier(range: Range, lead: u64) -> Range
    requires { lead ≤ 2 ^ 60 }
    ensures { result ≡ earlier lead range }
{
    Range {
        from: FIRST.max(range.from - lead as i64),
        to: range.to,
    }
}

/// The points of a tree whose times ranges cover. The cost is that of each range's points, and of the nodes on the way to its
/// two ends. An `Err` means out of memory.
pub(crate) fn gather(alloc: Global, tree: &Tree, ranges: &Ranges) -> Result<Vec<Point>, AllocError>
    ensures points { IfOk result (λ v. AtEachTree tree.now (λ h. v.items ≡ filter (λ p. covered ranges.now p.time) (bag h))) }
    ensures order { IfOk result (λ v. IsInOrder v.items) }
    ensures domain { IfOk result (λ v. AreInDomain v.items) }
{
    // the proof reads here that a tree of the whole domain is that of some past
    let _kept = tree.share()?;
    let whole = tree.span();
    if whole.height < ROOT_HEIGHT {
        return Ok(Vec::new(alloc));
    }
    let mut points = Vec::new(alloc);
    for part in ranges.as_slice() {
        append_range(tree, *part, &mut points)?;
    }
    Ok(points)
}

/// The points of the second tree whose times ranges cover, if there is such a tree. An `Err` means out of memory.
pub(crate) fn gather_second(
    alloc: Global,
    tree: Option<&Tree>,
    ranges: &Ranges,
) -> Result<Vec<Point>, AllocError>
    ensures points { IfOk result (λ v. (k : Option Past) → IsSecond k (option_map (λ t. t.now) tree.entry)
        → v.items ≡ filter (λ p. covered ranges.now p.time) (second_past_points k)) }
    ensures order { IfOk result (λ v. IsInOrder v.items) }
{
    match tree {
        Some(tree) => gather(alloc, tree, ranges),
        None => Ok(Vec::new(alloc)),
    }
}

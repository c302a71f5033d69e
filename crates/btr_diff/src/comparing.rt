//! The changed slots between two trees.
ghost use Rattle.std.specs.Prelude.{◌≡◌, ◌+◌, ◌≤◌, [], map, false, IfOk, IfErr, OnOk};
ghost use Rattle.btr_base.specs.declared.limits.TheConstants.{FIRST as FIRST_TIME};
ghost use Rattle.btr_base.specs.Changes.{changes as changes_of};
ghost use Rattle.btr_base.specs.Cut.{lengthened, union};
ghost use Rattle.btr_tree.specs.History.{Past, bag};
ghost use Rattle.btr_tree.specs.Nodes.{above_root, up_to};
ghost use Rattle.btr_tree.specs.Root.{IsTree, root_part};
ghost use Rattle.btr_tree.specs.NodeSource.{IfRefused, UsesSource};
ghost use Rattle.btr_tree.specs.Uncounted.{uncounted_tree};
ghost use Rattle.btr_tree.specs.Newer.{newer_nodes};
ghost use Rattle.btr_diff.specs.Comparison.{AreChanges, AreSafeRoots, AtRoots, CountsRoot, CountsOlder, IsPlace, IsNoNewer};

use crate::comparison::{Comparison, Findings, Task};
use crate::tree_walk::compare_found;
use btr_base::Ranges;
use btr_tree::{
    Aside, FoundNode, Memory, NodeSource, Steps, Tree, Uncounted, WalkFault, root_span,
};
use std::alloc::{AllocError, Global};

/// Returns the longest runs of aligned slots of `2^p` ns in which some time has other points in the newer tree than in
/// the older one (BTrDB's ComputeDiff). Equal points count each. `p` is 0 to 62, the caller's condition.
///
/// The answer is exact if `old` is version `since` of the same stream as `new`. Of the newer tree the call visits the
/// root, and else only nodes with a version above `since`; each is one step. This holds after an `Err` too, which is out
/// of memory. Of the older tree it visits the nodes in the spans of those, each at most once, and counts them aside: `old` is
/// what `Tree::uncounted` gives. The call is generic in the label `L`, so it has no counter but `steps` and that of `old`.
pub fn changes<L>(
    alloc: Global,
    old: Uncounted<'_>,
    new: &Tree,
    since: u64,
    p: u8,
    steps: &mut Steps<L>,
) -> Result<Ranges, AllocError>
    requires { p ≤ 62 }
    ensures runs { IfOk result (λ r. (h k : Past) → IsTree h (uncounted_tree old.entry) → IsTree k new.now → h ≡ up_to since k
        → r ≡ changes_of p (bag h) (bag k)) }
    ensures bounded { (k : Past) → IsTree k new.now
        → steps.new ≤ steps.old + 1 + newer_nodes 10 FIRST_TIME above_root k since }
    ensures never_falls { steps.old ≤ steps.new }
{
    changes_with_lead(alloc, old, new, since, p, 0, steps)
}

/// Returns the runs that [`changes`] returns, each with its end later by `lead` nanoseconds, at most the domain's end, and
/// joined where they then touch or overlap. `p` is 0 to 62, the caller's condition.
///
/// The answer is exact if `old` is version `since` of the same stream as `new`. It visits the nodes that `changes` visits,
/// and costs as much, or less: where the older tree has no points, it looks at few of those that are closer to each other
/// than the lead. Each changed slot is lengthened as it is added, so no list of all changed slots is made: of ranges, the
/// call takes memory for those that it returns alone.
pub fn changes_with_lead<L>(
    alloc: Global,
    old: Uncounted<'_>,
    new: &Tree,
    since: u64,
    p: u8,
    lead: u64,
    steps: &mut Steps<L>,
) -> Result<Ranges, AllocError>
    requires { p ≤ 62 }
    ensures runs { IfOk result (λ r. (h k : Past) → IsTree h (uncounted_tree old.entry) → IsTree k new.now → h ≡ up_to since k
        → r ≡ union (map (lengthened lead) (changes_of p (bag h) (bag k)))) }
    ensures bounded { (k : Past) → IsTree k new.now
        → steps.new ≤ steps.old + 1 + newer_nodes 10 FIRST_TIME above_root k since }
    ensures never_falls { steps.old ≤ steps.new }
{
    let mut findings = Findings {
        changed: Ranges::none(alloc),
        older: old.counter(),
    };
    let comparison = Comparison {
        alloc,
        since,
        p,
        lead,
    };
    let older = old.link();
    let newer = new.link();
    match compare::<Memory<'_>, Aside, L>(&mut (), comparison, older, newer, &mut findings, steps) {
        Ok(()) => {
            let Findings { changed, older: _ } = findings;
            Ok(changed)
        }
        Err(WalkFault::Want) => Err(AllocError),
        Err(WalkFault::Refused(never)) => match never {},
    }
}

/// Finds the slots in which two trees of a source differ, each lengthened by the lead, and joined where they then touch or
/// overlap. `old` and `new` are the places of their roots. It finds them in place of none, the caller's condition. `p` is 0
/// to 62, as well.
///
/// What it finds is exact if the source holds both trees, and the older one is version `since` of the same stream. Of the newer
/// tree it visits the root, and else only nodes with a version above `since`; `steps` counts them. Of the older tree it visits
/// the nodes in the spans of those, each at most once, and counts them with the counter of the findings. This holds after an
/// `Err` too, which is out of memory, or a refusal of the source; and a part may have been found.
///
/// The call is generic in both labels, so it counts with the counters of its caller alone.
pub fn compare<S: NodeSource, M, L>(
    state: &mut S::State,
    comparison: Comparison,
    old: S::Place,
    new: S::Place,
    findings: &mut Findings<M>,
    steps: &mut Steps<L>,
) -> Result<(), WalkFault<S::Fault>>
    requires given { (comparison.p ≤ 62) × (findings.old.changed ≡ []) }
    requires safe { AreSafeRoots (S.IsSafe (S.told state.old)) (S.site old) (S.site new) }
    ensures finds { OnOk result (AtRoots (S.IsAt (S.told state.old)) (S.site old) (S.site new) (λ h k.
        AreChanges comparison h k findings.new.changed)) }
    ensures sound { IfErr result (IfRefused (λ e. AtRoots (S.IsThere (S.told state.old)) (S.site old) (S.site new)
        (λ h k. S.IsHarmless e))) }
    ensures uses { UsesSource S.told S.faults (λ t a b. IfRefused (S.IsCaused t a b)) state.old state.new result }
    ensures newer { CountsRoot comparison.since (S.IsAt (S.told state.old)) (S.site new) steps.old steps.new }
    ensures older { CountsOlder 0 root_part (S.IsAt (S.told state.old)) (IsPlace (S.site old))
        findings.old.older findings.new.older result }
{
    let task = Task {
        span: root_span(),
        by: comparison,
    };
    match S::visit(state, task.span, new, steps) {
        Err(fault) => Err(WalkFault::Refused(fault)),
        Ok(found) => {
            if !is_newer(&found, comparison.since) {
                return Ok(());
            }
            let compared = compare_found::<S, M, L>(state, task, old, found, findings, steps);
            let _apart = findings.changed.as_slice();
            compared
        }
    }
}

/// Whether a node that was found has a version above this one, or nothing was found.
fn is_newer<F, I>(found: &FoundNode<F, I>, since: u64) -> bool
    ensures { result ≡ false → IsNoNewer since found.now }
{
    match found {
        FoundNode::Nothing => true,
        FoundNode::Leaf { version, .. } | FoundNode::Inner { version, .. } => *version > since,
    }
}

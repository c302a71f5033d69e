//! The changed slots between two roots whose nodes are fetched.
ghost use Rattle.std.specs.Prelude.{◌≡◌, ◌+◌, ◌≤◌, IfOk, IfErr};
ghost use Rattle.btr_base.specs.declared.limits.TheConstants.{FIRST as FIRST_TIME};
ghost use Rattle.btr_base.specs.Changes.{changes as changes_of};
ghost use Rattle.btr_tree.specs.History.{bag};
ghost use Rattle.btr_tree.specs.Newer.{newer_nodes};
ghost use Rattle.btr_tree.specs.Nodes.{above_root, up_to};
ghost use Rattle.btr_tree.specs.Spots.{AtEachPossibleRoot, IsHarmlessFault};
ghost use Rattle.btr_diff.specs.FetchedRoots.{AtBothRoots, AtBothPossibleRoots, IsCompareCause};

use crate::comparing::compare;
use crate::comparison::{Comparison, Findings};
use btr_base::Ranges;
use btr_tree::{Fetched, Label, NodeFault, Nodes, Root, Steps, WalkFault, find_root};
use std::alloc::Global;

/// Returns the longest runs of aligned slots of `2^p` ns in which some time has other points in the version of `new` than in that
/// of `old`, as [`crate::changes`] does for trees in memory. Equal points count each. `p` is 0 to 62, the caller's condition.
///
/// The answer is exact if both are roots of one stream, and `old` is that of the version whose number it has. The call fetches
/// pages one at a time. Of the newer tree it visits the root, and else only nodes with a version above that of `old`; each is one
/// step. This holds after an `Err` too. Of the older tree it visits the nodes in the spans of those, each at most once, and counts
/// them aside. `M` is the label of that counter, the caller's own. The call is generic in both labels, so it makes no other
/// counters. Before the walk it fetches the page of each root once more, to find its place.
///
/// `Failed` is a call that failed. `Damaged` names the block of a root if that has no page of a root of the stream which is not
/// newer than the version; or the block of a slot's child if that has no page; or else the block whose page has a slot with
/// another span, count, version or stream than the page of its child. It is not returned if all pages of two pasts' trees are
/// there. An `Ok` is the answer for both whole trees, although pages of them may be lost. `Want` is out of memory.
pub fn changes_from<N: Nodes, M: Label, L>(
    alloc: Global,
    nodes: &mut N,
    old: Root,
    new: Root,
    p: u8,
    steps: &mut Steps<L>,
) -> Result<Ranges, NodeFault>
    requires { p ≤ 62 }
    ensures runs { N.is_observable → IfOk result (λ r. AtBothPossibleRoots (N.IsPage (N.contents nodes.old)) old new (λ h k.
        h ≡ up_to old.version k → r ≡ changes_of p (bag h) (bag k))) }
    ensures sound { N.is_observable → IfErr result (λ e. AtBothRoots (N.IsPage (N.contents nodes.old)) old new
        (λ h k. IsHarmlessFault e)) }
    ensures same { N.contents nodes.new ≡ N.contents nodes.old }
    ensures rises { N.faults nodes.old ≤ N.faults nodes.new }
    ensures cause { IfErr result (IsCompareCause N.is_observable old new (λ o. N.IsPage (N.contents nodes.old))
        (N.faults nodes.old) (N.faults nodes.new)) }
    ensures bounded { N.is_observable → AtEachPossibleRoot (N.IsPage (N.contents nodes.old)) new (λ k.
        steps.new ≤ steps.old + 1 + newer_nodes 10 FIRST_TIME above_root k old.version) }
    ensures never_falls { steps.old ≤ steps.new }
{
    let older = find_root(nodes, old)?;
    let newer = find_root(nodes, new)?;
    let comparison = Comparison {
        alloc,
        since: old.version,
        p,
        lead: 0,
    };
    let mut findings = Findings {
        changed: Ranges::none(alloc),
        older: Steps::<M>::new(),
    };
    match compare::<Fetched<N>, M, L>(nodes, comparison, older, newer, &mut findings, steps) {
        Ok(()) => {
            let Findings { changed, older: _ } = findings;
            Ok(changed)
        }
        Err(WalkFault::Want) => Err(NodeFault::Want),
        Err(WalkFault::Refused(fault)) => Err(fault),
    }
}

//! Which root is the first that does not lead to the tree of its version.
ghost use Rattle.std.specs.Prelude.{◌≡◌, ◌↔◌, List, [], IsSome, IsTrue};
ghost use Rattle.btr_tree.specs.PageNodes.{Pages};
ghost use Rattle.btr_hist.specs.declared.entry.Entry.{Entry as EntrySpec};
ghost use Rattle.btr_pages.specs.Known.{AreKnown, node_at};
ghost use Rattle.btr_streams.specs.Board.{HasVersion};
ghost use Rattle.btr_streams.specs.Snapshot.{IsSnapshotOf};
ghost use Rattle.btr_verify.specs.Trees.{AreCommitsOf, IsCommitOf, LeadsToTree, version_points};
ghost use Rattle.btr_verify.specs.Judging.{HasTreeVersion, IsFirstFailure, WereJudged};

use crate::judging::{Mark, is_right};
use crate::verifying::Made;
use btr_pages::Trees;
use btr_streams::Snapshot;

/// The first commit whose root does not lead to the tree of its version, if there is one.
pub(crate) fn first_that_fails(
    nodes: &Trees,
    snapshot: &Snapshot,
    marks: &[Mark],
    made: &[Made],
) -> Option<Made>
    ensures { (pages : Pages) (h : List EntrySpec)
        → WereJudged pages h nodes.now snapshot.now marks.now → AreCommitsOf pages h made.now
        → IsFirstFailure pages h made.now result }
{
    for commit in made {
        if !leads(nodes, snapshot, marks, commit) {
            return Some(*commit);
        }
    }
    None
}

/// Whether the root of a commit leads to the tree of its version.
fn leads(nodes: &Trees, snapshot: &Snapshot, marks: &[Mark], made: &Made) -> bool
    ensures { (pages : Pages) (h : List EntrySpec)
        → WereJudged pages h nodes.now snapshot.now marks.now → IsCommitOf pages h made.now
        → IsTrue result ↔ LeadsToTree pages h made.now }
{
    if made.root == 0 {
        return has_no_point(snapshot, made);
    }
    is_right(marks, made.root) && has_tree_version(nodes, snapshot, made)
}

/// Whether the version of a commit has no point.
fn has_no_point(snapshot: &Snapshot, made: &Made) -> bool
    ensures { (h : List EntrySpec) → IsSnapshotOf h snapshot.now → HasVersion h made.now.stream made.now.version
        → IsTrue result ↔ (version_points h made.now.stream made.now.version ≡ []) }
{
    match snapshot.tree(made.stream, made.version) {
        None => false,
        Some(tree) => tree.count() == 0,
    }
}

/// Whether the version of a commit has a point, and the page of the root has the version of the root of its version's tree.
pub(crate) fn has_tree_version(nodes: &Trees, snapshot: &Snapshot, made: &Made) -> bool
    ensures same { (pages : Pages) (h : List EntrySpec) → AreKnown pages nodes.now → IsSnapshotOf h snapshot.now
        → IsCommitOf pages h made.now → IsTrue result ↔ HasTreeVersion pages h made.now }
    ensures page { IsTrue result → IsSome (node_at nodes.now made.now.root) }
{
    match (
        nodes.get(made.root),
        snapshot.tree(made.stream, made.version),
    ) {
        (Some(known), Some(tree)) => known.tree().version() == tree.version(),
        _ => false,
    }
}

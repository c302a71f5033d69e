//! The sight of an output: what its next commit is planned from.
ghost use Rattle.std.specs.Prelude.{◌≡◌, ◌<◌, ◌≤◌, true, List, length, Some, None, MatchOption};
ghost use Rattle.btr_hist.specs.declared.entry.Entry.{Entry as EntrySpec};
ghost use Rattle.btr_hist.specs.History.{ids, spec_of, latest, reads, latest_reads};
ghost use Rattle.btr_hist.specs.Legal.{has_inputs};
ghost use Rattle.btr_streams.specs.Snapshot.{IsSnapshotOf};
ghost use Rattle.btr_plan.specs.Sight.{AreVersionTrees, IsSightAfter, IsSightTo, MayRead, TakesReads};

use btr_distil::{InputTrees, Sight};
use btr_hist::{Reads, Spec};
use btr_streams::Snapshot;
use btr_tree::Tree;

/// The trees of an input, at two versions.
#[derive(Drop)]
struct VersionTrees<'a> {
    old: &'a Tree,
    new: &'a Tree,
}

/// Returns the sight of an output: its latest version, what that has read of its inputs, and what they have now. A stream that is
/// no output, and a number that is not that of a stream, have none. It borrows the trees of the snapshot. It takes logarithmic time
/// and no memory.
pub fn sight(snapshot: &Snapshot, stream: u32) -> Option<Sight<'_>>
    ensures { (h : List EntrySpec) → IsSnapshotOf h snapshot.now
        → MatchOption result (spec_of h stream ≡ None) (IsSightAfter h stream) }
{
    let spec = snapshot.spec(stream)?;
    let version = snapshot.latest(stream)?;
    let new = latest_reads(snapshot, &spec)?;
    sight_of(snapshot, stream, version, spec, new)
}

/// Returns the sight of an output from its latest version to the given versions of its inputs. There is one if the next version of
/// the output may read these versions; of other versions nothing is said. It borrows the trees of the snapshot. It takes logarithmic
/// time and no memory.
pub fn sight_to(snapshot: &Snapshot, stream: u32, new: Reads) -> Option<Sight<'_>>
    ensures { (h : List EntrySpec) → IsSnapshotOf h snapshot.now → TakesReads h stream new
        → MatchOption result ⊥ (IsSightTo h stream new) }
{
    let spec = snapshot.spec(stream)?;
    let version = snapshot.latest(stream)?;
    sight_of(snapshot, stream, version, spec, new)
}

/// Returns the sight of an output of this spec from its latest version to these versions of its inputs. A snapshot of a history has
/// one of each output, to all versions that its next distillate may read.
fn sight_of<'a>(
    snapshot: &'a Snapshot,
    stream: u32,
    version: u64,
    spec: Spec,
    new: Reads,
) -> Option<Sight<'a>>
    ensures { (h : List EntrySpec) → IsSnapshotOf h snapshot.now → spec_of h stream ≡ Some spec → version ≡ latest h stream
        → MayRead h stream spec new → MatchOption result ⊥ (IsSightTo h stream new) }
{
    if !spec.is_good() {
        return None;
    }
    let old = reads_of(snapshot, stream, version, &spec);
    let first = version_trees(snapshot, spec.first, old.first, new.first)?;
    match (spec.second, old.second, new.second) {
        (None, None, None) => {
            let read = InputTrees {
                reads: old,
                first: first.old,
                second: None,
            };
            let to_read = InputTrees {
                reads: new,
                first: first.new,
                second: None,
            };
            Some(Sight::new(spec, stream, version, read, to_read))
        }
        (Some(input), Some(before), Some(now)) => {
            let second = version_trees(snapshot, input, before, now)?;
            let read = InputTrees {
                reads: old,
                first: first.old,
                second: Some(second.old),
            };
            let to_read = InputTrees {
                reads: new,
                first: first.new,
                second: Some(second.new),
            };
            Some(Sight::new(spec, stream, version, read, to_read))
        }
        _ => None,
    }
}

/// Returns the trees of an input at two of its versions.
fn version_trees<'a>(
    snapshot: &'a Snapshot,
    stream: u32,
    old: u64,
    new: u64,
) -> Option<VersionTrees<'a>>
    ensures { (h : List EntrySpec) → IsSnapshotOf h snapshot.now → stream < length (ids h) → old ≤ new → new ≤ latest h stream
        → MatchOption result ⊥ (AreVersionTrees h stream old new) }
{
    Some(VersionTrees {
        old: snapshot.tree(stream, old)?,
        new: snapshot.tree(stream, new)?,
    })
}

/// Returns the versions of its inputs that a version of an output stands for.
fn reads_of(snapshot: &Snapshot, stream: u32, version: u64, spec: &Spec) -> Reads
    ensures { (h : List EntrySpec) → IsSnapshotOf h snapshot.now → result ≡ reads h stream spec.now version }
{
    match snapshot.reads(stream, version) {
        Some(reads) => reads,
        None => spec.nothing_read(),
    }
}

/// Returns the latest version of each input.
fn latest_reads(snapshot: &Snapshot, spec: &Spec) -> Option<Reads>
    ensures { (h : List EntrySpec) → IsSnapshotOf h snapshot.now → has_inputs h spec.now ≡ true
        → result ≡ Some (latest_reads h spec.now) }
{
    let first = snapshot.latest(spec.first)?;
    match spec.second {
        None => Some(Reads {
            first,
            second: None,
        }),
        Some(stream) => {
            let second = snapshot.latest(stream)?;
            Some(Reads {
                first,
                second: Some(second),
            })
        }
    }
}

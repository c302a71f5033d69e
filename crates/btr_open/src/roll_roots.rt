//! The roots of the versions of a checkpoint, and the trees of the pages to which they lead.
ghost use Rattle.std.specs.Prelude.{◌≡◌, ◌++◌, ◌<◌, ◌≤◌, ℕ, [], IfErr, IfOk, OnOk, slice_get, Some};
ghost use Rattle.btr_open.specs.Loading.{CanRead, HasReadBelow, AreOfDevice, GrowsBelow, FetchesPage};
ghost use Rattle.btr_open.specs.Checkpoint.{AreOfSome, AreRootsBelow, AreRootsFetched, RootCause, RootsCause, roots_in, roots_among};

use crate::below::{BlockReader, Fetched};
use crate::loading::OpenWalk;
use crate::opening::OpenCause;
use btr_disk::Disk;
use btr_pages::Trees;
use btr_roll::{Roll, RollStream, RollVersion};
use btr_tree::Steps;
use std::alloc::{AllocError, Global};

/// Returns the roots of the versions that are below a block, in order. A root is there as often as versions have it. An `Err` means out of
/// memory.
pub(crate) fn roots_below(alloc: Global, roll: &Roll, limit: u64) -> Result<Vec<u64>, AllocError>
    ensures { IfOk result (λ v. AreRootsBelow limit roll.now v.items) }
{
    let mut roots = roots_of_streams(alloc, &roll.streams, limit)?;
    roots.sort_unstable();
    Ok(roots)
}

/// Returns the roots of the versions of streams that are below a block.
fn roots_of_streams(
    alloc: Global,
    streams: &[RollStream],
    limit: u64,
) -> Result<Vec<u64>, AllocError>
    ensures { IfOk result (λ v. v.items ≡ roots_among limit streams.now) }
{
    let mut roots = Vec::new(alloc);
    for stream in streams {
        push_roots(&mut roots, &stream.versions, limit)?;
    }
    Ok(roots)
}

/// Appends the roots of versions that are below a block.
fn push_roots(roots: &mut Vec<u64>, versions: &[RollVersion], limit: u64) -> Result<(), AllocError>
    ensures { OnOk result (roots.new.items ≡ roots.old.items ++ roots_in limit versions.now) }
{
    for version in versions {
        if 0 < version.root && version.root < limit {
            roots.push(version.root)?;
        }
    }
    Ok(())
}

/// Makes the trees of the pages at these roots, with those of the pages below them.
pub(crate) fn fetch_roots<D: Disk>(
    disk: &mut D,
    reader: &mut BlockReader,
    nodes: &mut Trees,
    steps: &mut Steps<OpenWalk>,
    roots: &[u64],
) -> Result<(), OpenCause>
    requires reader { CanRead ⟦<D as Disk>⟧ reader.old disk.old }
    requires roots { (n root : ℕ) → slice_get roots.now n ≡ Some root → (1 ≤ root) × (root < reader.old.limit) }
    requires nodes { nodes.old ≡ [] }
    ensures reads { HasReadBelow ⟦<D as Disk>⟧ reader.old reader.new disk.old disk.new }
    ensures grown { OnOk result (AreOfSome reader.old.limit nodes.new) }
    ensures fetched { D.is_observable → OnOk result (AreRootsFetched (D.contents disk.old) reader.old.limit roots.now nodes.new) }
    ensures cause { IfErr result (RootsCause ⟦<D as Disk>⟧ roots.now disk.old disk.new) }
{
    for root in roots {
        fetch_root(disk, reader, nodes, steps, *root)?;
    }
    Ok(())
}

/// Makes the tree of the page at this root, with those of the pages below it.
fn fetch_root<D: Disk>(
    disk: &mut D,
    reader: &mut BlockReader,
    nodes: &mut Trees,
    steps: &mut Steps<OpenWalk>,
    root: u64,
) -> Result<(), OpenCause>
    requires some { 1 ≤ root }
    requires below { root < reader.old.limit }
    requires reader { CanRead ⟦<D as Disk>⟧ reader.old disk.old }
    requires own { D.is_observable → AreOfDevice (D.contents disk.old) reader.old.limit nodes.old }
    ensures reads { HasReadBelow ⟦<D as Disk>⟧ reader.old reader.new disk.old disk.new }
    ensures grows { OnOk result (GrowsBelow reader.old.limit nodes.old nodes.new) }
    ensures fetches { D.is_observable
        → OnOk result (FetchesPage (D.contents disk.old) reader.old.limit root nodes.old nodes.new Fetched.Known) }
    ensures cause { IfErr result (RootCause ⟦<D as Disk>⟧ root disk.old disk.new) }
{
    match reader.fetch(disk, nodes, steps, root)? {
        Fetched::Known => Ok(()),
        Fetched::NoPage => Err(OpenCause::Damaged { block: root }),
        Fetched::Broken { block } => Err(OpenCause::Damaged { block }),
    }
}

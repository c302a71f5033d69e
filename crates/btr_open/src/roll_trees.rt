//! The trees of the versions of a checkpoint.
ghost use Rattle.std.specs.Prelude.{◌≡◌, ◌+◌, ◌*◌, ◌/◌, ◌<◌, ◌≤◌, ◌^◌, [], ◌∷◌, ◌++◌, length, map, slice_get, Some};
ghost use Rattle.std.specs.Prelude.{IfErr, IfOk, IfSome, IfNone, OnOk};
ghost use Rattle.btr_roll.specs.Roll.{RollStreamValue, IsRoll};
ghost use Rattle.btr_open.specs.Start.{place_of_root};
ghost use Rattle.btr_open.specs.Checkpoint.{IsVersionTree, MayBeRootOf, IsWrongRootOf, AreFirstTrees, AreAllTrees, TreesCause};

use crate::opening::OpenCause;
use btr_pages::Trees;
use btr_roll::{RollStream, first_length, kind_length, streams_length, versions_length};
use btr_tree::Tree;
use std::alloc::{AllocError, Global};

/// Returns the trees of the versions of streams of a checkpoint of this format, of each from version 0 on. Each root that is not 0 must be
/// below the limit and the page of a root of its version. If one is not, the cause is the block in which its address begins, in the content
/// of a checkpoint at the limit. Any other `Err` means out of memory.
pub(crate) fn trees_of(
    alloc: Global,
    nodes: &Trees,
    format: u32,
    streams: &[RollStream],
    limit: u64,
) -> Result<Vec<Vec<Tree>>, OpenCause>
    requires roll { IsRoll format streams.now }
    requires limit { limit ≤ 2 ^ 32 }
    ensures trees { IfOk result (λ v. AreAllTrees nodes.now streams.now (map (λ ts. ts.items) v.items)) }
    ensures cause { IfErr result (TreesCause nodes.now limit format streams.now) }
{
    let mut trees = Vec::with_capacity(alloc, streams.len())?;
    for number in 0..streams.len() {
        let of_stream = trees_of_stream(alloc, nodes, format, streams, number, limit)?;
        push(&mut trees, of_stream)?;
    }
    Ok(trees)
}

/// Returns the trees of the versions of the stream of this number, from version 0 on.
fn trees_of_stream(
    alloc: Global,
    nodes: &Trees,
    format: u32,
    streams: &[RollStream],
    number: usize,
    limit: u64,
) -> Result<Vec<Tree>, OpenCause>
    requires roll { IsRoll format streams.now }
    requires limit { limit ≤ 2 ^ 32 }
    requires there { number < length streams.now }
    ensures trees { IfOk result (λ v. (s : RollStreamValue) → slice_get streams.now number ≡ Some s
        → AreFirstTrees nodes.now number s.versions v.items) }
    ensures cause { IfErr result (TreesCause nodes.now limit format streams.now) }
{
    let stream = &streams[number];
    let versions = &stream.versions;
    let mut trees = Vec::with_capacity(alloc, versions.len() + 1)?;
    push(&mut trees, nodes.tree(0)?)?;
    for k in 0..versions.len() {
        let root = versions[k].root;
        let Some(tree) = tree_of_version(nodes, number as u32, k as u64 + 1, root, limit)? else {
            return Err(wrong_root_of(format, streams, number, stream, k, limit));
        };
        push(&mut trees, tree)?;
    }
    Ok(trees)
}

/// Appends an item. An `Err` means out of memory.
fn push<T: Drop>(items: &mut Vec<T>, item: T) -> Result<(), AllocError>
    ensures { OnOk result (items.new.items ≡ items.old.items ++ item ∷ []) }
{
    items.push(item)?;
    Ok(())
}

/// Returns the tree of a version of a stream, whose root is this one, or `None` if it may not be.
fn tree_of_version(
    nodes: &Trees,
    stream: u32,
    version: u64,
    root: u64,
    limit: u64,
) -> Result<Option<Tree>, AllocError>
    ensures tree { IfOk result (λ o. IfSome o (IsVersionTree nodes.now root)) }
    ensures right { IfOk result (λ o. IfSome o (λ t. MayBeRootOf nodes.now stream version root)) }
    ensures wrong { IfOk result (λ o. IfNone o (IsWrongRootOf nodes.now limit stream version root)) }
{
    if root == 0 {
        return Ok(Some(Tree::empty()));
    }
    if root >= limit || !nodes.is_root(root, stream, version) {
        return Ok(None);
    }
    Ok(Some(nodes.tree(root)?))
}

/// The damage of a version whose root is wrong: the block in which its address begins. `stream` is the stream of this number.
fn wrong_root_of(
    format: u32,
    streams: &[RollStream],
    number: usize,
    stream: &RollStream,
    k: usize,
    limit: u64,
) -> OpenCause
    requires roll { IsRoll format streams.now }
    requires limit { limit ≤ 2 ^ 32 }
    requires there { slice_get streams.now number ≡ Some stream.now }
    requires within { k < length stream.now.versions }
    ensures { result ≡ OpenCause.Damaged (limit + 1 + (64 + place_of_root format streams.now number stream.now k) / 4096) }
{
    let before = streams_length(format, &streams[..number]);
    let fields = 32 + kind_length(&stream.spec) + first_length(format);
    let within = fields + versions_length(&stream.versions[..k]);
    OpenCause::Damaged {
        block: limit + 1 + (64 + 4 + before + within + 8) / 4096,
    }
}

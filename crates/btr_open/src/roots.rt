//! The test of an entry's root, before the pages of its own extent are read.
ghost use Rattle.std.specs.Prelude.{◌≡◌, ◌≢◌, ◌↔◌, ◌+◌, ◌-◌, ◌*◌, ◌^◌, ◌%◌, ◌<◌, ◌≤◌, length, take, drop};
ghost use Rattle.std.specs.Prelude.{IfSome, IsNone, IsTrue, true, false};
ghost use Rattle.btr_node.specs.Page.{Keeps};
ghost use Rattle.btr_tree.specs.PageNodes.{Pages, IsRootPage};
ghost use Rattle.btr_pages.specs.Known.{AreKnown};
ghost use Rattle.btr_streams.specs.Rolling.{rolled};
ghost use Rattle.btr_open.specs.RootTest.{IsNamedRoot, IsNoPageIn, MayBeRootIn, MayLeadIn};

use crate::loading::Loader;
use btr_base::ROOT_HEIGHT;
use btr_hist::Entry;
use btr_node::{NodePage, PAGE, decode};
use btr_pages::{Trees, block_at};

/// What is found of the root of a commit.
#[derive(Clone, Copy, PartialEq, Eq)]
enum RootTest {
    /// It may be the root.
    Right,

    /// It is a node block of the commit's own extent, and no page.
    NoPage,

    /// It is not the root of a version of the stream that may be read.
    Wrong,
}

/// The version that a commit makes.
#[derive(Clone, Copy)]
struct NewVersion {
    stream: u32,
    version: u64,

    /// Whether the commit adds a point.
    some: bool,
}

/// Returns the block that is damaged if the root of an entry is wrong, or `None` if the root is right. The entry's extent begins with
/// the gate at block `gate`, and its node blocks, which have these bytes, begin at block `first`.
pub(crate) fn wrong_root(
    loader: &Loader,
    entry: &Entry,
    root: u64,
    gate: u64,
    first: u64,
    bytes: &[u8],
) -> Option<u64>
    requires gate { gate < 2 ^ 64 - 1 }
    requires whole { length bytes.now % 4096 ≡ 0 }
    ensures right { (pages : Pages) → AreKnown pages loader.now.nodes
        → IsNone result → MayLeadIn pages (rolled loader.now.board) entry.now first bytes.now root }
    ensures wrong { (pages : Pages) → AreKnown pages loader.now.nodes
        → IfSome result (λ block. MayLeadIn pages (rolled loader.now.board) entry.now first bytes.now root → ⊥) }
    ensures named { IfSome result (IsNamedRoot gate entry.now first bytes.now root) }
{
    let (stream, some) = match entry {
        Entry::Create { .. } | Entry::Define { .. } | Entry::Retire { .. } => {
            return if root == 0 { None } else { Some(gate + 1) };
        }
        Entry::Commit { stream, added, .. } | Entry::Distillate { stream, added, .. } => {
            (*stream, !added.as_slice().is_empty())
        }
    };
    let version = loader.board.latest(stream).unwrap_or(0) + 1;
    let made = NewVersion {
        stream,
        version,
        some,
    };
    match test_root(&loader.nodes, made, root, first, bytes) {
        RootTest::Right => None,
        RootTest::NoPage => Some(root),
        RootTest::Wrong => Some(gate + 1),
    }
}

/// Tests the root of a commit that makes this version.
fn test_root(nodes: &Trees, made: NewVersion, root: u64, first: u64, bytes: &[u8]) -> RootTest
    requires whole { length bytes.now % 4096 ≡ 0 }
    ensures right { (pages : Pages) → AreKnown pages nodes.now → result ≡ RootTest.Right
        → MayBeRootIn pages first bytes.now made.stream made.version made.some root }
    ensures not_right { (pages : Pages) → AreKnown pages nodes.now → result ≢ RootTest.Right
        → MayBeRootIn pages first bytes.now made.stream made.version made.some root → ⊥ }
    ensures no_page { result ≡ RootTest.NoPage → IsNoPageIn first bytes.now root }
    ensures wrong { result ≡ RootTest.Wrong → IsNoPageIn first bytes.now root → ⊥ }
{
    let some = made.some;
    if root == 0 && !some {
        return RootTest::Right;
    }
    if root < first {
        return test(nodes.is_root(root, made.stream, made.version));
    }
    let place = (root - first) as usize;
    if place >= bytes.len() / PAGE {
        return RootTest::Wrong;
    }
    match decode(block_at(bytes, PAGE * place)) {
        None => RootTest::NoPage,
        Some(page) => test(is_root_page(&page, made.stream, made.version)),
    }
}

/// What is found of a block that has a page.
fn test(right: bool) -> RootTest
    ensures right { right ≡ true → result ≡ RootTest.Right }
    ensures wrong { right ≡ false → result ≡ RootTest.Wrong }
{
    if right {
        RootTest::Right
    } else {
        RootTest::Wrong
    }
}

/// Returns whether a page is that of the root of a version of a stream.
fn is_root_page(page: &NodePage, stream: u32, version: u64) -> bool
    ensures { IsTrue result ↔ IsRootPage stream version page.now }
{
    let header = page.header();
    header.height == u32::from(ROOT_HEIGHT) && header.stream == stream && header.version <= version
}

//! The pages below the checkpoint from which a log is read: each is read when it is asked for.
ghost use Rattle.std.specs.Prelude.{◌≡◌, ◌↔◌, ℕ, ◌+◌, ◌*◌, ◌^◌, ◌%◌, ◌<◌, ◌≤◌, length, slice_get};
ghost use Rattle.std.specs.Prelude.{IfErr, IfOk, IfSome, OnOk, Some, IsSome, IsNone, IsTrue, MatchOption};
ghost use Rattle.btr_disk.specs.Bytes.{Image, IsBlockRange};
ghost use Rattle.btr_log.specs.Piece.{IsPieceOf, HoldsBlocks};
ghost use Rattle.btr_log.specs.Reads.{OnlyReads};
ghost use Rattle.btr_node.specs.Page.{Keeps, Fits, slots_of_page};
ghost use Rattle.btr_tree.specs.PageNodes.{IsChildPage};
ghost use Rattle.btr_pages.specs.Known.{node_at};
ghost use Rattle.btr_open.specs.Below.{IsStoredPage, HasNoPage};
ghost use Rattle.btr_open.specs.Reading.{BlockCause};
ghost use Rattle.btr_open.specs.Loading.{IsReaderOf, IsDeviceBlock, CanRead, HasReadBelow, IsReadPage, AreOfDevice};
ghost use Rattle.btr_open.specs.Loading.{GrowsBelow, FetchesPage, HasNoneAbove, HasNoneFrom};
ghost use Rattle.btr_open.specs.Loading.{IsBlock, IsSlotChild, IsNeeded, FetchesAll, CanMake, CanMakeChild, Makes, MakesChild, HasUnknownChild};

use crate::loading::OpenWalk;
use crate::opening::OpenCause;
use btr_disk::Disk;
use btr_log::{ExtentFault, Piece, READ_AHEAD};
use btr_node::{NodePage, PAGE, PageSlot, decode};
use btr_pages::{Trees, block_at};
use btr_tree::Steps;
use std::alloc::Global;

/// What is found of the page in a block.
#[derive(Clone, Copy, PartialEq, Eq)]
pub(crate) enum Fetched {
    /// The tree of the page was made, with those of all pages below it.
    Known,

    /// The block has no page.
    NoPage,

    /// The block has a page, but this block, which is found from it downwards, breaks the format.
    Broken { block: u64 },
}

/// A slot of the page in a block.
#[derive(Clone, Copy)]
struct SlotAt<'a> {
    block: u64,
    page: &'a NodePage,

    /// The place of the slot in the page.
    i: u8,
    slot: &'a PageSlot,
}

/// What is held of the blocks below the checkpoint from which a log is read, so that no block is read twice in a row.
#[derive(Drop)]
pub(crate) struct BlockReader {
    /// The allocator, for the trees that are made.
    pub(crate) alloc: Global,

    /// The block below which single blocks are read: that of the checkpoint from which the log is read, or 0.
    pub(crate) limit: u64,

    /// A run of blocks below the limit. Single blocks are asked for in an order that mostly rises: one above the run is read with those
    /// around it, which then are the run.
    pub(crate) ahead: Piece,

    /// The block after the run.
    pub(crate) next: u64,

    /// One block below the run.
    pub(crate) one: Piece,
}

impl BlockReader {
    /// Nothing is held. It takes no memory.
    pub(crate) fn new(alloc: Global, limit: u64) -> BlockReader
        ensures limit { result.limit ≡ limit }
        ensures nothing { (image : Image) → IsReaderOf image result }
    {
        BlockReader {
            alloc,
            limit,
            ahead: Piece::new(alloc),
            next: 0,
            one: Piece::new(alloc),
        }
    }

    /// Makes the trees of the page in a block and of all pages below it, of which none was made yet. It reads each of these blocks once.
    ///
    /// The page of a child is tested by its slot before it is made: so the heights of the pages fall, and the calls are at most as deep as
    /// a tree is high. If the page cannot be made, some of those below it may have been.
    pub(crate) fn fetch<D: Disk>(
        &mut self,
        disk: &mut D,
        nodes: &mut Trees,
        steps: &mut Steps<OpenWalk>,
        block: u64,
    ) -> Result<Fetched, OpenCause>
        requires some { 1 ≤ block }
        requires below { block < self.old.limit }
        requires reader { CanRead ⟦<D as Disk>⟧ self.old disk.old }
        requires own { D.is_observable → AreOfDevice (D.contents disk.old) self.old.limit nodes.old }
        ensures reads { HasReadBelow ⟦<D as Disk>⟧ self.old self.new disk.old disk.new }
        ensures grows { OnOk result (GrowsBelow self.old.limit nodes.old nodes.new) }
        ensures fetches { D.is_observable → IfOk result (FetchesPage (D.contents disk.old) self.old.limit block nodes.old nodes.new) }
        ensures cause { IfErr result (BlockCause ⟦<D as Disk>⟧ disk.old disk.new) }
    {
        if nodes.get(block).is_some() {
            return Ok(Fetched::Known);
        }
        let Some(page) = self.page(disk, block)? else {
            return Ok(Fetched::NoPage);
        };
        match self.make(disk, nodes, steps, block, &page)? {
            None => Ok(Fetched::Known),
            Some(block) => Ok(Fetched::Broken { block }),
        }
    }

    /// Makes the trees of the pages below the limit that an extent with this root and these bytes of node blocks needs, as far as they
    /// stand rightly. What does not is found later, in its order.
    pub(crate) fn fetch_needed<D: Disk>(
        &mut self,
        disk: &mut D,
        nodes: &mut Trees,
        steps: &mut Steps<OpenWalk>,
        root: u64,
        bytes: &[u8],
    ) -> Result<(), OpenCause>
        requires whole { length bytes.now % 4096 ≡ 0 }
        requires reader { CanRead ⟦<D as Disk>⟧ self.old disk.old }
        requires own { D.is_observable → AreOfDevice (D.contents disk.old) self.old.limit nodes.old }
        ensures reads { HasReadBelow ⟦<D as Disk>⟧ self.old self.new disk.old disk.new }
        ensures grows { OnOk result (GrowsBelow self.old.limit nodes.old nodes.new) }
        ensures all { D.is_observable
            → OnOk result (FetchesAll (D.contents disk.old) self.old.limit (IsNeeded bytes.now root) nodes.old nodes.new) }
        ensures cause { IfErr result (BlockCause ⟦<D as Disk>⟧ disk.old disk.new) }
    {
        if self.limit == 0 {
            return Ok(());
        }
        self.fetch_at(disk, nodes, steps, root)?;
        for i in 0..bytes.len() / PAGE {
            if let Some(page) = decode(block_at(bytes, PAGE * i)) {
                self.fetch_children(disk, nodes, steps, &page)?;
            }
        }
        Ok(())
    }

    /// Makes the trees of the pages below the limit that are children of slots with a point of this page, as far as they stand rightly.
    fn fetch_children<D: Disk>(
        &mut self,
        disk: &mut D,
        nodes: &mut Trees,
        steps: &mut Steps<OpenWalk>,
        page: &NodePage,
    ) -> Result<(), OpenCause>
        requires reader { CanRead ⟦<D as Disk>⟧ self.old disk.old }
        requires own { D.is_observable → AreOfDevice (D.contents disk.old) self.old.limit nodes.old }
        ensures reads { HasReadBelow ⟦<D as Disk>⟧ self.old self.new disk.old disk.new }
        ensures grows { OnOk result (GrowsBelow self.old.limit nodes.old nodes.new) }
        ensures all { D.is_observable
            → OnOk result (FetchesAll (D.contents disk.old) self.old.limit (IsSlotChild (slots_of_page page.now)) nodes.old nodes.new) }
        ensures cause { IfErr result (BlockCause ⟦<D as Disk>⟧ disk.old disk.new) }
    {
        for slot in page.slots() {
            if slot.count() > 0 {
                self.fetch_at(disk, nodes, steps, slot.child)?;
            }
        }
        Ok(())
    }

    /// Makes the trees of the page in a block and of all pages below it, if the block is below the limit and they stand rightly.
    fn fetch_at<D: Disk>(
        &mut self,
        disk: &mut D,
        nodes: &mut Trees,
        steps: &mut Steps<OpenWalk>,
        block: u64,
    ) -> Result<(), OpenCause>
        requires reader { CanRead ⟦<D as Disk>⟧ self.old disk.old }
        requires own { D.is_observable → AreOfDevice (D.contents disk.old) self.old.limit nodes.old }
        ensures reads { HasReadBelow ⟦<D as Disk>⟧ self.old self.new disk.old disk.new }
        ensures grows { OnOk result (GrowsBelow self.old.limit nodes.old nodes.new) }
        ensures all { D.is_observable
            → OnOk result (FetchesAll (D.contents disk.old) self.old.limit (IsBlock block) nodes.old nodes.new) }
        ensures cause { IfErr result (BlockCause ⟦<D as Disk>⟧ disk.old disk.new) }
    {
        if 1 <= block && block < self.limit {
            self.fetch(disk, nodes, steps, block)?;
        }
        Ok(())
    }

    /// Makes the tree of a page, which was read from a block that has none, and of all pages below it that have none yet. Returns the block
    /// that breaks the format, if one does.
    #[cycle(make)]
    fn make<D: Disk>(
        &mut self,
        disk: &mut D,
        nodes: &mut Trees,
        steps: &mut Steps<OpenWalk>,
        block: u64,
        page: &NodePage,
    ) -> Result<Option<u64>, OpenCause>
        requires can { CanMake ⟦<D as Disk>⟧ self.old disk.old block page.now nodes.old }
        requires fresh { IsNone (node_at nodes.old block) }
        ensures reads { HasReadBelow ⟦<D as Disk>⟧ self.old self.new disk.old disk.new }
        ensures only { OnOk result (HasNoneAbove block nodes.old nodes.new) }
        ensures makes { IfOk result
            (Makes ⟦<D as Disk>⟧ disk.old self.old.limit block page.now nodes.old nodes.new (IsSome (node_at nodes.new block))) }
        ensures cause { IfErr result (BlockCause ⟦<D as Disk>⟧ disk.old disk.new) }
    {
        for (i, slot) in page.slots().iter().enumerate() {
            let at = SlotAt {
                block,
                page,
                i: i as u8,
                slot,
            };
            let broken = self.make_child(disk, nodes, steps, at)?;
            if broken.is_some() {
                return Ok(broken);
            }
        }
        if nodes.add(self.alloc, block, page, steps)? {
            Ok(None)
        } else {
            Ok(Some(block))
        }
    }

    /// Makes the tree of the child of a slot, and of all pages below it that have none yet, if the slot has a point. Returns the block that
    /// breaks the format, if one does. If the child has a tree already, it is not tested that it is that of the slot.
    #[cycle(make)]
    fn make_child<D: Disk>(
        &mut self,
        disk: &mut D,
        nodes: &mut Trees,
        steps: &mut Steps<OpenWalk>,
        at: SlotAt,
    ) -> Result<Option<u64>, OpenCause>
        requires can { CanMakeChild ⟦<D as Disk>⟧ self.old disk.old at nodes.old }
        ensures reads { HasReadBelow ⟦<D as Disk>⟧ self.old self.new disk.old disk.new }
        ensures only { OnOk result (HasNoneFrom at.entry.block nodes.old nodes.new) }
        ensures makes { IfOk result (MakesChild ⟦<D as Disk>⟧ disk.old self.old.limit at.entry nodes.old nodes.new) }
        ensures cause { IfErr result (BlockCause ⟦<D as Disk>⟧ disk.old disk.new) }
    {
        if at.slot.count() == 0 {
            return Ok(None);
        }
        if at.slot.child >= at.block {
            return Ok(Some(at.block));
        }
        if nodes.get(at.slot.child).is_some() {
            return Ok(None);
        }
        self.make_unknown(disk, nodes, steps, at)
    }

    /// Does what [`BlockReader::make_child`] does if the slot has a point, and the child is in a lower block of which no tree was made. It
    /// is a function of its own because it holds a page, for which memory is cleared: most slots need none.
    #[cycle(make)]
    fn make_unknown<D: Disk>(
        &mut self,
        disk: &mut D,
        nodes: &mut Trees,
        steps: &mut Steps<OpenWalk>,
        at: SlotAt,
    ) -> Result<Option<u64>, OpenCause>
        requires can { CanMakeChild ⟦<D as Disk>⟧ self.old disk.old at nodes.old }
        requires unknown { HasUnknownChild at nodes.old }
        ensures reads { HasReadBelow ⟦<D as Disk>⟧ self.old self.new disk.old disk.new }
        ensures only { OnOk result (HasNoneFrom at.entry.block nodes.old nodes.new) }
        ensures makes { IfOk result (MakesChild ⟦<D as Disk>⟧ disk.old self.old.limit at.entry nodes.old nodes.new) }
        ensures cause { IfErr result (BlockCause ⟦<D as Disk>⟧ disk.old disk.new) }
    {
        let below = at.slot.child;
        let Some(child) = self.page(disk, below)? else {
            return Ok(Some(below));
        };
        if !is_child(at.page, at.i, at.slot, &child) {
            return Ok(Some(at.block));
        }
        self.make(disk, nodes, steps, below, &child)
    }

    /// Reads the page of a block below the limit. `None` is that the block has no page.
    fn page<D: Disk>(&mut self, disk: &mut D, block: u64) -> Result<Option<NodePage>, OpenCause>
        requires reader { CanRead ⟦<D as Disk>⟧ self.old disk.old }
        requires some { 1 ≤ block }
        requires below { block < self.old.limit }
        ensures reads { HasReadBelow ⟦<D as Disk>⟧ self.old self.new disk.old disk.new }
        ensures found { IfOk result (λ o. IfSome o (IsReadPage block self.old.limit)) }
        ensures stored { D.is_observable
            → IfOk result (λ o. MatchOption o (HasNoPage (D.contents disk.old) block) (IsStoredPage (D.contents disk.old) block)) }
        ensures cause { IfErr result (BlockCause ⟦<D as Disk>⟧ disk.old disk.new) }
    {
        let bytes = self.block(disk, block)?;
        Ok(decode(&bytes))
    }

    /// The bytes of a block below the limit. They are read if the reader does not hold them: a block above the run with those around it,
    /// which then are the run, and one below the run alone.
    fn block<D: Disk>(&mut self, disk: &mut D, block: u64) -> Result<[u8; PAGE], OpenCause>
        requires reader { CanRead ⟦<D as Disk>⟧ self.old disk.old }
        requires below { block < self.old.limit }
        ensures reads { HasReadBelow ⟦<D as Disk>⟧ self.old self.new disk.old disk.new }
        ensures bytes { D.is_observable → IfOk result (IsDeviceBlock (D.contents disk.old) block) }
        ensures cause { IfErr result (BlockCause ⟦<D as Disk>⟧ disk.old disk.new) }
    {
        if self.ahead.holds(block, 1) {
            return Ok(*self.ahead.held(block));
        }
        if block < self.next {
            read(&mut self.one, disk, block, 1)?;
            return Ok(*self.one.held(block));
        }
        self.read_run(disk, block)?;
        Ok(*self.ahead.held(block))
    }

    /// Reads a run with this block, which is at or above the end of the run before.
    fn read_run<D: Disk>(&mut self, disk: &mut D, block: u64) -> Result<(), OpenCause>
        requires reader { CanRead ⟦<D as Disk>⟧ self.old disk.old }
        requires below { block < self.old.limit }
        requires above { self.old.next ≤ block }
        ensures reads { HasReadBelow ⟦<D as Disk>⟧ self.old self.new disk.old disk.new }
        ensures held { OnOk result (HoldsBlocks self.new.ahead block 1) }
        ensures cause { IfErr result (BlockCause ⟦<D as Disk>⟧ disk.old disk.new) }
    {
        let first = first_of_run(self.next, block);
        let count = READ_AHEAD.min(self.limit - first);
        read(&mut self.ahead, disk, first, count)?;
        self.next = first + count;
        Ok(())
    }
}

/// The first block of the run that is read for a block which is not below `next`: `next`, if a run from there has the block, or else
/// that of the run that ends with the block.
fn first_of_run(next: u64, block: u64) -> u64
    requires { next ≤ block }
    ensures begins { result ≤ block }
    ensures ends { block < result + 256 }
{
    if block - next < READ_AHEAD {
        next
    } else {
        block - (READ_AHEAD - 1)
    }
}

/// Reads blocks into a piece.
fn read<D: Disk>(piece: &mut Piece, disk: &mut D, first: u64, count: u64) -> Result<(), OpenCause>
    requires run { IsBlockRange (D.size disk.old) first (4096 * count) }
    requires addressable { count ≤ 2 ^ 32 }
    ensures reads { OnlyReads ⟦<D as Disk>⟧ disk.old disk.new }
    ensures piece { D.is_observable → IsPieceOf (D.contents disk.old) piece.old → IsPieceOf (D.contents disk.new) piece.new }
    ensures held { OnOk result (HoldsBlocks piece.new first count) }
    ensures cause { IfErr result (BlockCause ⟦<D as Disk>⟧ disk.old disk.new) }
{
    match piece.read(disk, first, count) {
        Ok(()) => Ok(()),
        Err(ExtentFault::Want) => Err(OpenCause::Want),
        Err(_) => Err(OpenCause::Fault),
    }
}

/// Whether a page is that of the child of a slot of another.
fn is_child(page: &NodePage, i: u8, slot: &PageSlot, child: &NodePage) -> bool
    requires slot { slice_get (slots_of_page page.now) i ≡ Some slot.now }
    requires place { i < 64 }
    requires parent { Keeps page.now }
    requires child { Keeps child.now }
    ensures { IsTrue result ↔ IsChildPage page.now i slot.now child.now }
{
    let header = child.header();
    header.stream == page.header().stream
        && child.span() == page.span().slot(i)
        && header.version == slot.version
        && header.count == slot.count()
}

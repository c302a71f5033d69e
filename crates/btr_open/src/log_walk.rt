//! A walk over the log of a superblock: from the start that the superblock names, extent by extent, up to the first closed gate.
ghost use Rattle.std.specs.Prelude.{◌≡◌, ◌↔◌, ◌<◌, IfErr, IfNone, IfOk, IfSome, IsTrue, OnOk, false, true};
ghost use Rattle.btr_log.specs.Log.{log_device as disk_of};
ghost use Rattle.btr_super.specs.Super.{IsSuper};
ghost use Rattle.btr_open.specs.Content.{MayHeadStand};
ghost use Rattle.btr_open.specs.Walk.{IsDamagedGate};
ghost use Rattle.btr_open.specs.LogWalk.{IsWalkOver, IsNewWalk, WalksOn, IsAhead, IsWalked, IsAfterExtent, IsAtEnd, WasWalked, SaysOpen};
ghost use Rattle.btr_open.specs.LogWalk.{HoldsNext, ReadsExtent, BreaksExtent};
ghost use Rattle.btr_open.specs.Reading.{LogCause, BlockCause};
ghost use Rattle.btr_open.specs.Reads.{PartCause};
ghost use Rattle.btr_open.specs.Seen.{nothing_seen};

use crate::below::BlockReader;
use crate::judge::Judge;
use crate::loading::{Loader, node_blocks};
use crate::opening::{OpenCause, cause_of};
use crate::place::Place;
use btr_disk::Disk;
use btr_log::{ExtentFault, Head, Log, Piece};
use btr_super::{SEALED_FORMAT, Super};
use std::alloc::Global;

/// A walk over the log of a superblock on a device. It only reads.
#[derive(Drop)]
pub(crate) struct LogWalk<D: Disk> {
    /// The allocator.
    pub(crate) alloc: Global,

    /// The superblock whose log is read.
    pub(crate) found: Super,

    /// The log, with the device.
    pub(crate) log: Log<D>,

    /// What is held of the blocks below the checkpoint that the superblock names.
    pub(crate) reader: BlockReader,

    /// The blocks of the log that were read last.
    pub(crate) piece: Piece,

    /// What was read of the log.
    pub(crate) loader: Loader,

    /// How far the log was read.
    pub(crate) place: Place,
}

impl<D: Disk> LogWalk<D> {
    /// A walk that has read nothing. It takes no memory.
    pub(crate) fn new(alloc: Global, disk: D, found: Super) -> LogWalk<D>
        requires table { IsSuper (D.size disk) found }
        ensures new { IsNewWalk result }
        ensures same_super { result.found ≡ found }
        ensures device { disk_of result.log ≡ disk }
    {
        LogWalk {
            alloc,
            found,
            log: Log::at(disk, found.tail, found.blocks, 0),
            reader: BlockReader::new(alloc, found.checkpoint),
            piece: Piece::new(alloc),
            loader: Loader::empty(alloc),
            place: Place {
                gate: found.tail,
                extents: 0,
            },
        }
    }

    /// Reads the log from where the superblock says, up to the first closed gate. Each entry is judged.
    pub(crate) fn read_log<J: Judge>(&mut self, judge: &mut J) -> Result<(), OpenCause>
        requires new { IsNewWalk self.old }
        requires judge { J.is_after nothing_seen judge.old }
        ensures walks { WalksOn self.old self.new }
        ensures walked { OnOk result (WasWalked ⟦<J as Judge>⟧ self.old self.new judge.new) }
        ensures cause { IfErr result (LogCause ⟦<D as Disk>⟧ ⟦<J as Judge>⟧ self.old.found (disk_of self.old.log) (disk_of self.new.log)) }
    {
        self.read_start()?;
        while self.read_next(judge)? {}
        Ok(())
    }

    /// Ends the walk: returns the device, what was read of the log, and how far the log was read.
    pub(crate) fn into_parts(self) -> (D, Loader, Place)
        ensures device { result.0 ≡ disk_of self.log }
        ensures loader { result.1 ≡ self.loader }
        ensures place { result.2 ≡ self.place }
    {
        let LogWalk {
            log,
            loader,
            place,
            ..
        } = self;
        (log.into_disk(), loader, place)
    }

    /// Reads the extent at the gate, and goes to the gate after it. It returns whether there is one: `false` exactly if the gate is closed.
    /// An extent of a greater format than may be in the log is damaged in the first block of its body, before its content is decoded.
    fn read_next<J: Judge>(&mut self, judge: &mut J) -> Result<bool, OpenCause>
        requires walked { IsWalked ⟦<J as Judge>⟧ self.old judge.old }
        ensures walks { WalksOn self.old self.new }
        ensures walked { OnOk result (IsWalked ⟦<J as Judge>⟧ self.new judge.new) }
        ensures next { IfOk result (λ more. more ≡ true → IsAfterExtent self.old self.new) }
        ensures end { IfOk result (λ more. more ≡ false → IsAtEnd ⟦<J as Judge>⟧ self.old self.new judge.old judge.new) }
        ensures cause { IfErr result (LogCause ⟦<D as Disk>⟧ ⟦<J as Judge>⟧ self.old.found (disk_of self.old.log) (disk_of self.new.log)) }
    {
        let Some(head) = self.find_next()? else {
            return Ok(false);
        };
        let gate = self.place.gate;
        if !may_stand(&self.found, &head) {
            return Err(OpenCause::Damaged { block: gate + 1 });
        }
        let next = gate + head.n + 1;
        match self.read_body(judge, &head)? {
            Some(block) => Err(OpenCause::Damaged { block }),
            None => {
                self.place = self.place.after(next);
                Ok(true)
            }
        }
    }

    /// Reads ahead at the gate, and returns the head of the extent there, or `None` if the gate is closed. A sealed store ends at the tail
    /// that its superblock names: if the gate there is open, its own block is damaged.
    fn find_next(&mut self) -> Result<Option<Head>, OpenCause>
        requires over { IsWalkOver self.old }
        requires gate { self.old.place.gate < self.old.found.blocks }
        ensures walks { WalksOn self.old self.new }
        ensures found { IfOk result (IsAhead self.old self.new) }
        ensures cause { IfErr result (PartCause ⟦<D as Disk>⟧
            (IsDamagedGate (D.contents (disk_of self.old.log)) self.old.found self.old.place.gate)
            (disk_of self.old.log) (disk_of self.new.log)) }
    {
        let gate = self.place.gate;
        let found_there = self.log.read_ahead(gate, &mut self.piece);
        if self.found.is_sealed() && is_open(&found_there) {
            return Err(OpenCause::Damaged { block: gate });
        }
        match found_there {
            Ok(head) => Ok(head),
            Err(fault) => Err(cause_of(fault)),
        }
    }

    /// Reads the body of the extent at the gate, which has this head: tests it if it is that of a checkpoint, or else adds its entry, and
    /// says it to the judge. Returns the first block of the body that breaks the format, if there is one. The pages that the entry needs
    /// below the checkpoint are read before.
    fn read_body<J: Judge>(&mut self, judge: &mut J, head: &Head) -> Result<Option<u64>, OpenCause>
        requires walked { IsWalked ⟦<J as Judge>⟧ self.old judge.old }
        requires holds { HoldsNext self.old head.now }
        ensures walks { WalksOn self.old self.new }
        ensures place { self.new.place ≡ self.old.place }
        ensures read { IfOk result (λ o. IfNone o (ReadsExtent ⟦<J as Judge>⟧ self.old self.new.loader head.now judge.old judge.new)) }
        ensures damaged { IfOk result (λ o. IfSome o (BreaksExtent ⟦<J as Judge>⟧ self.old head.now judge.old)) }
        ensures cause { IfErr result (BlockCause ⟦<D as Disk>⟧ (disk_of self.old.log) (disk_of self.new.log)) }
    {
        let gate = self.place.gate;
        let body = self.piece.blocks(gate + 1, head.n);
        if head.kind == 2 {
            return Ok(self.loader.pass(self.alloc, judge, head, body, gate)?);
        }
        let nodes = node_blocks(head, body);
        self.reader.fetch_needed(
            &mut self.log.disk,
            &mut self.loader.nodes,
            &mut self.loader.steps,
            head.root,
            nodes,
        )?;
        Ok(self.loader.add(self.alloc, judge, head, body, gate)?)
    }
}

/// Returns whether what was found at a gate says that the gate is open: an extent, or a damaged one.
fn is_open(found_there: &Result<Option<Head>, ExtentFault>) -> bool
    ensures { IsTrue result ↔ SaysOpen found_there.now }
{
    matches!(found_there, Ok(Some(_)) | Err(ExtentFault::Damaged { .. }))
}

/// Returns whether an extent with this head may be in the log of the superblock's store: its format is no greater than the superblock's, or
/// that of a sealed store. A crash before the superblock of a seal leaves the seal's checkpoint under a superblock of a lower format. An
/// entry has a lower format by its content.
pub(crate) fn may_stand(found: &Super, head: &Head) -> bool
    ensures { IsTrue result ↔ MayHeadStand found.now.format head.now }
{
    head.format <= found.format || head.format == SEALED_FORMAT
}

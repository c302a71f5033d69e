//! The start of a reading: the first gate of a log, or the checkpoint that a superblock names.
ghost use Rattle.std.specs.Prelude.{◌≡◌, ◌+◌, ◌*◌, ◌<◌, ◌≤◌, [], IfErr, IfOk, OnOk};
ghost use Rattle.btr_log.specs.Log.{log_device as disk_of};
ghost use Rattle.btr_roll.specs.Roll.{IsRoll};
ghost use Rattle.btr_open.specs.Place.{IsPlaceIn};
ghost use Rattle.btr_open.specs.LogWalk.{IsWalkOver, IsNewWalk, WalksOn};
ghost use Rattle.btr_open.specs.Reading.{FirstCause, WasStarted, WasReadTo};
ghost use Rattle.btr_open.specs.Checkpoint.{AreOfSome, IsRollRead, IsLoaded, StartCause};

use crate::log_walk::{LogWalk, may_stand};
use crate::opening::{OpenCause, cause_of};
use crate::place::Place;
use crate::roll_content::decode_checkpoint;
use crate::roll_roots::{fetch_roots, roots_below};
use crate::roll_trees::trees_of;
use btr_disk::Disk;
use btr_engine::Board;
use btr_roll::Roll;
use btr_super::{LOG_START, Super};

/// What the checkpoint of a superblock has.
#[derive(Drop)]
pub(crate) struct Checkpoint {
    /// The number of entries before it.
    pub(crate) entries: u64,

    /// The format of its content.
    pub(crate) format: u32,

    /// The streams with their versions.
    pub(crate) roll: Roll,
}

impl<D: Disk> LogWalk<D> {
    /// Reads what the superblock names to start from, and goes to the place after it: nothing if it is the first gate, or else the
    /// checkpoint, with the pages to which its roots lead, in the order of their blocks, each once.
    pub(crate) fn read_start(&mut self) -> Result<(), OpenCause>
        requires new { IsNewWalk self.old }
        ensures walks { WalksOn self.old self.new }
        ensures place { OnOk result (IsPlaceIn self.old.found self.new.loader.board.entries self.new.place) }
        ensures into { OnOk result (WasReadTo self.new.place.gate self.new.loader) }
        ensures read { OnOk result (WasStarted ⟦<D as Disk>⟧ (disk_of self.old.log) self.old.found self.new.place.gate self.new.loader) }
        ensures cause { IfErr result (FirstCause ⟦<D as Disk>⟧ self.old.found (disk_of self.old.log) (disk_of self.new.log)) }
    {
        let found = self.found;
        if found.checkpoint == 0 {
            self.place = Place {
                gate: LOG_START,
                extents: 0,
            };
            return Ok(());
        }
        let checkpoint = self.read_checkpoint()?;
        self.load(&checkpoint)?;
        let entries = checkpoint.entries;
        self.place = Place {
            gate: found.tail,
            extents: entries + 1,
        };
        Ok(())
    }

    /// Reads the checkpoint that the superblock names.
    fn read_checkpoint(&mut self) -> Result<Checkpoint, OpenCause>
        requires over { IsWalkOver self.old }
        requires some { 0 < self.old.found.checkpoint }
        ensures walks { WalksOn self.old self.new }
        ensures loader { self.new.loader ≡ self.old.loader }
        ensures read { IfOk result
            (λ c. IsRollRead D.is_observable (D.contents (disk_of self.old.log)) self.old.found c.entries c.format c.roll) }
        ensures cause { IfErr result (FirstCause ⟦<D as Disk>⟧ self.old.found (disk_of self.old.log) (disk_of self.new.log)) }
    {
        let found = self.found;
        let found_there = match self.log.read_ahead(found.checkpoint, &mut self.piece) {
            Ok(found_there) => found_there,
            Err(fault) => return Err(cause_of(fault)),
        };
        let Some(head) = found_there else {
            return Err(no_checkpoint(found));
        };
        let next = found.checkpoint + head.n + 1;
        if head.kind != 2 || next != found.tail {
            return Err(no_checkpoint(found));
        }
        if !may_stand(&found, &head) {
            return Err(OpenCause::Damaged {
                block: found.checkpoint + 1,
            });
        }
        let body = self.piece.blocks(found.checkpoint + 1, head.n);
        match decode_checkpoint(self.alloc, &head, body, found.checkpoint)? {
            Some(roll) => Ok(Checkpoint {
                entries: head.number,
                format: head.format,
                roll,
            }),
            None => Err(OpenCause::Damaged {
                block: found.checkpoint + 1,
            }),
        }
    }

    /// Makes the trees of the roots of a checkpoint, and the board of its streams.
    fn load(&mut self, checkpoint: &Checkpoint) -> Result<(), OpenCause>
        requires over { IsWalkOver self.old }
        requires fresh { (self.old.loader.nodes ≡ []) × (self.old.loader.least ≡ 1) }
        requires roll { IsRoll checkpoint.now.format checkpoint.now.roll }
        ensures walks { WalksOn self.old self.new }
        ensures entries { OnOk result (self.new.loader.board.entries ≡ checkpoint.now.entries) }
        ensures grown { OnOk result (AreOfSome self.old.found.checkpoint self.new.loader.nodes) }
        ensures loaded { D.is_observable → OnOk result (IsLoaded (D.contents (disk_of self.old.log)) self.old.found.checkpoint
            checkpoint.now.roll checkpoint.now.entries self.new.loader) }
        ensures cause { IfErr result (StartCause ⟦<D as Disk>⟧ self.old.found checkpoint.now.format checkpoint.now.roll
            (disk_of self.old.log) (disk_of self.new.log)) }
    {
        let limit = self.found.checkpoint;
        let roll = &checkpoint.roll;
        let roots = roots_below(self.alloc, roll, limit)?;
        fetch_roots(
            &mut self.log.disk,
            &mut self.reader,
            &mut self.loader.nodes,
            &mut self.loader.steps,
            &roots,
        )?;
        let trees = trees_of(
            self.alloc,
            &self.loader.nodes,
            checkpoint.format,
            &roll.streams,
            limit,
        )?;
        self.loader.board = Board::restored(self.alloc, roll, trees, checkpoint.entries)?;
        Ok(())
    }
}

/// The superblock does not name a checkpoint: the block of its body is damaged.
pub(crate) fn no_checkpoint(found: Super) -> OpenCause
    requires side { found.side ≤ 1 }
    ensures { result ≡ OpenCause.Damaged (2 * found.side + 1) }
{
    OpenCause::Damaged {
        block: 2 * u64::from(found.side) + 1,
    }
}

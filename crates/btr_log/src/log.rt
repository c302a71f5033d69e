//! A log on a device: where it ends, and how much room is left.
ghost use Rattle.std.specs.Prelude.{◌≡◌, ◌<◌, ◌≤◌, ◌^◌, IsTrue};
ghost use Rattle.btr_disk.specs.Causes.{Rose};

use btr_disk::Disk;
use std::snapshot::Snapshot;

/// A log on a device: extents from block 4 on, the last of which ends before the gate at the tail.
///
/// An extent is a gate of one block and a body of whole blocks of 4096 bytes; then comes the next gate. An
/// open gate says that a body follows; the gate at the tail is closed. One block makes an extent durable,
/// as in the log of BTrDB (FAST 2016).
///
/// If the device fails in an append, the log is stopped and stays so: only another opening shows whether the
/// body is durable. The holder of the log stops it if the device fails in a call of the holder's own. The count
/// of faults of its device is then above the one when the log was made.
#[derive(Drop)]
pub struct Log<D: Disk> {
    /// The device. The holder of the log may call it, and leaves the blocks from 4 on as they are.
    pub disk: D,
    pub(crate) tail: u64,
    pub(crate) blocks: u64,
    pub(crate) extents: u64,
    pub(crate) stopped: bool,
    /// The device as it was when the log was made, for its count of faults. It takes no bytes.
    at: Snapshot<D>,
    ghost tail_inside: { tail < blocks },
    ghost counted: { extents ≤ tail },
    ghost inside: { blocks ≤ D.size disk },
    ghost addressable: { blocks ≤ 2 ^ 32 },
    ghost later: { D.faults at.value ≤ D.faults disk },
    ghost rose: { IsTrue stopped → Rose (D.faults at.value) (D.faults disk) },
}

impl<D: Disk> Log<D> {
    ghost use Rattle.std.specs.Prelude.{true};
    ghost use Rattle.btr_log.specs.Log.{log_device, log_tail, log_room, extents_of, is_log_stopped, faults_at, IsLogMadeOf, KeepsBounds};

    /// The log on this device whose gate at the end is `tail`, with `extents` extents before it and
    /// `blocks` blocks to use. It is not stopped. It makes no call of the device.
    pub fn at(disk: D, tail: u64, blocks: u64, extents: u64) -> Log<D>
        requires tail { tail < blocks }
        requires extents { extents ≤ tail }
        requires blocks { blocks ≤ D.size disk }
        requires addressable { blocks ≤ 2 ^ 32 }
        ensures { IsLogMadeOf disk tail blocks extents result }
    {
        let at = Snapshot::of(&disk);
        Log {
            disk,
            tail,
            blocks,
            extents,
            stopped: false,
            at,
        }
    }

    /// The block of the gate at the end.
    pub fn tail(&self) -> u64
        ensures { result ≡ log_tail self.now }
    {
        self.tail
    }

    /// The number of blocks after the gate at the end. An append needs those of its body and one more.
    pub fn room(&self) -> u64
        ensures { result ≡ log_room self.now }
    {
        self.blocks - 1 - self.tail
    }

    /// The number of acknowledged extents.
    pub fn extents(&self) -> u64
        ensures { result ≡ extents_of self.now }
    {
        self.extents
    }

    /// Whether the device failed in an append, or the log was stopped. Then its count of faults is above the one when the log was made.
    pub fn stopped(&self) -> bool
        ensures stopped { result ≡ is_log_stopped self.now }
        ensures faulted { IsTrue result → Rose (faults_at self.now) (D.faults (log_device self.now)) }
    {
        self.stopped
    }

    /// Stops the log, as an append does in which the device fails. The caller passes a log whose device has failed since the log was
    /// made. It makes no call of the device.
    pub fn stop(&mut self)
        requires { Rose (faults_at self.old) (D.faults (log_device self.old)) }
        ensures kept { KeepsBounds self.old self.new }
        ensures device { log_device self.new ≡ log_device self.old }
        ensures tail { log_tail self.new ≡ log_tail self.old }
        ensures extents { extents_of self.new ≡ extents_of self.old }
        ensures stopped { is_log_stopped self.new ≡ true }
    {
        self.stopped = true;
    }

    /// The device, as the log's calls left it.
    pub fn into_disk(self) -> D
        ensures { result ≡ log_device self }
    {
        self.disk
    }
}

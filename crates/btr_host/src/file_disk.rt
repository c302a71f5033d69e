//! A device in a file, or a block device.
ghost use Rattle.std.specs.Prelude.{◌≡◌, ◌+◌, ◌*◌, ◌^◌, ◌<◌, ◌≤◌, ◌≤ℤ◌, ◌↔◌, length, max, pos, IfOk, IsOk, IsErr, IsTrue, IsFalse};
ghost use Rattle.std.specs.Fd.{file_raw_fd};
ghost use Rattle.btr_disk.specs.Causes.{Counted, HasCause};

use crate::access::Access;
use crate::block_sink::FileBlockSink;
use crate::count::raise;
use crate::opening::{Opened, open_at};
use crate::renewing::renew_gates;
use btr_disk::{BLOCK, BlockSource, Disk, Failed, Parts};
use std::fs::{File, Files};
use std::io;
use std::io::ErrorKind;
use std::os::unix::fs::FileExt;

/// A file is made longer to a multiple of this many bytes.
const STEP: u64 = 1048576;

/// A small file is made longer to a multiple of this many bytes.
const SMALL_STEP: u64 = 65536;

/// The number of bytes from which a file is not small.
const LARGE: u64 = 8388608;

/// A file or a block device as a device.
///
/// A regular file has `2^32` blocks. Bytes past its end read as zeros. A write past it makes the file longer, to a multiple of 64 KiB, from
/// 8 MiB on of 1 MiB: so a sync seldom has to write the file's length too. A block device has the blocks of its own length, but at most
/// `2^32`. A sync is the system's `fdatasync`, which writes the bytes and all that is needed to read them. The file's descriptor is at
/// least 3, so it is never that of a standard stream that was closed. The file is locked until the device is dropped or the process ends.
///
/// If a sync fails, nobody knows what the disk has of the blocks that were written before it, while a read returns what was written. So
/// after the first write or sync that failed each later one fails too, and the next opening of the file writes the blocks on which all else
/// depends anew.
///
/// No contract says what the file holds. The system and the disk are trusted: a write reaches the file, a read returns what was written,
/// a sync reports each write that failed, what was synced survives a crash, and a block that is written again with the bytes that it has
/// keeps them.
#[derive(Drop)]
pub struct FileDisk {
    file: File,

    /// Of a block device, the lock on the device itself.
    _claim: Option<File>,
    blocks: u64,

    /// A number of bytes that the file does not exceed; of a block device, those that it has.
    length: u64,

    /// Whether a write or a sync failed.
    has_failed: bool,
    calls: u64,
    faults: u64,
    ghost above_streams: { pos 3 ≤ℤ file_raw_fd file },
    ghost addressable: { blocks ≤ 2 ^ 32 },
}

impl FileDisk {
    /// Opens a file or a block device for what a run does with it, and locks it. A regular file is made if it is missing, but not below
    /// `/dev`. The call does not wait for a lock: if another process has one that excludes this one, it returns an error, as it does if the
    /// system cannot lock the file, if a block device is to be written and is in use, and if what is at the path is something else.
    ///
    /// Of a store that may be written it writes the gates anew on which all else depends, with the bytes that they have ([`renew_gates`]).
    /// The first call of a run on its device is a sync, which makes them durable.
    pub fn open<R: Files<File = File> + AllocGlobal + Clone + Drop>(
        rt: &R,
        path: &str,
        access: Access,
    ) -> io::Result<FileDisk>
        ensures { IfOk result (λ disk. pos 3 ≤ℤ file_raw_fd disk.file) }
    {
        let Opened {
            file,
            claim,
            blocks,
            length,
        } = open_at(rt, path, access)?;
        let mut disk = FileDisk {
            file,
            _claim: claim,
            blocks,
            length,
            has_failed: false,
            calls: 0,
            faults: 0,
        };
        match access {
            Access::Read => Ok(disk),
            Access::Write => match renew_gates(&mut disk) {
                Ok(()) => Ok(disk),
                Err(Failed) => Err(io::Error::from(ErrorKind::Other)),
            },
        }
    }

    /// Makes the file longer before a write up to this byte, if it may be shorter. It never makes it shorter. If the
    /// system refuses, the write alone makes it longer, or fails.
    fn lengthen(&mut self, end: u64)
        requires { end < 2 ^ 63 }
        ensures blocks { self.new.blocks ≡ self.old.blocks }
        ensures calls { self.new.calls ≡ self.old.calls }
        ensures faults { self.new.faults ≡ self.old.faults }
        ensures longer { self.old.length ≤ self.new.length }
        ensures reaches { end ≤ self.new.length }
        ensures near { self.new.length < max self.old.length end + 2 ^ 20 }
    {
        if end <= self.length {
            return;
        }
        let length = length_for(end);
        self.length = match self.file.set_len(length) {
            Ok(()) => length,
            Err(_) => end,
        };
    }

    /// Counts a fault if the system has returned an error, and so the call is not done.
    fn counted(&mut self, is_done: bool) -> Result<(), Failed>
        ensures blocks { self.new.blocks ≡ self.old.blocks }
        ensures calls { self.new.calls ≡ self.old.calls }
        ensures cause { HasCause self.old.faults self.new.faults result }
        ensures ok { IsOk result ↔ IsTrue is_done }
    {
        if is_done {
            Ok(())
        } else {
            raise(&mut self.faults);
            Err(Failed)
        }
    }

    /// The same of a write or a sync. After the first one that is not done none is.
    fn changed(&mut self, is_done: bool) -> Result<(), Failed>
        ensures blocks { self.new.blocks ≡ self.old.blocks }
        ensures calls { self.new.calls ≡ self.old.calls }
        ensures cause { HasCause self.old.faults self.new.faults result }
        ensures ok { IsOk result ↔ (IsTrue is_done × IsFalse self.old.has_failed) }
        ensures stays { IsTrue self.new.has_failed ↔ IsErr result }
    {
        if self.has_failed || !is_done {
            self.has_failed = true;
            raise(&mut self.faults);
            return Err(Failed);
        }
        Ok(())
    }
}

impl Disk for FileDisk {
    ghost is_observable = { ⊥ };

    ghost size = { λ disk. disk.blocks };

    ghost contents = { λ disk address. 0 };

    ghost images_now = { λ disk c. ⊥ };

    ghost images_since = { λ disk t c. ⊥ };

    ghost calls = { λ disk. disk.calls };

    ghost faults = { λ disk. disk.faults };

    fn blocks(&self) -> u64 {
        self.blocks
    }

    fn read(&mut self, first: u64, buf: &mut [u8]) -> Result<(), Failed> {
        raise(&mut self.calls);
        let answer = read_full(&self.file, first * BLOCK as u64, buf);
        self.counted(answer.is_ok())
    }

    fn write(&mut self, first: u64, bytes: &[u8]) -> Result<(), Failed> {
        raise(&mut self.calls);
        let offset = first * BLOCK as u64;
        self.lengthen(offset + bytes.len() as u64);
        let answer = self.file.write_all_at(bytes, offset);
        self.changed(answer.is_ok())
    }

    fn write_parts<S: BlockSource>(
        &mut self,
        first: u64,
        prefix: &Parts,
        rest: &S,
    ) -> Result<(), Failed> {
        raise(&mut self.calls);
        let offset = first * BLOCK as u64;
        let room = rest.blocks();
        self.lengthen(offset + (prefix.len() + room * BLOCK) as u64);
        let is_written = rest.write_to(&FileBlockSink {
            file: &self.file,
            offset,
            prefix,
            room,
        });
        self.changed(is_written)
    }

    fn sync(&mut self) -> Result<(), Failed> {
        raise(&mut self.calls);
        let answer = self.file.sync_data();
        self.changed(answer.is_ok())
    }

    ghost image_bytes = { λ observable. absurd observable };

    ghost reads_as_image = { λ observable. absurd observable };

    ghost counts_now = { λ observable. absurd observable };

    ghost only_now = { λ observable. absurd observable };

    ghost fewer_later = { λ observable. absurd observable };
}

/// The length of a file that has at least this many bytes: it depends on them alone, and not on the writes before.
fn length_for(end: u64) -> u64
    requires { end < 2 ^ 63 }
    ensures least { end ≤ result }
    ensures near { result < end + 2 ^ 20 }
{
    let step = if end < LARGE { SMALL_STEP } else { STEP };
    (end + step - 1) / step * step
}

/// Fills the buffer with the file's bytes from this offset on, and with zeros past the file's end.
fn read_full(file: &File, offset: u64, buf: &mut [u8]) -> io::Result<()>
    requires { offset + length buf.old < 2 ^ 64 }
{
    let mut at = 0;
    while at < buf.len() {
        let n = read_some(file, offset + at as u64, &mut buf[at..])?;
        if n == 0 {
            buf[at..].fill(0);
            return Ok(());
        }
        at += n;
    }
    Ok(())
}

/// One read at an offset, which is repeated if a signal interrupts it.
fn read_some(file: &File, offset: u64, buf: &mut [u8]) -> io::Result<usize>
    ensures { IfOk result (λ n. n ≤ length buf.old) }
{
    for _ in 0..u64::MAX {
        match file.read_at(buf, offset) {
            Err(error) if error.kind() == ErrorKind::Interrupted => {}
            answer => return answer,
        }
    }
    Err(io::Error::from(ErrorKind::Interrupted))
}

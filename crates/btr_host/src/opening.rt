//! How the file of a device is opened: by its kind, for what a run does with it.
ghost use Rattle.std.specs.Prelude.{◌≡◌, ◌≤◌, ◌≤ℤ◌, ◌*◌, ◌^◌, pos, IfOk};
ghost use Rattle.std.specs.Fd.{file_raw_fd};

use crate::access::Access;
use crate::in_use::{claim, is_in_use};
use btr_disk::BLOCK;
use btr_super::MAX_BLOCKS;
use std::fs::{File, FileType, Files, OpenOptions};
use std::io::{ErrorKind, Seek, SeekFrom};
use std::os::fd::AsRawFd;
use std::os::unix::fs::{FileTypeExt, MetadataExt};
use std::path::Path;
use std::{fs, io};

/// The folder of the system's devices.
const DEVICES: &str = "/dev";

/// A file that was opened and locked.
#[derive(Drop)]
pub(crate) struct Opened {
    pub(crate) file: File,

    /// Of a block device, the lock on the device itself, which another path to it cannot pass.
    pub(crate) claim: Option<File>,

    /// The number of blocks of the device.
    pub(crate) blocks: u64,

    /// The number of bytes of the file.
    pub(crate) length: u64,
    ghost above_streams: { pos 3 ≤ℤ file_raw_fd file },
    ghost addressable: { blocks ≤ 2 ^ 32 },
}

/// Opens the file at a path for what a run does with it, and locks it. It does not wait for a lock.
///
/// A regular file is made if it is missing, but not in the folder of the system's devices. What is no regular file and no block device is
/// refused, and so is a block device that may be written and is in use.
pub(crate) fn open_at<R: Files<File = File> + AllocGlobal + Clone + Drop>(
    rt: &R,
    path: &str,
    access: Access,
) -> io::Result<Opened> {
    let file = above_streams(open_or_make(rt, path, access)?)?;
    take_lock(&file, access)?;
    let found = file.metadata()?;
    if found.file_type().is_block_device() {
        return open_device(rt, file, found.rdev(), access);
    }
    let length = found.len();
    if length == 0 && access == Access::Write {
        sync_folder(rt, path)?;
    }
    Ok(Opened {
        file,
        claim: None,
        blocks: MAX_BLOCKS,
        length,
    })
}

/// Opens the file at a path, or makes it.
fn open_or_make<R: Files<File = File> + AllocGlobal + Clone + Drop>(
    rt: &R,
    path: &str,
    access: Access,
) -> io::Result<File> {
    match fs::metadata(rt, path) {
        Ok(found) if can_be_device(found.file_type()) => {
            let mut options = OpenOptions::new();
            options.read(true).write(access == Access::Write);
            options.open(rt, path)
        }
        Ok(_) => Err(io::Error::from(ErrorKind::Unsupported)),
        Err(error) if error.kind() == ErrorKind::NotFound => make(rt, path),
        Err(error) => Err(error),
    }
}

/// Whether a file of this type can be a device.
fn can_be_device(kind: FileType) -> bool {
    kind.is_file() || kind.is_block_device()
}

/// Makes an empty file at a path that is missing.
fn make<R: Files<File = File> + AllocGlobal + Clone + Drop>(
    rt: &R,
    path: &str,
) -> io::Result<File> {
    let folder = fs::canonicalize(rt, folder_of(path))?;
    if folder.starts_with(DEVICES) {
        return Err(io::Error::from(ErrorKind::NotFound));
    }
    let mut options = OpenOptions::new();
    options.read(true).write(true).create(true);
    options.open(rt, path)
}

/// The folder of a path.
fn folder_of(path: &str) -> &str {
    match Path::new(path).parent() {
        Some(folder) if !folder.as_str().is_empty() => folder.as_str(),
        _ => ".",
    }
}

/// Makes the name of a file durable in its folder.
fn sync_folder<R: Files<File = File> + AllocGlobal + Clone + Drop>(
    rt: &R,
    path: &str,
) -> io::Result<()> {
    let place = fs::canonicalize(rt, path)?;
    File::open(rt, folder_of(place.as_str()))?.sync_all()
}

/// A block device of this number, at a file that was opened and locked.
fn open_device<R: Files<File = File> + AllocGlobal + Clone + Drop>(
    rt: &R,
    file: File,
    number: u64,
    access: Access,
) -> io::Result<Opened>
    requires { pos 3 ≤ℤ file_raw_fd file }
{
    let claim = claim(rt, number, access)?;
    if access == Access::Write && is_in_use(rt, number)? {
        return Err(io::Error::from(ErrorKind::ResourceBusy));
    }
    let length = (&file).seek(SeekFrom::End(0))?;
    Ok(Opened {
        file,
        claim,
        blocks: (length / BLOCK as u64).min(MAX_BLOCKS),
        length,
    })
}

/// The same open file at a descriptor of at least 3. A file that is opened while a standard stream is closed gets the
/// stream's descriptor. It is then closed there, and later calls on the stream fail.
pub(crate) fn above_streams(file: File) -> io::Result<File>
    ensures { IfOk result (λ file. pos 3 ≤ℤ file_raw_fd file) }
{
    if file.as_raw_fd() >= 3 {
        return Ok(file);
    }
    let copy = file.try_clone()?;
    if copy.as_raw_fd() >= 3 {
        Ok(copy)
    } else {
        Err(io::Error::from(ErrorKind::Other))
    }
}

/// Takes a lock on the whole file, or returns an error at once: a shared one, or, to write, one that excludes all others.
pub(crate) fn take_lock(file: &File, access: Access) -> io::Result<()> {
    match access {
        Access::Read => file.try_lock_shared()?,
        Access::Write => file.try_lock()?,
    }
    Ok(())
}

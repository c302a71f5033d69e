//! Who else uses a block device: what the system says of it in its files.
//!
//! A device is used if it is mounted, swapped to, or part of another device, such as a volume group. A device and its partitions are
//! related: who uses one uses the other.

use crate::access::Access;
use crate::opening::{above_streams, take_lock};
use std::alloc::{AllocError, Global};
use std::fs::{File, Files};
use std::io::ErrorKind;
use std::os::unix::fs::{FileTypeExt, MetadataExt};
use std::{fs, io};

/// The system's files on its block devices, by their numbers.
const BY_NUMBER: &str = "/sys/dev/block";

/// The mounts of this process: the third word of each line is a device's number, and the second one after ` - ` its path.
const MOUNTS: &str = "/proc/self/mountinfo";

/// The devices that the system swaps to: after a line of headings, the first word of each line is a path.
const SWAPS: &str = "/proc/swaps";

/// All block devices: the first two words of each line but the first two are the parts of a number.
const PARTITIONS: &str = "/proc/partitions";

/// Locks a block device by the system's file on it, which is one for all paths that lead to the device. The lock lasts as long as the file
/// that is returned. There is none if the system shows no such files.
pub(crate) fn claim<R: Files<File = File> + AllocGlobal + Clone + Drop>(
    rt: &R,
    number: u64,
    access: Access,
) -> io::Result<Option<File>> {
    let name = name_of(rt.alloc(), number)?;
    let path = format!(in rt.alloc(); "{BY_NUMBER}/{}/dev", name.as_str())?;
    match File::open(rt, path.as_str()) {
        Ok(file) => {
            let file = above_streams(file)?;
            take_lock(&file, access)?;
            Ok(Some(file))
        }
        Err(error) if error.kind() == ErrorKind::NotFound => Ok(None),
        Err(error) => Err(error),
    }
}

/// Whether a block device, or one that is related to it, is used.
pub(crate) fn is_in_use<R: Files<File = File> + AllocGlobal + Clone + Drop>(
    rt: &R,
    number: u64,
) -> io::Result<bool> {
    let name = name_of(rt.alloc(), number)?;
    let name = name.as_str();
    Ok(is_mounted(rt, name)? || is_swapped_to(rt, name)? || is_held(rt, name)?)
}

/// The name of a device's number, as the system writes it: `8:1`.
fn name_of(alloc: Global, number: u64) -> Result<String, AllocError> {
    let major = number >> 8 & 0xfff | number >> 32 & 0xffff_f000;
    let minor = number & 0xff | number >> 12 & 0xffff_ff00;
    format!(in alloc; "{major}:{minor}")
}

/// The name of the device of which this one is a partition, if it is one.
fn whole_of<R: Files<File = File> + AllocGlobal + Clone + Drop>(
    rt: &R,
    name: &str,
) -> io::Result<Option<String>> {
    let path = format!(in rt.alloc(); "{BY_NUMBER}/{name}/../dev")?;
    match fs::read_to_string(rt, path.as_str()) {
        Ok(text) => Ok(Some(text)),
        Err(error) if error.kind() == ErrorKind::NotFound => Ok(None),
        Err(error) => Err(error),
    }
}

/// Whether the first device is a partition of the second one.
fn is_partition_of<R: Files<File = File> + AllocGlobal + Clone + Drop>(
    rt: &R,
    first: &str,
    second: &str,
) -> io::Result<bool> {
    match whole_of(rt, first)? {
        Some(whole) => Ok(whole.as_str().trim() == second),
        None => Ok(false),
    }
}

/// Whether two devices are the same, or one is a partition of the other.
fn are_related<R: Files<File = File> + AllocGlobal + Clone + Drop>(
    rt: &R,
    first: &str,
    second: &str,
) -> io::Result<bool> {
    Ok(
        first == second
            || is_partition_of(rt, first, second)?
            || is_partition_of(rt, second, first)?,
    )
}

/// Whether the device at this path is related to this one. What is no block device is not.
fn leads_to<R: Files<File = File> + AllocGlobal + Clone + Drop>(
    rt: &R,
    path: &str,
    name: &str,
) -> io::Result<bool> {
    match fs::metadata(rt, path) {
        Ok(found) if found.file_type().is_block_device() => {
            let other = name_of(rt.alloc(), found.rdev())?;
            are_related(rt, other.as_str(), name)
        }
        _ => Ok(false),
    }
}

/// Whether a device is mounted.
fn is_mounted<R: Files<File = File> + AllocGlobal + Clone + Drop>(
    rt: &R,
    name: &str,
) -> io::Result<bool> {
    let mounts = fs::read_to_string(rt, MOUNTS)?;
    for line in mounts.as_str().lines() {
        let mounted = line.split(' ').nth(2).unwrap_or("");
        let (_, source) = line.split_once(" - ").unwrap_or(("", ""));
        let path = source.split(' ').nth(1).unwrap_or("");
        if are_related(rt, mounted, name)? || leads_to(rt, path, name)? {
            return Ok(true);
        }
    }
    Ok(false)
}

/// Whether the system swaps to a device.
fn is_swapped_to<R: Files<File = File> + AllocGlobal + Clone + Drop>(
    rt: &R,
    name: &str,
) -> io::Result<bool> {
    let swaps = fs::read_to_string(rt, SWAPS)?;
    for line in swaps.as_str().lines().skip(1) {
        let path = line.split(' ').next().unwrap_or("");
        if leads_to(rt, path, name)? {
            return Ok(true);
        }
    }
    Ok(false)
}

/// Whether a device is part of another one.
fn is_held<R: Files<File = File> + AllocGlobal + Clone + Drop>(
    rt: &R,
    name: &str,
) -> io::Result<bool> {
    let all = fs::read_to_string(rt, PARTITIONS)?;
    for line in all.as_str().lines().skip(2) {
        let mut words = line.split_whitespace();
        let major = words.next().unwrap_or("");
        let minor = words.next().unwrap_or("");
        let other = format!(in rt.alloc(); "{major}:{minor}")?;
        if are_related(rt, other.as_str(), name)? && has_holder(rt, other.as_str())? {
            return Ok(true);
        }
    }
    Ok(false)
}

/// Whether another device is made of this one.
fn has_holder<R: Files<File = File> + AllocGlobal + Clone + Drop>(
    rt: &R,
    name: &str,
) -> io::Result<bool> {
    let path = format!(in rt.alloc(); "{BY_NUMBER}/{name}/holders")?;
    match fs::read_dir(rt, path.as_str()) {
        Ok(mut holders) => Ok(holders.next().is_some()),
        Err(error) if error.kind() == ErrorKind::NotFound => Ok(false),
        Err(error) => Err(error),
    }
}

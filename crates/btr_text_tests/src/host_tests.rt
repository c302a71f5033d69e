//! What no contract can say: a file and a pipe hold what was written to them, and a locked file is refused.
ghost use Rattle.std.specs.Prelude.{◌≡◌, ◌+◌, ◌*◌, ◌^◌, ◌<◌, ◌≤◌, length, IfOk, vec_len};

use btr_disk::bytes::put;
use btr_disk::{
    BLOCK, BlockSink, BlockSource, Blocks, Capacity, Disk, GATE_MARK, HeldBlocks, MemDisk,
    NoBlocks, Parts, write_by_threads,
};
use btr_host::*;
use btr_io::{ReadAllFault, Sink, Source, read_all, write_all};
use std::alloc::{AllocError, Global};
use std::io::{ErrorKind, Read, Write};
use std::marker::Sync;
use std::test::Fail;
use std::thread::Threads;
use std::{env, fs, io};

/// Blocks that are filled with one byte.
fn filled(alloc: Global, blocks: usize, byte: u8) -> Result<Vec<u8>, AllocError>
    requires { blocks < 100 }
    ensures { IfOk result (λ bytes. vec_len bytes ≡ 4096 * blocks) }
{
    vec![in alloc; byte; 4096 * blocks]
}

/// How often a slice has a byte.
fn count(bytes: &[u8], byte: u8) -> usize {
    bytes.iter().filter(|b| **b == byte).count()
}

/// Writes blocks 1 and 2, and syncs.
fn write_two(alloc: Global, disk: &mut FileDisk) -> Result<bool, AllocError> {
    let two = filled(alloc, 2, 7)?;
    if disk.blocks() < 3 {
        return Ok(false);
    }
    Ok(disk.write(1, &two).is_ok() && disk.sync().is_ok())
}

/// Reads blocks; none if the read fails, or the device has fewer.
fn read_blocks(
    alloc: Global,
    disk: &mut FileDisk,
    first: u64,
    blocks: usize,
) -> Result<Vec<u8>, AllocError>
    requires some { 0 < blocks }
    requires few { blocks < 100 }
    requires inside { first + blocks ≤ 2 ^ 32 }
{
    let mut bytes = filled(alloc, blocks, 9)?;
    if disk.blocks() < first + blocks as u64 || disk.read(first, &mut bytes).is_err() {
        bytes.clear();
    }
    Ok(bytes)
}

/// The path of a file for a test of this process, in the folder for temporary files.
fn path_for(rt: &HostRuntime, name: &str) -> io::Result<String> {
    let process = std::process::id(rt.process());
    let folder = env::temp_dir(rt)?;
    Ok(format!(in rt.alloc(); "{}/btr_host_{}_{}", folder.as_str(), process, name)?)
}

/// Makes a file and writes two blocks to it.
fn is_written(rt: &HostRuntime, path: &str) -> Result<bool, Fail> {
    let mut disk = FileDisk::open(rt, path, Access::Write)?;
    Ok(write_two(rt.alloc(), &mut disk)?)
}

/// What a file has in the four blocks from 0 on: the numbers of bytes 7 and 0, and the place of the first byte 7.
fn first_blocks(rt: &HostRuntime, path: &str) -> Result<(usize, usize, Option<usize>), Fail> {
    let mut disk = FileDisk::open(rt, path, Access::Read)?;
    let four = read_blocks(rt.alloc(), &mut disk, 0, 4)?;
    let place = four.iter().position(|byte| *byte == 7);
    Ok((count(&four, 7), count(&four, 0), place))
}

/// The number of bytes 0 in the last block of a file.
fn zeros_at_the_end(rt: &HostRuntime, path: &str) -> Result<usize, Fail> {
    let mut disk = FileDisk::open(rt, path, Access::Read)?;
    let last = read_blocks(rt.alloc(), &mut disk, 4294967295, 1)?;
    Ok(count(&last, 0))
}

/// A file keeps blocks until a second opening, and reads as zeros past its end.
#[test]
fn a_file_keeps_blocks(rt: HostRuntime) -> Result<(), Fail> {
    let path = path_for(&rt, "blocks")?;
    assert!(rt; is_written(&rt, &path)?);
    assert!(rt; first_blocks(&rt, &path)? == (8192, 8192, Some(4096)));
    assert!(rt; zeros_at_the_end(&rt, &path)? == 4096);
    fs::remove_file(&rt, &path)?;
    Ok(())
}

/// Two blocks in parts of 10, 4086 and 4096 bytes: fives, sixes and sevens.
fn three_parts(alloc: Global) -> Result<Parts, AllocError>
    ensures { IfOk result (λ parts. length parts ≡ 8192) }
{
    let mut parts = Parts::of(alloc, vec![in alloc; 5; 10]?)?;
    parts.push(vec![in alloc; 6; 4086]?)?;
    parts.push(vec![in alloc; 7; 4096]?)?;
    Ok(parts)
}

/// Makes a file, writes blocks 1 and 2 to it in three parts, and syncs.
fn is_written_in_parts(rt: &HostRuntime, path: &str) -> Result<bool, Fail> {
    let parts = three_parts(rt.alloc())?;
    let mut disk = FileDisk::open(rt, path, Access::Write)?;
    if disk.blocks() < 3 {
        return Ok(false);
    }
    Ok(disk.write_parts(1, &parts, &NoBlocks).is_ok() && disk.sync().is_ok())
}

/// How often the four blocks of a file from 0 on have a byte, and the place of the first.
fn found(rt: &HostRuntime, path: &str, byte: u8) -> Result<(usize, Option<usize>), Fail> {
    let mut disk = FileDisk::open(rt, path, Access::Read)?;
    let four = read_blocks(rt.alloc(), &mut disk, 0, 4)?;
    let place = four.iter().position(|b| *b == byte);
    Ok((count(&four, byte), place))
}

/// A file keeps the parts of a write, one after the other.
#[test]
fn a_file_keeps_parts(rt: HostRuntime) -> Result<(), Fail> {
    let path = path_for(&rt, "parts")?;
    assert!(rt; is_written_in_parts(&rt, &path)?);
    assert!(rt; found(&rt, &path, 5)? == (10, Some(4096)));
    assert!(rt; found(&rt, &path, 6)? == (4086, Some(4106)));
    assert!(rt; found(&rt, &path, 7)? == (4096, Some(8192)));
    fs::remove_file(&rt, &path)?;
    Ok(())
}

/// Blocks of which the byte at address k is k / 16 % 251: no two blocks of the first fifteen are alike.
fn counted(alloc: Global, blocks: usize) -> Result<Vec<u8>, AllocError>
    requires { blocks < 100 }
    ensures { IfOk result (λ bytes. vec_len bytes ≡ 4096 * blocks) }
{
    let mut bytes = vec![in alloc; 0; BLOCK * blocks]?;
    for k in 0..bytes.len() {
        bytes[k] = (k / 16 % 251) as u8;
    }
    Ok(bytes)
}

/// Blocks that this number of threads have written.
#[derive(Drop)]
struct SharedBlocks<'a, R> {
    rt: &'a R,
    threads: usize,
    blocks: HeldBlocks<'a>,
}

impl<'a, R> Blocks for SharedBlocks<'a, R> {
    ghost bytes = { λ shared. ⟦<HeldBlocks<'a> as Blocks>⟧.bytes shared.blocks };

    fn blocks(&self) -> usize {
        self.blocks.blocks()
    }

    fn fill(&self, first: usize, to: &mut [u8]) {
        self.blocks.fill(first, to);
    }
}

impl<R: Threads + Sync> BlockSource for SharedBlocks<'_, R> {
    ghost use Rattle.std.specs.Thread.{IsSync};

    ghost can_work = { IsSync R.row };

    fn write_to(&self, sink: &(dyn BlockSink + Sync)) -> bool {
        write_by_threads(self.rt, &self.blocks, self.threads, sink)
    }
}

/// Makes a file, writes two blocks in parts and then 37 of a source to it from block 3 on, by this number of threads, and syncs.
fn is_written_from_a_source<T: Threads + Sync>(
    rt: &HostRuntime,
    by: &T,
    path: &str,
    threads: usize,
) -> Result<bool, Fail> {
    let parts = three_parts(rt.alloc())?;
    let bytes = counted(rt.alloc(), 37)?;
    let mut disk = FileDisk::open(rt, path, Access::Write)?;
    let is_written = write_from(by, &mut disk, &parts, &bytes, threads);
    Ok(is_written && disk.sync().is_ok())
}

/// Writes the parts and then these blocks from block 3 on, by this number of threads.
fn write_from<T: Threads + Sync>(
    by: &T,
    disk: &mut FileDisk,
    parts: &Parts,
    bytes: &[u8],
    threads: usize,
) -> bool
    requires parts { length parts.now ≡ 8192 }
    requires bytes { length bytes.now ≡ 4096 * 37 }
{
    let rest = SharedBlocks {
        rt: by,
        threads,
        blocks: HeldBlocks::new(bytes),
    };
    disk.blocks() > 42 && disk.write_parts(3, parts, &rest).is_ok()
}

/// What a file has in the 41 blocks from block 2 on.
fn blocks_from_two(rt: &HostRuntime, path: &str) -> Result<Vec<u8>, Fail> {
    let mut disk = FileDisk::open(rt, path, Access::Read)?;
    Ok(read_blocks(rt.alloc(), &mut disk, 2, 41)?)
}

/// What a write of three parts and 37 blocks at block 3 leaves from block 2 on, with a block of zeros on both sides.
fn wanted(alloc: Global) -> Result<Vec<u8>, AllocError> {
    let mut bytes = filled(alloc, 1, 0)?;
    for part in three_parts(alloc)?.as_slices() {
        bytes.extend_from_slice(part)?;
    }
    bytes.extend_from_slice(&counted(alloc, 37)?)?;
    bytes.extend_from_slice(&filled(alloc, 1, 0)?)?;
    Ok(bytes)
}

/// Writes from a source by this number of threads, and returns whether the file has the blocks in order.
fn keeps_a_source<T: Threads + Sync>(
    rt: &HostRuntime,
    by: &T,
    threads: usize,
) -> Result<bool, Fail> {
    let path = path_for(rt, "source")?;
    let is_written = is_written_from_a_source(rt, by, &path, threads)?;
    let is_kept = blocks_from_two(rt, &path)? == wanted(rt.alloc())?;
    fs::remove_file(rt, &path)?;
    Ok(is_written && is_kept)
}

/// A file keeps the blocks of a source after the prefix, in order, also if the last piece is not whole and if several threads write.
#[test]
fn a_file_keeps_the_blocks_of_a_source(rt: HostRuntime) -> Result<(), Fail> {
    for threads in 1..5 {
        assert!(rt; keeps_a_source(&rt, &rt, threads)?);
    }
    Ok(())
}

/// Whether a file can be opened for the second while it is open for the first.
fn opens_beside(rt: &HostRuntime, path: &str, first: Access, second: Access) -> io::Result<bool> {
    let held = FileDisk::open(rt, path, first)?;
    let opened = FileDisk::open(rt, path, second).is_ok();
    drop(held);
    Ok(opened)
}

/// What may be opened beside what: the first, the second, and whether it is.
const BESIDE: [(Access, Access, bool); 4] = [
    (Access::Read, Access::Read, true),
    (Access::Read, Access::Write, false),
    (Access::Write, Access::Read, false),
    (Access::Write, Access::Write, false),
];

/// Who reads excludes who writes alone, and a lock ends when its device is dropped.
#[test]
fn a_locked_file_is_refused(rt: HostRuntime) -> Result<(), Fail> {
    let path = path_for(&rt, "lock")?;
    for (first, second, is_opened) in BESIDE {
        assert!(rt; opens_beside(&rt, &path, first, second)? == is_opened);
    }
    fs::remove_file(&rt, &path)?;
    Ok(())
}

/// A folder, and a file in a folder that is missing, cannot be opened.
#[test]
fn what_is_no_file_is_refused(rt: HostRuntime) -> Result<(), Fail> {
    let folder = env::temp_dir(&rt)?;
    let path = path_for(&rt, "missing/device")?;
    assert!(rt; FileDisk::open(&rt, folder.as_str(), Access::Read).is_err());
    assert!(rt; FileDisk::open(&rt, &path, Access::Write).is_err());
    assert!(rt; FileDisk::open(&rt, "/dev/null", Access::Write).is_err());
    assert!(rt; FileDisk::open(&rt, "/dev/btr_host_test", Access::Write).is_err());
    assert!(rt; !fs::exists(&rt, "/dev/btr_host_test")?);
    Ok(())
}

/// Each call on the missing device fails.
#[test]
fn no_disk_fails_each_call(rt: HostRuntime) -> Result<(), Fail> {
    let mut disk = NoDisk::new();
    let mut block = [0; 4096];
    assert!(rt; disk.blocks() == 4294967296);
    let read = disk.read(0, &mut block).is_err();
    let write = disk.write(0, &block).is_err();
    let parts = disk
        .write_parts(0, &three_parts(rt.alloc())?, &NoBlocks)
        .is_err();
    assert!(rt; read && write && parts && disk.sync().is_err());
    Ok(())
}

/// Whether a text goes into a sink and is passed on.
fn is_sent<K: Sink>(sink: &mut K) -> bool {
    write_all(sink, b"stream") == Ok(()) && sink.flush() == Ok(())
}

/// What a sink writes into a pipe, a source reads from it.
#[test]
fn a_pipe_from_end_to_end(rt: HostRuntime) -> Result<(), Fail> {
    let (reader, writer) = io::pipe(&rt)?;
    let mut sink = StdSink::new(writer);
    assert!(rt; is_sent(&mut sink));
    drop(sink);
    let mut source = StdSource::new(reader);
    let read = read_all(rt.alloc(), &mut source, 6);
    assert!(rt; read.is_ok_and(|read| read.as_slice() == b"stream".as_slice()));
    Ok(())
}

/// A stream that fails: its writes take nothing, its reads and flushes return an error.
#[derive(Drop)]
struct Broken;

impl Read for Broken {
    fn read(&mut self, _buf: &mut [u8]) -> io::Result<usize> {
        Err(io::Error::from(ErrorKind::Other))
    }
}

impl Write for Broken {
    fn write(&mut self, _buf: &[u8]) -> io::Result<usize> {
        Ok(0)
    }

    fn flush(&mut self) -> io::Result<()> {
        Err(io::Error::from(ErrorKind::Other))
    }
}

/// A source fails if its stream does.
#[test]
fn a_source_of_a_broken_stream_fails(rt: HostRuntime) {
    let mut source = StdSource::new(Broken);
    let read = read_all(rt.alloc(), &mut source, 6);
    assert!(rt; read.is_err_and(|fault| fault == ReadAllFault::Fault));
}

/// A sink fails if its stream does.
#[test]
fn a_sink_of_a_broken_stream_fails(rt: HostRuntime) {
    let mut sink = StdSink::new(Broken);
    let takes_nothing = sink.write(b"").is_ok();
    let fails = write_all(&mut sink, b"stream").is_err();
    assert!(rt; takes_nothing && fails && sink.flush().is_err());
}

/// Puts the head of an entry whose body is this block alone.
fn put_head(bytes: &mut [u8], body: usize, number: u8)
    requires { 4096 * body + 64 ≤ length bytes.old }
{
    put(
        bytes,
        body * BLOCK,
        b"BTR-BODY\0\0\0\x01\0\0\0\x01\0\0\0\0\0\0\0",
    );
    put(
        bytes,
        body * BLOCK + 23,
        &[number, 0, 0, 0, 0, 0, 0, 0, 1, 0, 0, 0, 0, 0, 0, 0, 17],
    );
}

/// Puts the superblock of a store of 64 blocks without a checkpoint.
fn put_super(bytes: &mut [u8])
    requires { 8192 ≤ length bytes.old }
{
    put(
        bytes,
        BLOCK,
        b"BTR-SUPR\0\0\0\x01\0\0\0\0\0\0\0\0\0\0\0\x01",
    );
    put(bytes, BLOCK + 24, b"\0\0\0\0\0\0\0\x40\0\0\0\0\0\0\0\x04");
}

/// Puts an open gate in this block, or leaves the block as it is.
fn put_gate(bytes: &mut [u8], block: usize, is_open: bool)
    requires { 4096 * block + 8 ≤ length bytes.old }
{
    if is_open {
        put(bytes, block * BLOCK, &GATE_MARK);
    }
}

/// Puts a store with two extents of one block each, whose gates are at 4 and 6. The first `open` gates are open, of those at 0, 4 and 6.
fn put_store(bytes: &mut [u8], open: usize)
    requires { 32768 ≤ length bytes.old }
{
    put_super(bytes);
    put_head(bytes, 5, 1);
    put_head(bytes, 7, 2);
    put_gate(bytes, 0, open > 0);
    put_gate(bytes, 4, open > 1);
    put_gate(bytes, 6, open > 2);
}

/// A store of 64 blocks with two extents, of whose gates the first `open` are open.
fn two_extents(alloc: Global, open: usize) -> Result<MemDisk, AllocError> {
    let mut bytes = filled(alloc, 64, 0)?;
    put_store(&mut bytes, open);
    let capacity = Capacity {
        calls: 8,
        blocks: 8,
    };
    MemDisk::from_bytes(alloc, bytes, capacity, Vec::new(alloc))
}

/// The last gate of a log is that of its last extent, and where the log begins if it has none.
#[test]
fn the_last_gate_of_a_log(rt: HostRuntime) -> Result<(), Fail> {
    for (open, gate) in [(0, None), (1, Some(4)), (2, Some(4)), (3, Some(6))] {
        let mut disk = two_extents(rt.alloc(), open)?;
        assert!(rt; last_gate(&mut disk).is_ok_and(|found| found == gate));
    }
    Ok(())
}

//! Blocks of a source that several threads have written.
ghost use Rattle.std.specs.Prelude.{◌≡◌, ◌*◌, ◌<◌, length, IfOk, vec_len};
ghost use Rattle.std.specs.Thread.{IsSync};

use crate::disk_tests::counted;
use btr_disk::{BLOCK, BlockSink, BlockSource, Blocks, HeldBlocks, write_by_threads};
use std::alloc::{AllocError, Global};
use std::marker::Sync;
use std::sync::atomic::{AtomicU32, Ordering};
use std::test::Fail;
use std::thread::{Threads, yield_now};

/// A source of blocks in memory, which at most `threads` threads have written.
#[derive(Drop)]
struct Shared<'a, R> {
    rt: &'a R,
    held: HeldBlocks<'a>,
    threads: usize,
}

impl<R> Blocks for Shared<'_, R> {
    ghost use Rattle.btr_disk.specs.contracts.held.HeldBlocksBlocks.TheImpl.{ghosts};

    ghost bytes = { λ shared. ghosts.bytes shared.held };

    fn blocks(&self) -> usize {
        self.held.blocks()
    }

    fn fill(&self, first: usize, to: &mut [u8]) {
        self.held.fill(first, to);
    }
}

impl<R: Threads + Sync> BlockSource for Shared<'_, R> {
    ghost can_work = { IsSync R.row };

    fn write_to(&self, sink: &(dyn BlockSink + Sync)) -> bool {
        write_by_threads(self.rt, &self.held, self.threads, sink)
    }
}

/// A sink that counts. Its prefix, of `prefix` bytes, waits until a block is put, and the put of the block `failing` fails.
#[derive(Drop)]
struct Counting {
    wanted: Vec<u8>,
    /// How often each block was put with the bytes that are wanted.
    blocks: Vec<AtomicU32>,
    /// How often the prefix was put, and how often a block was put while it waited.
    prefixes: AtomicU32,
    meetings: AtomicU32,
    /// How many times blocks were put.
    puts: AtomicU32,
    prefix: usize,
    failing: usize,
    ghost each: { vec_len wanted ≡ 4096 * vec_len blocks },
}

impl BlockSink for Counting {
    ghost use Rattle.std.specs.Prelude.{⊤, ◌<◌, vec_len};

    ghost room = { λ counting. vec_len counting.blocks };

    ghost prefix_size = { λ counting. counting.prefix };

    ghost has_prefix = { λ _. ⊤ };

    ghost has_block = { λ _ _ _. ⊤ };

    ghost has_failed = { λ counting. counting.failing < vec_len counting.blocks };

    fn prefix_len(&self) -> usize {
        self.prefix
    }

    fn put_prefix(&self) -> bool {
        self.prefixes.fetch_add(1, Ordering::SeqCst);
        if is_raised(&self.puts) {
            self.meetings.fetch_add(1, Ordering::SeqCst);
        }
        true
    }

    fn put(&self, first: usize, blocks: &[u8]) -> bool {
        self.puts.fetch_add(1, Ordering::SeqCst);
        let count = blocks.len() / BLOCK;
        for i in 0..count {
            let at = (first + i) * BLOCK;
            if blocks[i * BLOCK..(i + 1) * BLOCK] == self.wanted[at..at + BLOCK] {
                self.blocks[first + i].fetch_add(1, Ordering::SeqCst);
            }
        }
        self.failing < first || first + count <= self.failing
    }
}

/// Waits for at most a million tries until a count is above 0. Returns whether it is.
fn is_raised(count: &AtomicU32) -> bool {
    for _ in 0..1_000_000u32 {
        if count.load(Ordering::SeqCst) > 0 {
            return true;
        }
        yield_now();
    }
    false
}

/// As many counts of nothing.
fn zeros(alloc: Global, count: usize) -> Result<Vec<AtomicU32>, AllocError>
    ensures { IfOk result (λ counts. vec_len counts ≡ count) }
{
    let mut counts = Vec::new(alloc);
    for _ in 0..count {
        counts.push(AtomicU32::new(0))?;
    }
    Ok(counts)
}

/// How blocks are written: at most how many threads write them, how many bytes the prefix has, and the put of which block fails.
#[derive(Clone, Copy)]
struct Case {
    threads: usize,
    prefix: usize,
    failing: usize,
}

/// Has these blocks written to the sink by at most this many threads, or by the calling thread alone if there are none.
fn is_written<R: Threads + Sync>(rt: &R, bytes: &[u8], threads: usize, sink: &Counting) -> bool
    requires { length bytes.now ≡ 4096 * vec_len sink.now.blocks }
{
    let held = HeldBlocks::new(bytes);
    if threads == 0 {
        return held.write_to(sink);
    }
    Shared { rt, held, threads }.write_to(sink)
}

/// What came of a write: what it returned, how often the prefix was put, how often beside a block, and how many blocks were put once.
type Came = (bool, u32, u32, usize);

/// Has this many blocks written.
fn came<R: Threads + Sync>(
    rt: &R,
    alloc: Global,
    blocks: usize,
    case: Case,
) -> Result<Came, AllocError>
    requires { blocks < 1000 }
{
    let bytes = counted(alloc, blocks)?;
    let sink = Counting {
        wanted: counted(alloc, blocks)?,
        blocks: zeros(alloc, blocks)?,
        prefixes: AtomicU32::new(0),
        meetings: AtomicU32::new(0),
        puts: AtomicU32::new(0),
        prefix: case.prefix,
        failing: case.failing,
    };
    let is_written = is_written(rt, &bytes, case.threads, &sink);
    let prefixes = sink.prefixes.load(Ordering::SeqCst);
    let meetings = sink.meetings.load(Ordering::SeqCst);
    Ok((is_written, prefixes, meetings, put_once(&sink.blocks)))
}

/// How many counts are 1.
fn put_once(counts: &[AtomicU32]) -> usize {
    counts
        .iter()
        .filter(|count| count.load(Ordering::SeqCst) == 1)
        .count()
}

/// The case of this many threads and a prefix of this many bytes, in which no put fails.
fn of_threads(threads: usize, prefix: usize) -> Case {
    Case {
        threads,
        prefix,
        failing: usize::MAX,
    }
}

/// Threads put each block once, beside the prefix, whatever their number is.
#[test]
fn threads_put_each_block_once(rt: HostRuntime) -> Result<(), Fail> {
    let alloc = rt.alloc();
    assert!(rt; came(&rt, alloc, 150, of_threads(4, 0))? == (true, 1, 1, 150));
    assert!(rt; came(&rt, alloc, 33, of_threads(2, 0))? == (true, 1, 1, 33));
    assert!(rt; came(&rt, alloc, 20, of_threads(200, 0))? == (true, 1, 1, 20));
    Ok(())
}

/// However long the prefix is, threads put each block once beside it: the first portion has few blocks, or none, or several have none.
#[test]
fn threads_share_the_work_of_a_prefix(rt: HostRuntime) -> Result<(), Fail> {
    let alloc = rt.alloc();
    for prefix in [100_000, 1_000_000, 100_000_000, usize::MAX] {
        assert!(rt; came(&rt, alloc, 150, of_threads(4, prefix))? == (true, 1, 1, 150));
    }
    Ok(())
}

/// One thread puts the prefix before the blocks.
#[test]
fn one_thread_puts_each_block_once(rt: HostRuntime) -> Result<(), Fail> {
    let alloc = rt.alloc();
    assert!(rt; came(&rt, alloc, 150, of_threads(0, 100_000))? == (true, 1, 0, 150));
    assert!(rt; came(&rt, alloc, 150, of_threads(1, 100_000))? == (true, 1, 0, 150));
    assert!(rt; came(&rt, alloc, 0, of_threads(4, 100_000))? == (true, 1, 0, 0));
    Ok(())
}

/// A write of which a put fails has failed, at the first block, at the last and between.
#[test]
fn a_put_that_fails_is_not_passed_over(rt: HostRuntime) -> Result<(), Fail> {
    let alloc = rt.alloc();
    for failing in [0, 77, 149] {
        let case = Case {
            threads: 4,
            prefix: 50_000,
            failing,
        };
        assert!(rt; !came(&rt, alloc, 150, case)?.0);
    }
    Ok(())
}

/// Whoever writes, one thread alone or at most one, two or four, has written exactly if no put failed.
#[test]
fn all_is_written_exactly_if_no_put_fails(rt: HostRuntime) -> Result<(), Fail> {
    let alloc = rt.alloc();
    for (threads, failing) in [
        (0, 69),
        (1, 0),
        (2, 34),
        (4, 35),
        (0, 70),
        (1, 70),
        (2, 70),
        (4, 70),
    ] {
        let case = Case {
            threads,
            prefix: 0,
            failing,
        };
        assert!(rt; came(&rt, alloc, 70, case)?.0 == (failing == 70));
    }
    Ok(())
}

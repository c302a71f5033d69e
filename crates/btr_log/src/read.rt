//! Reading an extent: the gate and the first block of the body in one call, the rest in another.
ghost use Rattle.std.specs.Prelude.{◌≡◌, ◌+◌, ◌*◌, ◌-◌, ◌<◌, ◌≤◌, ◌^◌, length, min, take, IfErr, IfOk, IfSome, IsNone, OnOk};
ghost use Rattle.btr_disk.specs.Bytes.{Has, IsBlockRange};
ghost use Rattle.btr_log.specs.Head.{Spells, IsNoHead};
ghost use Rattle.btr_disk.specs.Moments.{WroteNothing};
ghost use Rattle.btr_disk.specs.Causes.{KeepsCounts};
ghost use Rattle.btr_log.specs.Log.{log_device, log_blocks, FitsDevice, CallsOnce, KeepsLog, LogReads};
ghost use Rattle.btr_log.specs.Found.{HasFirstBlock, IsWhole, MatchesDevice, FindCause, ReadCause, ExtentCause, StartSays, IsDamagedStart};

use crate::{ExtentFault, Found, HEAD_BYTES, Head, Log};
use btr_disk::{BLOCK, Disk, is_open_gate};
use std::alloc::{AllocError, Global};

impl<D: Disk> Log<D> {
    /// Reads what is at this gate, which is below the log's blocks.
    ///
    /// `Closed` is returned only if the gate is closed, `Extent` only if it is open and the body follows,
    /// and `Damaged` only if it is open and the named block breaks the format. Nothing is written, and the
    /// log stays as it is.
    ///
    /// It makes at most two calls of the device.
    pub fn read_extent(&mut self, alloc: Global, gate: u64) -> Result<Found, ExtentFault>
        requires { gate < log_blocks self.old }
        ensures kept { KeepsLog self.old self.new }
        ensures reads { LogReads self.old self.new }
        ensures calls { D.calls (log_device self.new) ≤ D.calls (log_device self.old) + 2 }
        ensures whole { IfOk result (IsWhole (log_blocks self.old) gate) }
        ensures matches { D.is_observable → IfOk result (MatchesDevice (D.contents (log_device self.old)) gate) }
        ensures cause { IfErr result (ExtentCause self.old self.new gate) }
    {
        find_extent(alloc, &mut self.disk, self.blocks, gate)
    }
}

/// Reads what is at the gate, which is below `blocks`, in a log of this many blocks on the device. It is [`Log::read_extent`] without a
/// log: what it returns, and when, is the same. It writes nothing, and makes at most two calls of the device.
pub fn find_extent<D: Disk>(
    alloc: Global,
    disk: &mut D,
    blocks: u64,
    gate: u64,
) -> Result<Found, ExtentFault>
    requires gate { gate < blocks }
    requires device { FitsDevice blocks (D.size disk.old) }
    ensures counts { KeepsCounts D.size D.calls D.faults disk.old disk.new }
    ensures calls { D.calls disk.new ≤ D.calls disk.old + 2 }
    ensures unwritten { D.is_observable → WroteNothing D.calls D.contents D.images_now D.images_since disk.old disk.new }
    ensures whole { IfOk result (IsWhole blocks gate) }
    ensures matches { D.is_observable → IfOk result (MatchesDevice (D.contents disk.old) gate) }
    ensures cause { IfErr result (FindCause D.is_observable (D.contents disk.old) blocks gate (D.faults disk.old) (D.faults disk.new)) }
{
    let prefix = read_blocks(alloc, disk, gate, start_blocks(blocks, gate))?;
    let Some(head) = start_of(&prefix, blocks, gate)? else {
        return Ok(Found::Closed);
    };
    let body = read_body(alloc, disk, gate + 1, &prefix[BLOCK..], head.n)?;
    Ok(Found::Extent {
        head,
        body,
        next: gate + head.n + 1,
    })
}

/// The number of blocks that tell what is at the gate: its own and the next one, or its own alone if it is the last one.
pub(crate) fn start_blocks(blocks: u64, gate: u64) -> u64
    requires { gate < blocks }
    ensures { result ≡ min 2 (blocks - gate) }
{
    if gate + 1 == blocks { 1 } else { 2 }
}

/// What the gate and the block after it say, in a log of `blocks` blocks: `None` if the gate is closed, and else the head of its
/// extent, which leaves room for the next gate. The bytes are both blocks, or the gate's alone if it is the last one.
pub(crate) fn start_of(prefix: &[u8], blocks: u64, gate: u64) -> Result<Option<Head>, ExtentFault>
    requires gate { gate < blocks }
    requires size { length prefix.now ≡ 4096 * min 2 (blocks - gate) }
    ensures start { IfOk result (StartSays blocks gate prefix.now) }
    ensures damaged { IfErr result (IsDamagedStart blocks gate prefix.now) }
{
    if !is_open_gate(prefix) {
        return Ok(None);
    }
    if gate + 1 == blocks {
        return Err(ExtentFault::Damaged { block: gate });
    }
    let Some(head) = head_of(&prefix[BLOCK..]) else {
        return Err(ExtentFault::Damaged { block: gate + 1 });
    };
    if head.n >= blocks - 1 - gate {
        return Err(ExtentFault::Damaged { block: gate + 1 });
    }
    Ok(Some(head))
}

/// The head at the beginning of a body, or `None`.
fn head_of(body: &[u8]) -> Option<Head>
    requires { 64 ≤ length body.now }
    ensures found { IfSome result (Spells (take 64 body.now)) }
    ensures none { IsNone result → IsNoHead (take 64 body.now) }
{
    let mut bytes = [0; HEAD_BYTES];
    bytes.copy_from_slice(&body[..HEAD_BYTES]);
    Head::decode(&bytes)
}

/// Reads `count` blocks from `first` on, in one call.
fn read_blocks<D: Disk>(
    alloc: Global,
    disk: &mut D,
    first: u64,
    count: u64,
) -> Result<Vec<u8>, ExtentFault>
    requires run { IsBlockRange (D.size disk.old) first (4096 * count) }
    requires addressable { count ≤ 2 ^ 32 }
    ensures calls { CallsOnce D.size D.calls D.faults disk.old disk.new }
    ensures unwritten { D.is_observable → WroteNothing D.calls D.contents D.images_now D.images_since disk.old disk.new }
    ensures length { IfOk result (λ bytes. length bytes.items ≡ 4096 * count) }
    ensures stored { D.is_observable → IfOk result (λ bytes. Has (D.contents disk.old) (4096 * first) bytes.items) }
    ensures cause { IfErr result (ReadCause (D.faults disk.old) (D.faults disk.new)) }
{
    let mut bytes = zeroed(alloc, count)?;
    disk.read(first, &mut bytes)?;
    Ok(bytes)
}

/// A list of `count` blocks of zeros.
pub(crate) fn zeroed(alloc: Global, count: u64) -> Result<Vec<u8>, AllocError>
    requires { count ≤ 2 ^ 32 }
    ensures { IfOk result (λ bytes. length bytes.items ≡ 4096 * count) }
{
    vec![in alloc; 0; BLOCK * count as usize]
}

/// The body of `n` blocks from `first` on. Its first block is `prefix`; the others are read in one call.
fn read_body<D: Disk>(
    alloc: Global,
    disk: &mut D,
    first: u64,
    prefix: &[u8],
    n: u64,
) -> Result<Vec<u8>, ExtentFault>
    requires prefix { length prefix.now ≡ 4096 }
    requires some { 1 ≤ n }
    requires device { FitsDevice (first + n) (D.size disk.old) }
    ensures calls { CallsOnce D.size D.calls D.faults disk.old disk.new }
    ensures unwritten { D.is_observable → WroteNothing D.calls D.contents D.images_now D.images_since disk.old disk.new }
    ensures body { IfOk result (λ body. HasFirstBlock n prefix.now body.items) }
    ensures stored { D.is_observable → Has (D.contents disk.old) (4096 * first) prefix.now
        → IfOk result (λ body. Has (D.contents disk.old) (4096 * first) body.items) }
    ensures cause { IfErr result (ReadCause (D.faults disk.old) (D.faults disk.new)) }
{
    let mut body = with_first_block(alloc, prefix, n)?;
    read_rest(disk, first, &mut body)?;
    Ok(body)
}

/// A body of `n` blocks whose first block is `prefix`; the others are zeros.
fn with_first_block(alloc: Global, prefix: &[u8], n: u64) -> Result<Vec<u8>, AllocError>
    requires prefix { length prefix.now ≡ 4096 }
    requires some { 1 ≤ n }
    requires addressable { n ≤ 2 ^ 32 }
    ensures { IfOk result (λ body. HasFirstBlock n prefix.now body.items) }
{
    let mut body = zeroed(alloc, n)?;
    copy_to_prefix(&mut body, prefix);
    Ok(body)
}

/// Writes `prefix` at the beginning of `body`.
pub(crate) fn copy_to_prefix(body: &mut [u8], prefix: &[u8])
    requires { length prefix.now ≤ length body.old }
    ensures { take (length prefix.now) body.new ≡ prefix.now }
{
    body[..prefix.len()].copy_from_slice(prefix);
}

/// Reads the blocks of a body after its first one, if there are any.
fn read_rest<D: Disk>(disk: &mut D, first: u64, body: &mut [u8]) -> Result<(), ExtentFault>
    requires some { 4096 ≤ length body.old }
    requires run { IsBlockRange (D.size disk.old) first (length body.old) }
    requires addressable { first < 2 ^ 32 }
    ensures calls { CallsOnce D.size D.calls D.faults disk.old disk.new }
    ensures unwritten { D.is_observable → WroteNothing D.calls D.contents D.images_now D.images_since disk.old disk.new }
    ensures prefix { take 4096 body.new ≡ take 4096 body.old }
    ensures stored { D.is_observable → Has (D.contents disk.old) (4096 * first) (take 4096 body.old)
        → OnOk result (Has (D.contents disk.old) (4096 * first) body.new) }
    ensures cause { IfErr result (ReadCause (D.faults disk.old) (D.faults disk.new)) }
{
    if body.len() == BLOCK {
        return Ok(());
    }
    disk.read(first + 1, &mut body[BLOCK..])?;
    Ok(())
}

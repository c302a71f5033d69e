//! The command `hear`, which puts the entries of frames into a store.
ghost use Rattle.std.specs.Prelude.{◌≡◌, ◌+◌, ◌<◌, ◌^◌, true, false, IfOk, IfErr};
ghost use Rattle.btr_io.specs.Bytes.{Gives};
ghost use Rattle.btr_engine.specs.Engine.{is_stopped, is_home};
ghost use Rattle.btr_open.specs.Opening.{IsOpenedEngine};
ghost use Rattle.btr_store.specs.declared.status.Status.TheVariants.{Full as StatusFull, Refused as StatusRefused};
ghost use Rattle.btr_top.specs.declared.command.TheConstants.{MAX_INPUT};
ghost use Rattle.btr_top.specs.declared.ending.Ending.TheVariants.{OutOfMemory, Replied};
ghost use Rattle.btr_top.specs.Ending.{sealed_line};
ghost use Rattle.btr_top.specs.Hear.{HearEnds, HearingCause, FramesCause, full_line, count_frame, heard_line, heard_status};
ghost use Rattle.btr_top.specs.Hear.{HeardEach, EndsHearing};

use crate::command::{CommandResult, open_refusal, read_input};
use crate::ending::{Ending, line, sealed_text, two_numbers_text};
use crate::remains::RunRemains;
use btr_disk::Disk;
use btr_engine::{Engine, StepFault};
use btr_follow::{Follower, Frame, Frames, Heard, read_frames};
use btr_io::Source;
use btr_open::open_store;
use btr_store::{Status, Transcript};
use itoa::Buffer;
use std::alloc::{AllocError, Global};

/// The numbers of frames, by what was done with them.
#[derive(Clone, Copy)]
pub(crate) struct FrameCounts {
    /// The entry was taken.
    pub(crate) taken: u64,

    /// The store had it, as far as the number says.
    pub(crate) stale: u64,

    /// An entry before it was missing.
    pub(crate) early: u64,

    /// The bytes spelled no entry, or one that is not allowed.
    pub(crate) bad: u64,
}

/// `hear`: reads the source to its end, opens the store, and takes the entries of the frames in their order. It does not call the device
/// before all frames are read. Each entry that is taken is durable before the next frame is looked at.
///
/// It costs an opening, and for each frame what [`Follower::hear`] costs.
pub(crate) fn run_hear<S: Source, D: Disk>(
    alloc: Global,
    source: &mut S,
    disk: D,
) -> CommandResult<D>
    ensures size { D.size result.disk ≡ D.size disk }
    ensures input { S.is_observable → Gives (MAX_INPUT + 1) (S.left source.old) (S.left source.new) }
    ensures cause { HearEnds ⟦<S as Source>⟧ ⟦<D as Disk>⟧ source.old source.new disk result.disk result.ending }
{
    match read_input(alloc, source) {
        Ok(input) => hear_input(alloc, &input, disk),
        Err(ending) => CommandResult {
            ending,
            disk,
            remains: RunRemains::Nothing,
        },
    }
}

/// Takes the entries of the frames of an input into the store of a device.
fn hear_input<D: Disk>(alloc: Global, input: &[u8], disk: D) -> CommandResult<D>
    ensures size { D.size result.disk ≡ D.size disk }
    ensures cause { HearingCause ⟦<D as Disk>⟧ input.now disk result.disk result.ending }
{
    match read_frames(alloc, input) {
        Ok(frames) => hear_frames(alloc, &frames, disk),
        Err(_) => CommandResult {
            ending: Ending::OutOfMemory,
            disk,
            remains: RunRemains::Nothing,
        },
    }
}

/// Takes the entries of frames into the store of a device.
fn hear_frames<D: Disk>(alloc: Global, frames: &Frames, disk: D) -> CommandResult<D>
    ensures size { D.size result.disk ≡ D.size disk }
    ensures cause { FramesCause ⟦<D as Disk>⟧ frames.now disk result.disk result.ending }
{
    match open_store(alloc, disk) {
        Ok(engine) => hear_opened(alloc, frames, engine),
        Err(fault) => open_refusal(fault),
    }
}

/// Takes the entries of frames into a store that was opened.
fn hear_opened<D: Disk>(alloc: Global, frames: &Frames, engine: Engine<D>) -> CommandResult<D>
    requires runs { is_stopped engine ≡ false }
    requires home { is_home engine ≡ true }
    ensures size { (old : D) → IsOpenedEngine ⟦<D as Disk>⟧ old engine → D.size result.disk ≡ D.size old }
    ensures cause { (old : D) → IsOpenedEngine ⟦<D as Disk>⟧ old engine
        → FramesCause ⟦<D as Disk>⟧ frames.now old result.disk result.ending }
{
    let mut follower = Follower::start(engine);
    let heard = hear_all(alloc, frames.frames.as_slice(), &mut follower);
    let ending = ending_of(alloc, heard, frames.rest);
    let (disk, remains) = follower.promote().into_parts();
    CommandResult {
        ending,
        disk,
        remains: RunRemains::Store(remains),
    }
}

/// Has a follower hear all frames in order, and counts its answers. The first fault ends it.
fn hear_all<D: Disk>(
    alloc: Global,
    frames: &[Frame],
    follower: &mut Follower<D>,
) -> Result<FrameCounts, StepFault>
    ensures { HeardEach frames.now follower.old follower.new result }
{
    let mut counts = FrameCounts {
        taken: 0,
        stale: 0,
        early: 0,
        bad: 0,
    };
    for frame in frames {
        counts = counted(counts, follower.hear(alloc, frame)?);
    }
    Ok(counts)
}

/// Returns the numbers with one frame more, which was answered so.
fn counted(counts: FrameCounts, answer: Heard) -> FrameCounts
    requires { counts.taken + counts.stale + counts.early + counts.bad < 2 ^ 63 }
    ensures { result ≡ count_frame counts answer }
{
    let mut counts = counts;
    match answer {
        Heard::Taken(_) => counts.taken += 1,
        Heard::Stale { .. } => counts.stale += 1,
        Heard::Early { .. } => counts.early += 1,
        Heard::Garbled | Heard::Foreign => counts.bad += 1,
    }
    counts
}

/// Returns how a `hear` ends whose frames were heard with this result, with so many bytes after the last frame.
fn ending_of(alloc: Global, heard: Result<FrameCounts, StepFault>, rest: u64) -> Ending
    ensures { EndsHearing heard rest result }
{
    match heard {
        Ok(counts) => ending_of_said(heard_transcript(alloc, counts, rest)),
        Err(StepFault::DeviceFull { need, left }) => {
            ending_of_said(full_transcript(alloc, need, left))
        }
        Err(StepFault::Sealed) => ending_of_said(sealed_transcript(alloc)),
        Err(StepFault::DeviceFault) => Ending::NoDevice,
        // the engine ran, and a follower tests each entry first
        Err(StepFault::Want | StepFault::Stopped { .. } | StepFault::Rejected(_)) => {
            Ending::OutOfMemory
        }
    }
}

/// Returns how a `hear` ends that says this. An `Err` is that there is no memory for it.
fn ending_of_said(said: Result<Transcript, AllocError>) -> Ending
    ensures replied { IfOk said (λ t. result ≡ Replied t) }
    ensures unsaid { IfErr said (λ error. result ≡ OutOfMemory) }
{
    match said {
        Ok(transcript) => Ending::Replied(transcript),
        Err(_) => Ending::OutOfMemory,
    }
}

/// Returns the line of these numbers, with its status.
fn heard_transcript(alloc: Global, counts: FrameCounts, rest: u64) -> Result<Transcript, AllocError>
    ensures text { IfOk result (λ t. t.text.items ≡ heard_line counts rest) }
    ensures status { IfOk result (λ t. t.status ≡ heard_status counts rest) }
{
    let text = heard_text(alloc, counts, rest)?;
    let status = heard_status(counts, rest);
    Ok(Transcript { status, text })
}

/// Returns the status that the line of these numbers asks for.
fn heard_status(counts: FrameCounts, rest: u64) -> Status
    ensures { result ≡ heard_status counts rest }
{
    if counts.early == 0 && counts.bad == 0 && rest == 0 {
        Status::Done
    } else {
        Status::Refused
    }
}

/// Returns the line of these numbers.
fn heard_text(alloc: Global, counts: FrameCounts, rest: u64) -> Result<Vec<u8>, AllocError>
    ensures { IfOk result (λ t. t.items ≡ heard_line counts rest) }
{
    let mut taken = Buffer::new();
    let mut stale = Buffer::new();
    let mut early = Buffer::new();
    let mut bad = Buffer::new();
    let mut left = Buffer::new();
    line(
        alloc,
        b"heard",
        &[
            taken.format(counts.taken).as_bytes(),
            b"stale",
            stale.format(counts.stale).as_bytes(),
            b"early",
            early.format(counts.early).as_bytes(),
            b"bad",
            bad.format(counts.bad).as_bytes(),
            b"rest",
            left.format(rest).as_bytes(),
        ],
    )
}

/// Returns the line of a device without room, with its status.
fn full_transcript(alloc: Global, need: u64, left: u64) -> Result<Transcript, AllocError>
    ensures text { IfOk result (λ t. t.text.items ≡ full_line need left) }
    ensures status { IfOk result (λ t. t.status ≡ StatusFull) }
{
    let text = two_numbers_text(alloc, b"full", need, left)?;
    Ok(Transcript {
        status: Status::Full,
        text,
    })
}

/// Returns the line of a sealed store, with its status.
fn sealed_transcript(alloc: Global) -> Result<Transcript, AllocError>
    ensures text { IfOk result (λ t. t.text.items ≡ sealed_line) }
    ensures status { IfOk result (λ t. t.status ≡ StatusRefused) }
{
    let text = sealed_text(alloc)?;
    Ok(Transcript {
        status: Status::Refused,
        text,
    })
}

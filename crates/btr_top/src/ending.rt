//! How a run ends: its status, and the text that it writes.
ghost use Rattle.std.specs.Prelude.{◌≡◌, ◌++◌, [], ◌∷◌, map, codes, decimal, IfOk, OnErr, OnOk};
ghost use Rattle.btr_io.specs.Faults.{Rose};
ghost use Rattle.btr_text.specs.Text.{line_text};
ghost use Rattle.btr_top.specs.Ending.{NeedsLine, Shows, WrotePrefix, Writes, sealed_line, status_of, status_of_cut, text_of};

use crate::checkpoint::CheckpointKind;
use crate::command::MAX_INPUT;
use btr_follow::ShipFault;
use btr_io::{Failed, Sink, write_all};
use btr_store::Transcript;
use btr_text::append_line;
use itoa::Buffer;
use std::alloc::{AllocError, Global};

/// How a run ends.
#[derive(Drop)]
pub enum Ending {
    /// The words are no command.
    Usage,

    /// The source failed.
    NoSource,

    /// The source gave more than may be read.
    TooLong,

    /// There was no memory: for the words, for the input or what it says, for an opening, for a hall, for the lines of a script and their
    /// replies, for the snapshot of `ask`, for a checkpoint, for a check, or for a text.
    OutOfMemory,

    /// A call of the device failed.
    NoDevice,

    /// The device has no store.
    NoStore,

    /// This block of the device breaks the format of a store; for `check` it is the first wrong block.
    Damaged { block: u64 },

    /// The device has a store already.
    Occupied,

    /// The device has fewer blocks than were asked for.
    TooSmall { asked: u64, blocks: u64 },

    /// An empty store of this many blocks was made.
    Formatted { blocks: u64 },

    /// A checkpoint of this kind was added to the log. It has the streams of this many entries, which are all.
    Checkpointed { kind: CheckpointKind, entries: u64 },

    /// The store is sealed, so it takes no checkpoint.
    Sealed,

    /// The store is not sealed, so it is not answered from without its nodes in memory.
    Unsealed,

    /// The device holds a legal history of this many entries.
    Stands { entries: u64 },

    /// A checkpoint needs more blocks than are left.
    Full { need: u64, left: u64 },

    /// All frames were written, as many as this.
    Shipped { frames: u64 },

    /// The frames were written in part, and then this fault came. No line follows.
    CutShort { fault: ShipFault },

    /// The sink failed in the reply to a line. No line follows.
    NoSink,

    /// The command did its work, and says this of it: a reply to each line of the input, lines of its own, or both.
    Replied(Transcript),
}

/// Writes the text of an ending, and returns the status of the run. It is 4 if the sink fails, 9 if there is no memory
/// for the line (which is then that of [`Ending::OutOfMemory`]), and else that of the ending. The line of a device that failed
/// takes no memory. The replies to a script are handed to the sink without a copy. After frames, and after a reply that the sink did not
/// take, nothing is written, but the sink passes on what it has.
pub(crate) fn show<K: Sink>(alloc: Global, sink: &mut K, ending: &Ending) -> u8
    ensures { Shows ⟦<K as Sink>⟧ ending.now sink.old sink.new result }
{
    match ending {
        Ending::Replied(Transcript { status, text }) => write_text(sink, text, status.code()),
        Ending::NoDevice => write_text(sink, b"no device\n", 5),
        Ending::Shipped { .. } => write_text(sink, b"", 0),
        Ending::CutShort { fault } => write_text(sink, b"", status_of_cut(*fault)),
        Ending::NoSink => write_text(sink, b"", 4),
        _ => show_line(alloc, sink, ending),
    }
}

/// Writes the line of an ending.
fn show_line<K: Sink>(alloc: Global, sink: &mut K, ending: &Ending) -> u8
    requires { NeedsLine ending.now }
    ensures { Shows ⟦<K as Sink>⟧ ending.now sink.old sink.new result }
{
    match text_of(alloc, ending) {
        Ok(text) => write_text(sink, &text, status_of(ending)),
        Err(_) => write_text(sink, b"no memory\n", 9),
    }
}

/// Writes all of a text, and returns the given status, or 4 if the sink fails.
fn write_text<K: Sink>(sink: &mut K, text: &[u8], status: u8) -> u8
    ensures { Writes ⟦<K as Sink>⟧ text.now status sink.old sink.new result }
{
    match write_and_flush(sink, text) {
        Ok(()) => status,
        Err(Failed) => 4,
    }
}

/// Writes all of a text, and has the sink pass it on.
fn write_and_flush<K: Sink>(sink: &mut K, text: &[u8]) -> Result<(), Failed>
    ensures written { K.is_observable → OnOk result (K.written sink.new ≡ K.written sink.old ++ text.now) }
    ensures passed { K.is_observable → OnOk result (K.passed_on sink.new ≡ K.written sink.new) }
    ensures part { K.is_observable → OnErr result (WrotePrefix ⟦<K as Sink>⟧ text.now sink.old sink.new) }
    ensures no_fault { OnOk result (K.faults sink.new ≡ K.faults sink.old) }
    ensures rose { OnErr result (Rose (K.faults sink.old) (K.faults sink.new)) }
{
    write_all(sink, text)?;
    sink.flush()
}

/// Returns the status of a run whose frames were cut short by this fault.
fn status_of_cut(fault: ShipFault) -> u8
    ensures { result ≡ status_of_cut fault }
{
    match fault {
        ShipFault::NotAStore => 6,
        ShipFault::Damaged { .. } => 7,
        ShipFault::Fault => 5,
        ShipFault::SinkFault => 4,
        ShipFault::Want => 9,
    }
}

/// Returns the status of an ending whose text is written.
fn status_of(ending: &Ending) -> u8
    ensures { result ≡ status_of ending.now }
{
    match ending {
        Ending::Usage => 2,
        Ending::NoSource => 3,
        Ending::TooLong => 10,
        Ending::OutOfMemory => 9,
        Ending::NoDevice => 5,
        Ending::NoStore => 6,
        Ending::Damaged { .. } => 7,
        Ending::Occupied => 6,
        Ending::TooSmall { .. } => 8,
        Ending::Formatted { .. } => 0,
        Ending::Checkpointed { .. } => 0,
        Ending::Sealed => 1,
        Ending::Unsealed => 1,
        Ending::Stands { .. } => 0,
        Ending::Full { .. } => 8,
        Ending::Shipped { .. } => 0,
        Ending::CutShort { fault } => status_of_cut(*fault),
        Ending::NoSink => 4,
        Ending::Replied(transcript) => transcript.status.code(),
    }
}

/// Returns the line of an ending. An ending with replies has its text already, and so has that of a device which failed. An `Err`
/// means out of memory.
fn text_of(alloc: Global, ending: &Ending) -> Result<Vec<u8>, AllocError>
    requires { NeedsLine ending.now }
    ensures { IfOk result (λ t. t.items ≡ text_of ending.now) }
{
    match ending {
        Ending::Usage => line(alloc, b"no", &[b"usage"]),
        Ending::NoSource => line(alloc, b"no", &[b"source"]),
        Ending::TooLong => numbered_text(alloc, b"long", MAX_INPUT),
        Ending::OutOfMemory => line(alloc, b"no", &[b"memory"]),
        Ending::NoStore => line(alloc, b"no", &[b"store"]),
        Ending::Damaged { block } => numbered_text(alloc, b"damaged", *block),
        Ending::Occupied => line(alloc, b"no", &[b"occupied"]),
        Ending::TooSmall { asked, blocks } => two_numbers_text(alloc, b"small", *asked, *blocks),
        Ending::Formatted { blocks } => done_text(alloc, b"formatted", *blocks),
        Ending::Checkpointed {
            kind: CheckpointKind::Plain,
            entries,
        } => done_text(alloc, b"checkpoint", *entries),
        Ending::Checkpointed {
            kind: CheckpointKind::Seal,
            entries,
        } => done_text(alloc, b"sealed", *entries),
        Ending::Sealed => sealed_text(alloc),
        Ending::Unsealed => line(alloc, b"no", &[b"unsealed"]),
        Ending::Stands { entries } => done_text(alloc, b"stands", *entries),
        Ending::Full { need, left } => two_numbers_text(alloc, b"full", *need, *left),
        Ending::NoDevice | Ending::Shipped { .. } | Ending::CutShort { .. } => Ok(Vec::new(alloc)),
        Ending::NoSink | Ending::Replied(_) => Ok(Vec::new(alloc)),
    }
}

/// Returns the line of a sealed store.
pub(crate) fn sealed_text(alloc: Global) -> Result<Vec<u8>, AllocError>
    ensures { IfOk result (λ t. t.items ≡ sealed_line) }
{
    line(alloc, b"no", &[b"sealed"])
}

/// Returns the line of a refusal with one number.
fn numbered_text(alloc: Global, word: &[u8], number: u64) -> Result<Vec<u8>, AllocError>
    ensures { IfOk result (λ t. t.items ≡ line_text (codes "no" ∷ word.now ∷ decimal number ∷ [])) }
{
    let mut text = Buffer::new();
    line(alloc, b"no", &[word, text.format(number).as_bytes()])
}

/// Returns the line of a refusal with two numbers, which are in blocks: those that were wanted, and those that there are.
pub(crate) fn two_numbers_text(
    alloc: Global,
    word: &[u8],
    wanted: u64,
    found: u64,
) -> Result<Vec<u8>, AllocError>
    ensures { IfOk result (λ t. t.items ≡ line_text (codes "no" ∷ word.now ∷ decimal wanted ∷ decimal found ∷ [])) }
{
    let mut first = Buffer::new();
    let mut second = Buffer::new();
    line(
        alloc,
        b"no",
        &[
            word,
            first.format(wanted).as_bytes(),
            second.format(found).as_bytes(),
        ],
    )
}

/// Returns the line that work was done, with its word and one number.
fn done_text(alloc: Global, word: &[u8], number: u64) -> Result<Vec<u8>, AllocError>
    ensures { IfOk result (λ t. t.items ≡ line_text (word.now ∷ decimal number ∷ [])) }
{
    let mut text = Buffer::new();
    line(alloc, word, &[text.format(number).as_bytes()])
}

/// Returns a line of these words.
pub(crate) fn line(alloc: Global, first: &[u8], rest: &[&[u8]]) -> Result<Vec<u8>, AllocError>
    ensures { IfOk result (λ t. t.items ≡ line_text (first.now ∷ map (λ w. w.now) rest.now)) }
{
    let mut out = Vec::new(alloc);
    append_line(&mut out, first, rest)?;
    Ok(out)
}

//! The command `ask`, which answers questions from the store of a device.
ghost use Rattle.std.specs.Prelude.{◌≡◌, ◌⊎◌, ◌+◌, true, List, IfOk, OnOk};
ghost use Rattle.btr_io.specs.Bytes.{Gives};
ghost use Rattle.btr_hist.specs.declared.entry.Entry.{Entry as EntrySpec};
ghost use Rattle.btr_text.specs.Input.{questions_of};
ghost use Rattle.btr_text.specs.declared.reply.LineReply.{LineReply as ReplySpec};
ghost use Rattle.btr_engine.specs.Engine.{is_home, IsEngineOf};
ghost use Rattle.btr_streams.specs.Snapshot.{IsSnapshotOf};
ghost use Rattle.btr_open.specs.Opening.{IsOpenedEngine};
ghost use Rattle.btr_top.specs.declared.command.TheConstants.{MAX_INPUT};
ghost use Rattle.btr_live.specs.Meaning.{question};
ghost use Rattle.btr_top.specs.Command.{IsKept};
ghost use Rattle.btr_live.specs.Serving.{IsAnswerOrNoMemory};
ghost use Rattle.btr_top.specs.Ask.{AddsAnswer, AskCause, QuestionsCause, HasAnswered, RepliesEach};
ghost use Rattle.btr_store.specs.Replies.{AddsReply};
ghost use Rattle.btr_store.specs.declared.status.Status.TheVariants.{DeviceFault};
ghost use Rattle.btr_top.specs.declared.ending.Ending.TheVariants.{OutOfMemory, Replied};

use crate::command::{CommandResult, open_refusal, read_input};
use crate::ending::Ending;
use crate::remains::RunRemains;
use btr_disk::Disk;
use btr_engine::{Engine, Snapshot};
use btr_io::Source;
use btr_live::answer_question;
use btr_open::open_store;
use btr_store::{Status, Transcript, add_reply, no_replies};
use btr_text::{Line, ScriptLine, read_questions};
use std::alloc::{AllocError, Global};

/// `ask`: reads the source to its end, opens the store, and answers the lines that were read, of which only questions
/// are answered. It does not call the device before all lines are read, nor after the store is open.
pub(crate) fn run_ask<S: Source, D: Disk>(
    alloc: Global,
    source: &mut S,
    disk: D,
) -> CommandResult<D>
    ensures size { D.size result.disk ≡ D.size disk }
    ensures input { S.is_observable → Gives (MAX_INPUT + 1) (S.left source.old) (S.left source.new) }
    ensures cause { AskCause ⟦<S as Source>⟧ ⟦<D as Disk>⟧ source.old source.new disk result.disk result.ending }
    ensures kept { IsKept ⟦<D as Disk>⟧ disk result.disk }
{
    match read_input(alloc, source) {
        Ok(input) => ask_input(alloc, &input, disk),
        Err(ending) => CommandResult {
            ending,
            disk,
            remains: RunRemains::Nothing,
        },
    }
}

/// Reads the lines of an input, in which no word names a lane, and answers them from the store of a device.
fn ask_input<D: Disk>(alloc: Global, input: &[u8], disk: D) -> CommandResult<D>
    ensures size { D.size result.disk ≡ D.size disk }
    ensures cause { QuestionsCause ⟦<D as Disk>⟧ (questions_of input.now) disk result.disk result.ending }
    ensures kept { IsKept ⟦<D as Disk>⟧ disk result.disk }
{
    match read_questions(alloc, input) {
        Ok(script) => ask_lines(alloc, script.into_lines(), disk),
        Err(_) => CommandResult {
            ending: Ending::OutOfMemory,
            disk,
            remains: RunRemains::Nothing,
        },
    }
}

/// Answers lines from the store of a device.
fn ask_lines<D: Disk>(alloc: Global, lines: Vec<ScriptLine>, disk: D) -> CommandResult<D>
    ensures size { D.size result.disk ≡ D.size disk }
    ensures cause { QuestionsCause ⟦<D as Disk>⟧ lines.items disk result.disk result.ending }
    ensures kept { IsKept ⟦<D as Disk>⟧ disk result.disk }
{
    match open_store(alloc, disk) {
        Ok(engine) => ask_opened(alloc, lines, engine),
        Err(fault) => open_refusal(fault),
    }
}

/// Answers lines from a store that was opened.
fn ask_opened<D: Disk>(alloc: Global, lines: Vec<ScriptLine>, engine: Engine<D>) -> CommandResult<D>
    requires home { is_home engine ≡ true }
    ensures size { (old : D) → IsOpenedEngine ⟦<D as Disk>⟧ old engine → D.size result.disk ≡ D.size old }
    ensures cause { (old : D) → IsOpenedEngine ⟦<D as Disk>⟧ old engine
        → QuestionsCause ⟦<D as Disk>⟧ lines.items old result.disk result.ending }
    ensures kept { (old : D) → IsOpenedEngine ⟦<D as Disk>⟧ old engine → IsKept ⟦<D as Disk>⟧ old result.disk }
{
    let answered = answer_all(alloc, &engine, lines);
    let (disk, remains) = engine.into_parts();
    let ending = match answered {
        Ok(transcript) => ending_of_replies(transcript),
        Err(_) => Ending::OutOfMemory,
    };
    CommandResult {
        ending,
        disk,
        remains: RunRemains::Store(remains),
    }
}

/// Returns how `ask` ends with these replies. No reply to a question says that the device failed. If the status said so, the command
/// would end as if memory ran out: so the status is right on each device.
fn ending_of_replies(transcript: Transcript) -> Ending
    ensures { ((result ≡ Replied transcript) × (transcript.status ≡ DeviceFault → ⊥)) ⊎ (result ≡ OutOfMemory) }
{
    if transcript.status == Status::DeviceFault {
        Ending::OutOfMemory
    } else {
        Ending::Replied(transcript)
    }
}

/// Answers all lines from one snapshot of the store, and returns the replies. An `Err` is that there is no memory for the
/// snapshot, or for the text of a reply.
fn answer_all<D: Disk>(
    alloc: Global,
    engine: &Engine<D>,
    lines: Vec<ScriptLine>,
) -> Result<Transcript, AllocError>
    ensures answered { (h : List EntrySpec) → IsEngineOf h engine.now → IfOk result (HasAnswered h lines.items) }
    ensures replied { IfOk result (RepliesEach lines.items) }
{
    let snapshot = engine.admit()?;
    answer_questions(alloc, &snapshot, lines)
}

/// Answers all lines in order, and returns the replies. An `Err` is that there is no memory for the text of a reply.
#[tactic(auto, using(crate::proofs::AskedLines::none_answered, crate::proofs::AskedLines::none_replied))]
fn answer_questions(
    alloc: Global,
    snapshot: &Snapshot,
    lines: Vec<ScriptLine>,
) -> Result<Transcript, AllocError>
    ensures answered { (h : List EntrySpec) → IsSnapshotOf h snapshot.now → IfOk result (HasAnswered h lines.items) }
    ensures replied { IfOk result (RepliesEach lines.items) }
{
    let mut transcript = no_replies(alloc);
    for line in lines {
        ask_line(alloc, snapshot, line.line, &mut transcript)?;
    }
    Ok(transcript)
}

/// Answers a line, and adds the reply. An `Err` is that there is no memory for the reply's text.
fn ask_line(
    alloc: Global,
    snapshot: &Snapshot,
    line: Option<Line>,
    transcript: &mut Transcript,
) -> Result<(), AllocError>
    ensures adds { OnOk result ((reply : ReplySpec) × AddsReply reply transcript.old transcript.new) }
    ensures answers { (h : List EntrySpec) → IsSnapshotOf h snapshot.now
        → OnOk result (AddsAnswer h line transcript.old transcript.new) }
{
    let reply = answer_question(alloc, snapshot, line);
    add_reply(transcript, &reply)
}

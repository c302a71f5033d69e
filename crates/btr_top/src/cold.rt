//! The command `ask --cold`, which answers questions from the sealed store of a device, and holds no node of it in memory.
ghost use Rattle.std.specs.Prelude.{◌≡◌, ◌+◌, ◌≤◌, IfOk, OnOk, Some};
ghost use Rattle.btr_io.specs.Bytes.{Gives};
ghost use Rattle.btr_log.specs.Reads.{OnlyReads};
ghost use Rattle.btr_text.specs.Input.{questions_of};
ghost use Rattle.btr_text.specs.declared.script.Line.TheVariants.{Ask as AskSpec};
ghost use Rattle.btr_top.specs.declared.command.TheConstants.{MAX_INPUT};
ghost use Rattle.btr_top.specs.Cold.{AskColdCause, ColdCause, EndsShelf, HasRepliedCold, RepliesCold, AnswersShelf};
ghost use Rattle.btr_top.specs.Cold.{AddsCold, IsKeptCold, ending_of_fault, reason_of_fault};

use crate::command::{CommandResult, read_input};
use crate::ending::Ending;
use crate::remains::RunRemains;
use btr_disk::Disk;
use btr_hist::{Answer, Query, StreamQuery};
use btr_io::Source;
use btr_open::{SealedFault, Shelf, open_sealed};
use btr_shelf::DiskNodes;
use btr_store::{Transcript, add_reply, no_replies};
use btr_text::{Line, LineReply, Reason, ScriptLine, read_questions};
use btr_tree::{NodeFault, Nodes};
use std::alloc::{AllocError, Global};

/// `ask --cold`: reads the source to its end, opens the sealed store as a shelf, and answers the lines that were read, of which only
/// questions are answered. It does not call the device before all lines are read. It only reads the device.
///
/// An opening costs what [`btr_open::open_sealed`] costs, and a question what [`Shelf::answer`] costs.
pub(crate) fn run_ask_cold<S: Source, D: Disk>(
    alloc: Global,
    source: &mut S,
    disk: D,
) -> CommandResult<D>
    ensures size { D.size result.disk ≡ D.size disk }
    ensures input { S.is_observable → Gives (MAX_INPUT + 1) (S.left source.old) (S.left source.new) }
    ensures cause { AskColdCause ⟦<S as Source>⟧ ⟦<D as Disk>⟧ source.old source.new disk result.disk result.ending }
    ensures kept { IsKeptCold ⟦<D as Disk>⟧ disk result.disk }
{
    match read_input(alloc, source) {
        Ok(input) => ask_input_cold(alloc, &input, disk),
        Err(ending) => CommandResult {
            ending,
            disk,
            remains: RunRemains::Nothing,
        },
    }
}

/// Reads the lines of an input, in which no word names a lane, and answers them from the sealed store of a device.
fn ask_input_cold<D: Disk>(alloc: Global, input: &[u8], disk: D) -> CommandResult<D>
    ensures size { D.size result.disk ≡ D.size disk }
    ensures cause { ColdCause ⟦<D as Disk>⟧ (questions_of input.now) disk result.disk result.ending }
    ensures kept { IsKeptCold ⟦<D as Disk>⟧ disk result.disk }
{
    match read_questions(alloc, input) {
        Ok(script) => ask_lines_cold(alloc, script.into_lines(), disk),
        Err(_) => CommandResult {
            ending: Ending::OutOfMemory,
            disk,
            remains: RunRemains::Nothing,
        },
    }
}

/// Answers lines from the sealed store of a device.
fn ask_lines_cold<D: Disk>(alloc: Global, lines: Vec<ScriptLine>, disk: D) -> CommandResult<D>
    ensures size { D.size result.disk ≡ D.size disk }
    ensures cause { ColdCause ⟦<D as Disk>⟧ lines.items disk result.disk result.ending }
    ensures kept { IsKeptCold ⟦<D as Disk>⟧ disk result.disk }
{
    let mut disk = disk;
    match open_sealed(alloc, &mut disk) {
        Ok(shelf) => ask_shelf(alloc, lines, &shelf, disk),
        Err(fault) => CommandResult {
            ending: ending_of_fault(fault),
            disk,
            remains: RunRemains::Nothing,
        },
    }
}

/// Returns how the command ends if the device was not opened as a shelf.
fn ending_of_fault(fault: SealedFault) -> Ending
    ensures { result ≡ ending_of_fault fault }
{
    match fault {
        SealedFault::NotAStore => Ending::NoStore,
        SealedFault::Unsealed => Ending::Unsealed,
        SealedFault::Damaged { block } => Ending::Damaged { block },
        SealedFault::Fault => Ending::NoDevice,
        SealedFault::Want => Ending::OutOfMemory,
    }
}

/// Answers lines from a shelf, over the nodes of a device.
fn ask_shelf<D: Disk>(
    alloc: Global,
    lines: Vec<ScriptLine>,
    shelf: &Shelf,
    disk: D,
) -> CommandResult<D>
    ensures size { D.size result.disk ≡ D.size disk }
    ensures reads { ∥ OnlyReads ⟦<D as Disk>⟧ disk result.disk ∥₁ }
    ensures cause { EndsShelf ⟦<D as Disk>⟧ lines.items disk result.disk shelf.now result.ending }
{
    let mut nodes = DiskNodes::new(disk);
    let answered = reply_to_each(alloc, shelf, &mut nodes, lines);
    let disk = nodes.into_disk();
    let ending = match answered {
        Ok(transcript) => Ending::Replied(transcript),
        Err(_) => Ending::OutOfMemory,
    };
    CommandResult {
        ending,
        disk,
        remains: RunRemains::Nothing,
    }
}

/// Answers all lines in order, and returns the replies. An `Err` is that there is no memory for the text of a reply.
fn reply_to_each<N: Nodes>(
    alloc: Global,
    shelf: &Shelf,
    nodes: &mut N,
    lines: Vec<ScriptLine>,
) -> Result<Transcript, AllocError>
    ensures replied { IfOk result (HasRepliedCold (RepliesCold N.is_observable (λ o. N.IsPage (N.contents nodes.old)) shelf.now)
        (N.faults nodes.old) (N.faults nodes.new) lines.items) }
    ensures same { N.contents nodes.new ≡ N.contents nodes.old }
    ensures rises { N.faults nodes.old ≤ N.faults nodes.new }
{
    let mut transcript = no_replies(alloc);
    for line in lines {
        reply_line(alloc, shelf, nodes, line.line, &mut transcript)?;
    }
    Ok(transcript)
}

/// Answers a line, and adds the reply. An `Err` is that there is no memory for the reply's text.
fn reply_line<N: Nodes>(
    alloc: Global,
    shelf: &Shelf,
    nodes: &mut N,
    line: Option<Line>,
    transcript: &mut Transcript,
) -> Result<(), AllocError>
    ensures adds { OnOk result (AddsCold (RepliesCold N.is_observable (λ o. N.IsPage (N.contents nodes.old)) shelf.now) line
        (N.faults nodes.old) (N.faults nodes.new) transcript.old transcript.new) }
    ensures same { N.contents nodes.new ≡ N.contents nodes.old }
    ensures rises { N.faults nodes.old ≤ N.faults nodes.new }
{
    let reply = reply_to(alloc, shelf, nodes, line);
    add_reply(transcript, &reply)
}

/// Answers a line that is a question, from a shelf. Any other line fits no form here.
fn reply_to<N: Nodes>(alloc: Global, shelf: &Shelf, nodes: &mut N, line: Option<Line>) -> LineReply
    ensures replies { RepliesCold N.is_observable (λ o. N.IsPage (N.contents nodes.old)) shelf.now line
        (N.faults nodes.old) (N.faults nodes.new) result }
    ensures same { N.contents nodes.new ≡ N.contents nodes.old }
    ensures rises { N.faults nodes.old ≤ N.faults nodes.new }
{
    let Some(line) = line else {
        return LineReply::No(Reason::Line);
    };
    match line {
        Line::Ask { id, query } => answer_stream(alloc, shelf, nodes, id, query),
        Line::Streams => answer_query(alloc, shelf, nodes, &Query::Streams),
        Line::Create { .. } | Line::Insert { .. } | Line::Delete { .. } => {
            LineReply::No(Reason::Line)
        }
        Line::Feed { .. } | Line::Flush { .. } | Line::Discard { .. } => {
            LineReply::No(Reason::Line)
        }
        Line::Distiller { .. } | Line::Refresh { .. } | Line::Retire { .. } => {
            LineReply::No(Reason::Line)
        }
    }
}

/// Answers a question about the stream with this id from a shelf.
fn answer_stream<N: Nodes>(
    alloc: Global,
    shelf: &Shelf,
    nodes: &mut N,
    id: u128,
    query: StreamQuery,
) -> LineReply
    ensures replies { RepliesCold N.is_observable (λ o. N.IsPage (N.contents nodes.old)) shelf.now (Some (AskSpec id query))
        (N.faults nodes.old) (N.faults nodes.new) result }
    ensures same { N.contents nodes.new ≡ N.contents nodes.old }
    ensures rises { N.faults nodes.old ≤ N.faults nodes.new }
{
    match shelf.find(id) {
        None => LineReply::No(Reason::Stream),
        Some(stream) => answer_query(alloc, shelf, nodes, &query.of(stream)),
    }
}

/// Answers a question from a shelf.
fn answer_query<N: Nodes>(alloc: Global, shelf: &Shelf, nodes: &mut N, query: &Query) -> LineReply
    ensures replies { AnswersShelf N.is_observable (λ o. N.IsPage (N.contents nodes.old)) shelf.now query.now
        (N.faults nodes.old) (N.faults nodes.new) result }
    ensures same { N.contents nodes.new ≡ N.contents nodes.old }
    ensures rises { N.faults nodes.old ≤ N.faults nodes.new }
{
    match shelf.answer(nodes, alloc, query) {
        Ok(Answer::Found { version, rows }) => LineReply::Found { version, rows },
        Ok(Answer::Refused(refusal)) => LineReply::No(Reason::of_refusal(refusal)),
        Err(fault) => LineReply::No(reason_of_fault(fault)),
    }
}

/// Returns the reason that a reply gives if a node that its question needs was not fetched.
fn reason_of_fault(fault: NodeFault) -> Reason
    ensures { result ≡ reason_of_fault fault }
{
    match fault {
        NodeFault::Failed => Reason::Device,
        NodeFault::Damaged { block } => Reason::Damaged { block },
        NodeFault::Want => Reason::Memory,
    }
}

ghost use Rattle.std.specs.Prelude.{◌≡◌, ◌++◌, false, IfOk, OnOk, option_to_list};
ghost use Rattle.std.specs.List.{filter_map};
ghost use Rattle.std.specs.Str.Lines.{strip_carriage_return};
ghost use Rattle.btr_text.specs.Input.{HaveLanes, input_line, lines_of, questions_of, script_of};

use crate::form::read_form;
use crate::script::{Script, ScriptLine};
use crate::word::{LINE_FEED, next_word, read_lane};
use std::alloc::{AllocError, Global};

/// Reads the lines of an input that have a reply, in order. It takes time linear in the input, and memory for the lines
/// and their points. An `Err` means out of memory.
///
/// The input is cut at line feeds, and one carriage return at the end of a line is dropped. A line is words, with one
/// or more spaces between each two. A line that begins with `#`, or has no word, has no reply.
///
/// A first word `@0` to `@7` names the lane of the line, and the form begins after it. Lane 0 is also the lane of a line
/// without such a word. Any other first word is the first word of the form, as `@8`, `@00` or `@`, which no form has.
///
/// The forms are those of [`Line`]. An id is the text of a UUID in any of its forms (RFC 9562). Times and values are
/// decimal digits within `i64`, with or without a minus in front. A version is digits within `u64`, or `latest`. The lead
/// of an output is digits within `u64`, and its grain is digits, at most 255. A line that fits no form, as the name of a
/// lane alone, is kept in its lane without one, even if it is not UTF-8.
///
/// [`Line`]: crate::Line
pub fn read_script(alloc: Global, bytes: &[u8]) -> Result<Script, AllocError>
    ensures script { IfOk result (λ s. s ≡ script_of bytes.now) }
    ensures lanes { IfOk result (λ s. HaveLanes s) }
{
    read_lines(alloc, bytes, true)
}

/// Reads the lines of an input of questions that have a reply, in order. It is [`read_script`] where no word names a lane: a line whose
/// first word is `@0` to `@7` fits no form. All lines are in lane 0. An `Err` means out of memory.
pub fn read_questions(alloc: Global, bytes: &[u8]) -> Result<Script, AllocError>
    ensures script { IfOk result (λ s. s ≡ questions_of bytes.now) }
    ensures lanes { IfOk result (λ s. HaveLanes s) }
{
    read_lines(alloc, bytes, false)
}

/// Reads what one line of an input of questions says, which has no line feed. One carriage return at its end is dropped. Returns `None`
/// if the line has no reply. It takes time linear in the line, and memory for its points. An `Err` means out of memory.
pub fn read_question(alloc: Global, line: &[u8]) -> Result<Option<ScriptLine>, AllocError>
    ensures { IfOk result (λ l. l ≡ input_line false (strip_carriage_return line.now)) }
{
    read_line(alloc, without_carriage_return(line), false)
}

/// Reads the lines of an input that have a reply, in order.
fn read_lines(alloc: Global, bytes: &[u8], names_lanes: bool) -> Result<Script, AllocError>
    ensures script { IfOk result (λ s. s ≡ filter_map (input_line names_lanes) (lines_of bytes.now)) }
    ensures lanes { IfOk result (λ s. HaveLanes s) }
{
    let mut lines = Vec::new(alloc);
    for line in bytes.split(|b| *b == LINE_FEED) {
        let line = without_carriage_return(line);
        add_line(alloc, &mut lines, line, names_lanes)?;
    }
    Ok(Script::from_lines(lines))
}

/// Returns the line without one carriage return at its end.
fn without_carriage_return(line: &[u8]) -> &[u8]
    ensures { result.now ≡ strip_carriage_return line.now }
{
    match line.split_last() {
        Some((&b'\r', prefix)) => prefix,
        _ => line,
    }
}

/// Adds what a line says to `lines`, if the line has a reply.
fn add_line(
    alloc: Global,
    lines: &mut Vec<ScriptLine>,
    line: &[u8],
    names_lanes: bool,
) -> Result<(), AllocError>
    ensures { OnOk result (lines.new.items ≡ lines.old.items ++ option_to_list (input_line names_lanes line.now)) }
{
    if let Some(said) = read_line(alloc, line, names_lanes)? {
        lines.push(said)?;
    }
    Ok(())
}

/// Reads what a line says. Returns `None` if it has no reply.
fn read_line(
    alloc: Global,
    line: &[u8],
    names_lanes: bool,
) -> Result<Option<ScriptLine>, AllocError>
    ensures { IfOk result (λ l. l ≡ input_line names_lanes line.now) }
{
    if line.starts_with(b"#") {
        return Ok(None);
    }
    let Some((first, rest)) = next_word(line) else {
        return Ok(None);
    };
    let (lane, words) = match read_lane(first) {
        Some(lane) if names_lanes => (lane, rest),
        _ => (0, line),
    };
    let line = read_form(alloc, words)?;
    Ok(Some(ScriptLine { lane, line }))
}

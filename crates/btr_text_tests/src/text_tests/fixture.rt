//! Lines of tests and what they say. In a line of a test, the word `ID` is short for the id 5, `ONE` for 1 and `TWO` for 2.
use crate::fixture::Row;
use btr_base::Point;
use btr_hist::{Kernel, StreamQuery};
use btr_text::{Line, ScriptLine, read_script};
use std::alloc::{AllocError, Global};
use std::test::Fail;

/// The id that `ID` is short for.
pub(super) const ID: u128 = 5;

fn with_ids(alloc: Global, text: &str) -> Result<String, AllocError> {
    let text = text.replace(alloc, " ID", " 00000000000000000000000000000005")?;
    let text = text.replace(alloc, " ONE", " 00000000000000000000000000000001")?;
    Ok(text.replace(alloc, " TWO", " 00000000000000000000000000000002")?)
}

/// Returns what the one line of this text says: `None` if it fits no form.
fn read_one(alloc: Global, text: &str) -> Result<Option<Line>, Fail> {
    let text = with_ids(alloc, text)?;
    let mut lines = read_script(alloc, text.as_bytes())?.into_lines();
    let last = lines.pop();
    if !lines.is_empty() {
        return Err("several lines".into());
    }
    match last {
        Some(ScriptLine { lane: 0, line }) => Ok(line),
        _ => Err("no line in lane 0".into()),
    }
}

/// Fails with the first line of this text that has no reply or fits a form.
pub(super) fn fit_no_form(alloc: Global, text: &str) -> Result<(), Fail> {
    for line in text.split('\n') {
        if read_one(alloc, line)?.is_some() {
            return Err(Fail::new(format_args!("a form of {line}")));
        }
    }
    Ok(())
}

/// What a line says of the stream 5, if no other is named.
pub(super) enum Says {
    Create(u128),
    /// The points in order.
    Insert(&'static [(i64, i64)]),
    Feed(&'static [(i64, i64)]),
    Delete(i64, i64),
    Flush,
    Discard,
    /// The kernel, the lead, the grain and the inputs.
    Distiller(Kernel, u64, u8, u128, Option<u128>),
    Refresh,
    Retire(u64),
    Ask(StreamQuery),
    Streams,
}

/// A line, and what it says.
pub(super) struct Said(pub(super) &'static str, pub(super) Says);

impl Row for Said {
    fn holds(&self, alloc: Global) -> Result<bool, Fail> {
        match read_one(alloc, self.0)? {
            Some(line) => Ok(is_said(&line, &self.1)),
            None => Ok(false),
        }
    }
}

/// Whether points have these times and values.
fn are_pairs(points: &[Point], pairs: &[(i64, i64)]) -> bool {
    points.len() == pairs.len()
        && points.iter().zip(pairs).all(|(point, pair)| point.time == pair.0
            && point.value == pair.1)
}

fn is_said(line: &Line, want: &Says) -> bool {
    match line {
        Line::Create { id } => matches!(want, Says::Create(want) if id == want),
        Line::Insert { id, added } => match want {
            Says::Insert(pairs) => *id == ID && are_pairs(added.as_slice(), pairs),
            _ => false,
        },
        Line::Feed { id, added } => match want {
            Says::Feed(pairs) => *id == ID && are_pairs(added.as_slice(), pairs),
            _ => false,
        },
        Line::Delete { id, from, to } => match want {
            Says::Delete(first, end) => *id == ID && from == first && to == end,
            _ => false,
        },
        Line::Flush { id } => *id == ID && matches!(want, Says::Flush),
        Line::Discard { id } => *id == ID && matches!(want, Says::Discard),
        Line::Distiller { id, .. } => *id == ID && is_defined(line, want),
        Line::Refresh { id } => *id == ID && matches!(want, Says::Refresh),
        Line::Retire { id, first } => *id == ID && matches!(want, Says::Retire(n) if first == n),
        Line::Ask { id, query } => *id == ID
            && matches!(want, Says::Ask(want) if query.of(0) == want.of(0)),
        Line::Streams => matches!(want, Says::Streams),
    }
}

/// Whether a line defines an output by this kernel, lead and grain, and these inputs.
fn is_defined(line: &Line, want: &Says) -> bool {
    let Says::Distiller(of, longest, width, one, other) = want else {
        return false;
    };
    match line {
        Line::Distiller {
            kernel,
            lead,
            grain,
            first,
            second,
            ..
        } => {
            kernel == of && lead == longest && grain == width && first == one && second == other
        }
        _ => false,
    }
}

//! The line that defines an output by the aligned windows of one input.
ghost use Rattle.std.specs.Prelude.{◌≡◌};
ghost use Rattle.btr_text.specs.Word.{words_of};
ghost use Rattle.btr_text.specs.Cell.{which_of, cell_form};

use crate::script::Line;
use crate::word::{next_word, read_id, read_power};
use btr_hist::Kernel;

/// Reads `cell ID WHICH P GRAIN ID`, after its name.
pub fn read_cell(words: &[u8]) -> Option<Line>
    ensures { result ≡ cell_form (words_of words.now) }
{
    let (output, rest) = next_word(words)?;
    let (name, rest) = next_word(rest)?;
    let (p, rest) = next_word(rest)?;
    let (grain, rest) = next_word(rest)?;
    let (first, rest) = next_word(rest)?;
    if let Some(_) = next_word(rest) {
        return None;
    }
    Some(Line::Distiller {
        id: read_id(output)?,
        kernel: Kernel::Cell {
            which: read_which(name)?,
            p: read_power(p)?,
        },
        lead: 0,
        grain: read_power(grain)?,
        first: read_id(first)?,
        second: None,
    })
}

/// Returns the number of the value of a window that one word names.
fn read_which(name: &[u8]) -> Option<u8>
    ensures { result ≡ which_of name.now }
{
    if name == b"sum".as_slice() {
        Some(1)
    } else if name == b"mean".as_slice() {
        Some(2)
    } else if name == b"least".as_slice() {
        Some(3)
    } else if name == b"greatest".as_slice() {
        Some(4)
    } else if name == b"count".as_slice() {
        Some(5)
    } else {
        None
    }
}

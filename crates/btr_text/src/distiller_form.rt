//! The lines on outputs.
ghost use Rattle.std.specs.Prelude.{◌≡◌};
ghost use Rattle.btr_text.specs.Word.{words_of};
ghost use Rattle.btr_text.specs.Distiller.{kernel_of, affine_of, second_of, inputs_form, affine_form, kernel_form};
ghost use Rattle.btr_text.specs.Distiller.{distiller_form, refresh_form};

use crate::script::Line;
use crate::word::{next_word, read_id, read_power, read_unsigned};
use btr_base::read_signed_decimal;
use btr_hist::Kernel;

/// Reads `distiller ID KERNEL LEAD GRAIN ID [ID]`, after its name.
pub fn read_distiller(words: &[u8]) -> Option<Line>
    ensures { result ≡ distiller_form (words_of words.now) }
{
    let (output, rest) = next_word(words)?;
    let (name, rest) = next_word(rest)?;
    read_kernel_form(read_id(output)?, name, rest)
}

/// Reads `refresh ID`, after its name.
pub fn read_refresh(words: &[u8]) -> Option<Line>
    ensures { result ≡ refresh_form (words_of words.now) }
{
    let (id, rest) = next_word(words)?;
    if let Some(_) = next_word(rest) {
        return None;
    }
    Some(Line::Refresh { id: read_id(id)? })
}

/// Reads the line that defines this output by the kernel of this name, after the name.
fn read_kernel_form(output: u128, name: &[u8], words: &[u8]) -> Option<Line>
    ensures { result ≡ kernel_form output name.now (words_of words.now) }
{
    if name == b"affine".as_slice() {
        read_affine_form(output, words)
    } else {
        read_inputs(output, read_kernel(name)?, words)
    }
}

/// Reads `A B D LEAD GRAIN ID [ID]`, which follow `affine`.
fn read_affine_form(output: u128, words: &[u8]) -> Option<Line>
    ensures { result ≡ affine_form output (words_of words.now) }
{
    let (a, rest) = next_word(words)?;
    let (b, rest) = next_word(rest)?;
    let (d, rest) = next_word(rest)?;
    read_inputs(output, read_affine(a, b, d)?, rest)
}

/// Reads `LEAD GRAIN ID [ID]`, which follow a kernel.
fn read_inputs(output: u128, kernel: Kernel, words: &[u8]) -> Option<Line>
    ensures { result ≡ inputs_form output kernel (words_of words.now) }
{
    let (lead, rest) = next_word(words)?;
    let (grain, rest) = next_word(rest)?;
    let (first, rest) = next_word(rest)?;
    Some(Line::Distiller {
        id: output,
        kernel,
        lead: read_unsigned(lead)?,
        grain: read_power(grain)?,
        first: read_id(first)?,
        second: read_second(rest)?,
    })
}

/// Reads the id of the second input, or that there is none. Returns `None` if the words are anything else.
fn read_second(words: &[u8]) -> Option<Option<u128>>
    ensures { result ≡ second_of (words_of words.now) }
{
    let Some((id, rest)) = next_word(words) else {
        return Some(None);
    };
    if let Some(_) = next_word(rest) {
        return None;
    }
    Some(Some(read_id(id)?))
}

/// Reads the numbers of an `affine` kernel: the factor, the offset and the divisor.
fn read_affine(a: &[u8], b: &[u8], d: &[u8]) -> Option<Kernel>
    ensures { result ≡ affine_of a.now b.now d.now }
{
    Some(Kernel::Affine {
        a: read_signed_decimal(a)?,
        b: read_signed_decimal(b)?,
        d: read_signed_decimal(d)?,
    })
}

/// Returns the kernel that one word names.
fn read_kernel(name: &[u8]) -> Option<Kernel>
    ensures { result ≡ kernel_of name.now }
{
    if name == b"sum".as_slice() {
        Some(Kernel::Sum)
    } else if name == b"mean".as_slice() {
        Some(Kernel::Mean)
    } else if name == b"least".as_slice() {
        Some(Kernel::Least)
    } else if name == b"greatest".as_slice() {
        Some(Kernel::Greatest)
    } else if name == b"count".as_slice() {
        Some(Kernel::Count)
    } else if name == b"delta".as_slice() {
        Some(Kernel::Delta)
    } else if name == b"minus".as_slice() {
        Some(Kernel::Minus)
    } else if name == b"angle".as_slice() {
        Some(Kernel::Angle)
    } else if name == b"hold".as_slice() {
        Some(Kernel::Hold)
    } else {
        None
    }
}

//! The law of the bytes that mark the parts of a line, as the contract of a function that does nothing.
ghost use Rattle.btr_text.specs.Laws.{LineMarks};

/// The bytes that separate and mark the parts of a line, as numerals.
pub fn line_marks_are_these()
    ensures { LineMarks }
{}

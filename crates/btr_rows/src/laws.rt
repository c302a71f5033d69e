//! The law of the bytes that mark the parts of a row, as the contract of a function that does nothing.
ghost use Rattle.btr_rows.specs.Laws.{RowMarks};

/// The bytes that separate and mark the parts of a row, as numerals.
pub fn row_marks_are_these()
    ensures { RowMarks }
{}

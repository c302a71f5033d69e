//! What the definitions entail. Each law is a function with an empty body, and its contract is the law.
ghost use Rattle.btr_super.specs.Laws.{FormatLimits};

/// The formats of a superblock, as numerals.
pub fn formats_are_these()
    ensures { FormatLimits }
{}

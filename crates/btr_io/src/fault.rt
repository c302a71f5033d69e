//! The one answer of a source or a sink besides `Ok`.

/// A call of a source or a sink failed. It raised the count of faults, unless the count is at the greatest u64 already.
#[derive(Clone, Copy, PartialEq)]
pub struct Failed;

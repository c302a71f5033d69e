ghost use Rattle.std.specs.Prelude.{◌≡◌, ◌↔◌, IsSome, IfSome};
ghost use Rattle.btr_base.specs.Range.{IsRange};
ghost use Rattle.btr_base.specs.Cut.{lengthened};

use crate::limits::{END, FIRST, MAX_WIDTH};
use std::marker::Model;

/// The times from `from` up to, and without, `to`, in nanoseconds. A range is never empty, and lies in the domain.
#[derive(Clone, Copy, PartialEq, Eq)]
pub struct Range {
    pub from: i64,
    pub to: i64,
}

impl Model for Range {
    ghost use Rattle.btr_base.specs.Range.{RangeValue, IsRange};

    ghost Value = { RangeValue };

    ghost view = { λ r. record { from = r.from; to = r.to } };

    ghost invariant = { λ r. IsRange (record { from = r.from; to = r.to }) };

    ghost inverse = { λ i. record { from = i.from; to = i.to } };
}

impl Range {
    /// The range between two times, in nanoseconds. It returns `None` if the range would be empty or a bound lies outside the
    /// domain. `to` may be the end of the domain.
    pub fn new(from: i64, to: i64) -> Option<Range>
        ensures some { IsSome result ↔ IsRange (record { from = from; to = to }) }
        ensures value { IfSome result (λ r. r ≡ record { from = from; to = to }) }
    {
        if from < FIRST || to > END || from >= to {
            return None;
        }
        Some(Range { from, to })
    }

    /// The range with its end later by `lead` nanoseconds, at most the domain's end.
    pub fn lengthened(self, lead: u64) -> Range
        ensures { result ≡ lengthened lead self }
    {
        let to = self.to + lead.min(MAX_WIDTH) as i64;
        Range {
            from: self.from,
            to: to.min(END),
        }
    }
}

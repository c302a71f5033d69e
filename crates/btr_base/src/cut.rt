//! Sets of times that are united.
ghost use Rattle.std.specs.Prelude.{◌≡◌, ℤ, ◌++◌, ◌||◌, IfOk, OnOk};
ghost use Rattle.btr_base.specs.Range.{covered};
ghost use Rattle.btr_base.specs.Cut.{union};

use crate::range::Range;
use crate::ranges::Ranges;
use std::alloc::{AllocError, Global};

impl Ranges {
    /// The times of both. It takes time linear in the number of ranges of both. An `Err` means out of memory.
    pub fn union(&self, alloc: Global, other: &Ranges) -> Result<Ranges, AllocError>
        ensures ranges { IfOk result (λ r. r ≡ union (self.now ++ other.now)) }
        ensures times { IfOk result (λ r. (t : ℤ) → covered r t ≡ (covered self.now t || covered other.now t)) }
    {
        let all = both(alloc, self.as_slice(), other.as_slice())?;
        // the proof reads here that the ranges are in order and apart
        let _ = all.as_slice();
        Ok(all)
    }
}

/// The times of both lists of ranges. Both are in order, and of both the range that begins first comes next, so each is added in
/// constant time.
fn both(alloc: Global, a: &[Range], b: &[Range]) -> Result<Ranges, AllocError>
    ensures { IfOk result (λ r. (t : ℤ) → covered r t ≡ (covered a.now t || covered b.now t)) }
{
    let mut all = Ranges::none(alloc);
    let mut i = 0;
    let mut j = 0;
    while i < a.len() && j < b.len() {
        let next_a = &a[i];
        let next_b = &b[j];
        if next_b.from < next_a.from {
            all.add(*next_b)?;
            j += 1;
        } else {
            all.add(*next_a)?;
            i += 1;
        }
    }
    add_each(&mut all, &a[i..])?;
    add_each(&mut all, &b[j..])?;
    Ok(all)
}

/// Adds the times of each of the ranges.
fn add_each(ranges: &mut Ranges, more: &[Range]) -> Result<(), AllocError>
    ensures { OnOk result ((t : ℤ) → covered ranges.new t ≡ (covered more.now t || covered ranges.old t)) }
{
    for range in more {
        ranges.add(*range)?;
    }
    Ok(())
}

//! The parts of a cut.
ghost use Rattle.std.specs.Prelude.{◌≡◌, ℤ, ◌&&◌, ◌||◌, int_le, int_lt, IfOk, OnOk};
ghost use Rattle.btr_base.specs.Range.{contains, covered};
ghost use Rattle.btr_distil.specs.Parts.{ArePartsOf};

use btr_base::{END, FIRST, Range, Ranges};
use std::alloc::{AllocError, Global};

/// The times of a cut before the first of these times, from there on before the second, and so on, and those from the last on. It
/// takes for each of the times linear time in the ranges of the cut. An `Err` means out of memory.
pub(crate) fn parts_at(
    alloc: Global,
    cut: &Ranges,
    times: &[i64],
) -> Result<Vec<Ranges>, AllocError>
    ensures { IfOk result (λ v. ArePartsOf cut.now v.items) }
{
    let mut parts = Vec::new(alloc);
    let mut rest = cut.copy(alloc)?;
    for time in times {
        let part = between(alloc, &rest, FIRST, *time)?;
        parts.push(part)?;
        rest = between(alloc, &rest, *time, END)?;
    }
    parts.push(rest)?;
    Ok(parts)
}

/// The times of the ranges from `from` on and before `to`. It takes linear time. An `Err` means out of memory.
fn between(alloc: Global, ranges: &Ranges, from: i64, to: i64) -> Result<Ranges, AllocError>
    ensures { IfOk result (λ r. (t : ℤ) → covered r t ≡ (covered ranges.now t && (int_le from t && int_lt t to))) }
{
    let mut kept = Ranges::none(alloc);
    for range in ranges.as_slice() {
        add_between(&mut kept, *range, from, to)?;
    }
    Ok(kept)
}

/// Adds the times of a range from `from` on and before `to`. An `Err` means out of memory.
fn add_between(kept: &mut Ranges, range: Range, from: i64, to: i64) -> Result<(), AllocError>
    ensures { OnOk result ((t : ℤ) → covered kept.new t ≡ (covered kept.old t || (contains range t && (int_le from t && int_lt t to)))) }
{
    match Range::new(range.from.max(from), range.to.min(to)) {
        Some(part) => kept.add(part),
        None => Ok(()),
    }
}

//! The whole windows that a range meets.
ghost use Rattle.std.specs.Prelude.{◌≡◌, ℕ, pos, ◌+ℤ◌, ◌-ℤ◌};
ghost use Rattle.btr_base.specs.Windows.{IsAlignedBy, begin_of};

use btr_base::{Grid, Range};

/// Returns the range from the start of the first aligned window that `range` meets to the end of the last one.
pub(crate) fn whole_windows(grid: Grid, range: Range) -> Range
    requires { (p : ℕ) × IsAlignedBy p grid.first grid.width }
    ensures from { result.from ≡ begin_of grid.first grid.width range.from }
    ensures to { result.to ≡ begin_of grid.first grid.width (range.to -ℤ pos 1) +ℤ pos grid.width }
{
    let last = grid.begin_of(range.to - 1);
    Range {
        from: grid.begin_of(range.from),
        to: last + grid.width as i64,
    }
}

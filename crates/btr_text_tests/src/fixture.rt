//! Tables of tests.

use std::alloc::Global;
use std::test::Fail;

/// A row of a table.
pub(crate) trait Row {
    /// Whether what the row says is so.
    fn holds(&self, alloc: Global) -> Result<bool, Fail>;
}

/// Fails with the number of the first row that does not hold.
pub(crate) fn all_hold<R: Row>(alloc: Global, rows: &[R]) -> Result<(), Fail> {
    for (number, row) in rows.iter().enumerate() {
        if !row.holds(alloc)? {
            return Err(Fail::new(format_args!("row {number}")));
        }
    }
    Ok(())
}

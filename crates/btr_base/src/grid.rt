//! Windows of one width, and the aligned slots around times.
ghost use Rattle.std.specs.Prelude.{◌≡◌, ◌≤◌, ◌≤ℤ◌, ◌+◌, ◌^◌};
ghost use Rattle.btr_base.specs.Changes.{slot_around};
ghost use Rattle.btr_base.specs.Point.{InDomain};
ghost use Rattle.btr_base.specs.Windows.{IsGrid, IsAlignedBy, IsWindow, window_of, window_at, begin_of};

use crate::limits::FIRST;
use crate::range::Range;

/// Windows of one width, side by side from a first time on.
#[derive(Clone, Copy, PartialEq, Eq)]
pub struct Grid {
    /// The start of the first window, in nanoseconds.
    pub first: i64,

    /// The width of each window, in nanoseconds: 1 to [`MAX_WIDTH`](crate::MAX_WIDTH).
    pub width: u64,
}

impl Grid {
    /// The windows of `2^p` ns from the first time of the domain on. `p` is at most
    /// [`MAX_EXPONENT`](crate::MAX_EXPONENT).
    pub fn aligned(p: u8) -> Grid
        requires { p ≤ 62 }
        ensures { IsAlignedBy p result.first result.width }
    {
        Grid {
            first: FIRST,
            width: power_of_two(p),
        }
    }

    /// The number, from 0, of the window that contains the time.
    pub fn number_of(&self, time: i64) -> u64
        requires { 1 ≤ self.now.width }
        ensures { result ≡ window_of self.now.first self.now.width time }
    {
        time.abs_diff(self.first) / self.width
    }

    /// The start of the window of this number, in nanoseconds.
    pub fn start_of(&self, number: u64) -> i64
        requires { IsWindow self.now.first self.now.width number }
        ensures { result ≡ window_at self.now.first self.now.width number }
    {
        self.first + (number * self.width) as i64
    }

    /// The end of the window of this number, in nanoseconds.
    pub fn end_of(&self, number: u64) -> i64
        requires { IsWindow self.now.first self.now.width number }
        ensures { result ≡ window_at self.now.first self.now.width (number + 1) }
    {
        self.start_of(number) + self.width as i64
    }

    /// The start of the window that contains the time, in nanoseconds.
    pub fn begin_of(&self, time: i64) -> i64
        requires grid { IsGrid self.now.first self.now.width }
        requires time { self.now.first ≤ℤ time }
        ensures { result ≡ begin_of self.now.first self.now.width time }
    {
        let offset = time.abs_diff(self.first);
        time - (offset % self.width) as i64
    }
}

/// The aligned slot of `2^p` ns that contains a time of the domain. `p` is at most
/// [`MAX_EXPONENT`](crate::MAX_EXPONENT).
pub fn slot_around(time: i64, p: u8) -> Range
    requires power { p ≤ 62 }
    requires domain { InDomain time }
    ensures { result ≡ slot_around p time }
{
    let width = power_of_two(p);
    let offset = time.abs_diff(FIRST);
    let from = FIRST + (offset / width * width) as i64;
    Range {
        from,
        to: from + width as i64,
    }
}

/// `2^p`.
fn power_of_two(p: u8) -> u64
    requires { p ≤ 62 }
    ensures { result ≡ 2 ^ p }
{
    1 << p
}

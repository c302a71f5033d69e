//! Distillers: streams that are computed from other streams, in the manner of DISTIL (SmartGridComm 2015).
ghost use Rattle.std.specs.Prelude.{◌≡◌};
ghost use Rattle.btr_hist.specs.Kernel.{is_good, has_second};
ghost use Rattle.btr_hist.specs.History.{nothing_read};

/// What a distiller computes. All kernels but [`Kernel::Cell`] compute at an anchor, which is a time t at which the first input has a
/// point. They look at the points of the inputs in the window from t - lead to t, both included. x is the greatest value of the
/// first input at t. All is exact; a result that is no i64 gives no point. Floors round toward minus infinity.
#[derive(Clone, Copy, PartialEq, Eq)]
pub enum Kernel {
    /// `floor((a * x + b) / d)`, with d at least 1.
    Affine { a: i64, b: i64, d: i64 },

    /// The sum of the first input's window.
    Sum,

    /// The mean of the first input's window: `floor(sum / count)`.
    Mean,

    /// The least value of the first input's window.
    Least,

    /// The greatest value of the first input's window.
    Greatest,

    /// The number of points of the first input's window.
    Count,

    /// x minus the greatest value at the last time before t in the window, if there is one.
    Delta,

    /// x minus the greatest value of the second input at t, if there is one.
    Minus,

    /// The difference of `Minus`, of two angles in thousandths of a degree: r becomes `((r + 180000) mod 360000) - 180000`.
    Angle,

    /// x minus the greatest value at the last time of the second input's window, if it has a point.
    Hold,

    /// Another kind: a value of each aligned window of `2^p` ns of the first input that has a point, at the window's start. `which`
    /// names the value of the whole window: 1 the sum, 2 the mean, 3 the least, 4 the greatest, 5 the count of its points.
    Cell { which: u8, p: u8 },
}

impl Kernel {
    /// Whether the kernel has a second input.
    pub fn has_second(&self) -> bool
        ensures { result ≡ has_second self.now }
    {
        match self {
            Kernel::Minus | Kernel::Angle | Kernel::Hold => true,
            Kernel::Affine { .. }
            | Kernel::Sum
            | Kernel::Mean
            | Kernel::Least
            | Kernel::Greatest
            | Kernel::Count
            | Kernel::Delta
            | Kernel::Cell { .. } => false,
        }
    }
}

/// What defines an output: a kernel, and the streams that it reads.
#[derive(Clone, Copy, PartialEq, Eq)]
pub struct Spec {
    pub kernel: Kernel,

    /// How far the kernel looks back, in nanoseconds: 0 to 2^60.
    pub lead: u64,

    /// Changes of the inputs are looked for in aligned slots of `2^grain` ns: 0 to 62.
    pub grain: u8,

    /// The number of the first input's stream.
    pub first: u32,

    /// The number of the second input's stream, if the kernel has a second input. It may be that of the first.
    pub second: Option<u32>,
}

impl Spec {
    /// Whether the spec has as many inputs as its kernel, a divisor of at least 1, a lead of at most 2^60 and a grain of at most
    /// 62; and, if the kernel is [`Kernel::Cell`], `which` is 1 to 5, p at most 62 and the lead 0. It says nothing of whether the
    /// inputs exist.
    pub fn is_good(&self) -> bool
        ensures { result ≡ is_good self.now }
    {
        let divides = match self.kernel {
            Kernel::Affine { d, .. } => d >= 1,
            _ => true,
        };
        let windows = match self.kernel {
            Kernel::Cell { which, p } => 1 <= which && which <= 5 && p <= 62 && self.lead == 0,
            _ => true,
        };
        let fits = self.kernel.has_second() == self.second.is_some();
        fits && divides && self.lead <= 1_152_921_504_606_846_976 && self.grain <= 62 && windows
    }

    /// Returns version 0 of each input.
    pub fn nothing_read(&self) -> Reads
        ensures { result ≡ nothing_read self.now }
    {
        let second = match self.second {
            Some(_) => Some(0),
            None => None,
        };
        Reads { first: 0, second }
    }
}

/// The versions of its inputs that a version of an output was computed from.
#[derive(Clone, Copy, PartialEq, Eq)]
pub struct Reads {
    /// The version of the first input.
    pub first: u64,

    /// The version of the second input, if there is one.
    pub second: Option<u64>,
}

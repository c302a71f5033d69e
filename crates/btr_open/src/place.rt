//! How far a log was read.
ghost use Rattle.std.specs.Prelude.{◌-◌, ◌^◌, ◌<◌};
ghost use Rattle.btr_open.specs.Place.{IsPlaceAfter};

/// How far a log was read.
#[derive(Clone, Copy)]
pub(crate) struct Place {
    /// The gate up to which the log was read.
    pub(crate) gate: u64,

    /// The number of extents before the gate: those that were read, those of the entries before the checkpoint from which the reading
    /// started, and that of the checkpoint.
    pub(crate) extents: u64,
}

impl Place {
    /// The gate after an extent at this one.
    pub(crate) fn after(self, next: u64) -> Place
        requires few { self.extents < 2 ^ 64 - 1 }
        ensures { IsPlaceAfter self next result }
    {
        Place {
            gate: next,
            extents: self.extents + 1,
        }
    }
}

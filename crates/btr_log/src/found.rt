//! What is found at a gate of the log, and why nothing is.
use crate::Head;
use btr_disk::Failed;
use std::alloc::AllocError;

/// What is found at a gate.
#[derive(Drop)]
pub enum Found {
    /// The gate is closed: what follows it does not count.
    Closed,

    /// The gate is open: the head and the body of its extent, and the block of the gate that follows.
    Extent {
        head: Head,
        body: Vec<u8>,
        next: u64,
    },
}

/// Why no extent was read.
#[derive(Clone, Copy, PartialEq, Eq)]
pub enum ExtentFault {
    /// The gate is open, but this block breaks the format. It is the gate's own block if that is the last one
    /// of the log. Else it is the block after the gate, which begins with no head, or with a head whose
    /// extent leaves no room for the next gate.
    Damaged { block: u64 },

    /// The device failed.
    Fault,

    /// There was no memory.
    Want,
}

impl From<Failed> for ExtentFault {
    ghost use Rattle.std.specs.Prelude.{◌≡◌};
    ghost use Rattle.btr_log.specs.declared.found.ExtentFault.TheVariants.{Fault};

    ghost from_gives = { λ _ e. e ≡ Fault };

    fn from(_failed: Failed) -> ExtentFault {
        ExtentFault::Fault
    }
}

impl From<AllocError> for ExtentFault {
    ghost use Rattle.std.specs.Prelude.{◌≡◌};
    ghost use Rattle.btr_log.specs.declared.found.ExtentFault.TheVariants.{Want};

    ghost from_gives = { λ _ e. e ≡ Want };

    fn from(_error: AllocError) -> ExtentFault {
        ExtentFault::Want
    }
}

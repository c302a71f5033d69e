//! The step: it adds one entry, which is durable before the step returns.
ghost use Rattle.std.specs.Prelude.{◌≡◌, ℕ, true};
ghost use Rattle.btr_log.specs.declared.append.AppendFault.TheVariants.{Full, Fault, Stopped as AlreadyStopped};
ghost use Rattle.btr_engine.specs.declared.step.StepFault.TheVariants.{Stopped, DeviceFull, DeviceFault};
ghost use Rattle.btr_engine.specs.Engine.{is_home};
ghost use Rattle.btr_engine.specs.Step.{IsStep};

use crate::engine::Engine;
use crate::travel::Return;
use btr_disk::Disk;
use btr_hist::{Entry, Rejection};
use btr_log::AppendFault;
use btr_streams::{Alone, PushFault, Receipt};
use std::alloc::{AllocError, Global};

/// Why an entry was not accepted. If several causes hold, the first in this order is returned. Only the rejections `Crowded` and
/// `TooManyPoints`, which are found last, may be hidden by `Want`.
#[derive(Clone, Copy, PartialEq, Eq)]
pub enum StepFault {
    /// The engine was stopped, with this number of entries.
    Stopped { entries: u64 },

    /// The store is sealed.
    Sealed,

    /// The entry may not follow the history.
    Rejected(Rejection),

    /// There was not enough memory.
    Want,

    /// There is less room than the entry needs, both in blocks.
    DeviceFull { need: u64, left: u64 },

    /// The device failed. The engine is stopped. A crash leaves the history with the entry or without it.
    DeviceFault,
}

impl<D: Disk> Engine<D> {
    /// Adds an entry to the history. After `Ok` the entry is durable: no later crash loses it. Of a distillate the stream, the
    /// reads and the number of points are tested, not that it is the definition's.
    ///
    /// A crash at any moment of the step leaves the history as before, or with this entry. After an `Err` the engine is as
    /// before, except after a `DeviceFault`, which stops it: from then on it returns `Stopped`.
    ///
    /// The step makes no call of the device, or four: a write and a sync for the entry and the pages of the nodes that are new in
    /// its stream's tree, then a write and a sync for the gate before it. If the entry needs a higher format than the superblock has, five
    /// or seven calls before these replace the superblock by one of that format. It takes all memory before the first call. It costs the
    /// bytes of the entry, 4096 bytes for each of these nodes, and time logarithmic in the streams, versions and ids.
    ///
    /// The caller passes an engine whose log is at home, and gets it so.
    pub fn step(&mut self, alloc: Global, entry: &Entry) -> Result<Receipt, StepFault>
        requires home { is_home self.old ≡ true }
        ensures { IsStep self.old self.new entry.now result }
    {
        let Some(log) = self.take_log() else {
            unreachable!()
        };
        let ready = match self.stage(&Alone, alloc, &log, entry) {
            Ok(ready) => ready,
            Err(fault) => {
                self.settle(log, Return::Untouched);
                return Err(fault);
            }
        };
        let (log, written) = ready.write(&Alone, log);
        if let Err(_) = written {
            self.settle(log, Return::Failed);
            return Err(StepFault::DeviceFault);
        }
        match self.settle(log, Return::Written(ready)) {
            Some(receipt) => Ok(receipt),
            None => unreachable!(),
        }
    }
}

/// Converts a fault of the append.
pub(crate) fn step_fault(fault: AppendFault) -> StepFault
    ensures full { (need left : ℕ) → fault ≡ Full need left → result ≡ DeviceFull need left }
    ensures failed { fault ≡ Fault → result ≡ DeviceFault }
    ensures stopped { (extents : ℕ) → fault ≡ AlreadyStopped extents → result ≡ Stopped extents }
{
    match fault {
        AppendFault::Full { need, left } => StepFault::DeviceFull { need, left },
        AppendFault::Fault => StepFault::DeviceFault,
        AppendFault::Stopped { extents } => StepFault::Stopped { entries: extents },
    }
}

impl From<AllocError> for StepFault {
    ghost use Rattle.std.specs.Prelude.{◌≡◌};
    ghost use Rattle.btr_engine.specs.declared.step.StepFault.TheVariants.{Want};

    ghost from_gives = { λ _ e. e ≡ Want };

    fn from(_error: AllocError) -> StepFault {
        StepFault::Want
    }
}

impl From<PushFault> for StepFault {
    ghost use Rattle.std.specs.Prelude.{◌≡◌};
    ghost use Rattle.btr_engine.specs.Pending.{fault_of_push};

    ghost from_gives = { λ f e. e ≡ fault_of_push f };

    fn from(fault: PushFault) -> StepFault {
        match fault {
            PushFault::Rejected(why) => StepFault::Rejected(why),
            PushFault::Want => StepFault::Want,
        }
    }
}

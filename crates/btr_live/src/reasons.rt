//! The reasons that replies give for entries that were not added.
ghost use Rattle.std.specs.Prelude.{◌≡◌};
ghost use Rattle.btr_live.specs.Reasons.{reason_of_step, reason_of_landing};

use btr_engine::StepFault;
use btr_hall::LandFault;
use btr_text::Reason;

/// Returns the reason that a reply gives for an entry that was not added. If the rejection of the entry names an output, `id` is the id of
/// that; else it is not looked at. It takes constant time.
pub fn reason_of_step(fault: StepFault, id: u128) -> Reason
    ensures { result ≡ reason_of_step id fault }
{
    match fault {
        StepFault::Stopped { entries } => Reason::Stopped { entries },
        StepFault::Sealed => Reason::Sealed,
        StepFault::Rejected(why) => Reason::of_rejection(why, id),
        StepFault::Want => Reason::Memory,
        StepFault::DeviceFull { need, left } => Reason::Full { need, left },
        StepFault::DeviceFault => Reason::Device,
    }
}

/// Returns the reason that a reply gives for a plan that was not landed. It takes constant time.
pub fn reason_of_landing(fault: LandFault) -> Reason
    ensures { result ≡ reason_of_landing fault }
{
    match fault {
        LandFault::Stopped { entries } => Reason::Stopped { entries },
        LandFault::Sealed => Reason::Sealed,
        LandFault::Superseded { version } => Reason::Superseded { version },
        LandFault::VersionLimit => Reason::Versions,
        LandFault::Crowded { start } => Reason::Crowded { start },
        LandFault::TooManyPoints { count } => Reason::Points { count },
        LandFault::Want => Reason::Memory,
        LandFault::DeviceFull { need, left } => Reason::Full { need, left },
        LandFault::DeviceFault => Reason::Device,
    }
}

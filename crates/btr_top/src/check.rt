//! The command `check`, which says whether a store is right.
ghost use Rattle.std.specs.Prelude.{◌≡◌};
ghost use Rattle.btr_top.specs.Check.{CheckEnds, ending_of_verdict};
ghost use Rattle.btr_top.specs.Command.{IsKept};

use crate::command::CommandResult;
use crate::ending::Ending;
use crate::remains::RunRemains;
use btr_check::{CheckRemains, Checked, Verdict, check};
use btr_disk::Disk;
use std::alloc::Global;

/// `check`: reads the whole store, and says whether the device holds a legal history. It reads no input, and neither writes nor syncs.
///
/// It costs what [`btr_check::check`] costs.
pub(crate) fn run_check<D: Disk>(alloc: Global, disk: D) -> CommandResult<D>
    ensures size { D.size result.disk ≡ D.size disk }
    ensures cause { CheckEnds ⟦<D as Disk>⟧ disk result.disk result.ending }
    ensures kept { IsKept ⟦<D as Disk>⟧ disk result.disk }
{
    let Checked {
        verdict,
        disk,
        remains,
    } = check(alloc, disk);
    CommandResult {
        ending: ending_of(verdict),
        disk,
        remains: left_of(remains),
    }
}

/// Returns what a run leaves whose check leaves this.
fn left_of(remains: Option<CheckRemains>) -> RunRemains {
    match remains {
        Some(remains) => RunRemains::Check(remains),
        None => RunRemains::Nothing,
    }
}

/// Returns how a check with this verdict ends.
fn ending_of(verdict: Verdict) -> Ending
    ensures { result ≡ ending_of_verdict verdict }
{
    match verdict {
        Verdict::Stands { entries } => Ending::Stands { entries },
        Verdict::Wrong { block } => Ending::Damaged { block },
        Verdict::NotAStore => Ending::NoStore,
        Verdict::Fault => Ending::NoDevice,
        Verdict::Want => Ending::OutOfMemory,
    }
}

//! The raise: a superblock of a higher format replaces the chosen one before the extent of an entry that needs it.
ghost use Rattle.std.specs.Prelude.{◌≡◌, ◌+◌, ◌^◌, ◌<◌, ◌≤◌, IfErr, IfSome, OnOk};
ghost use Rattle.btr_log.specs.Log.{log_device, KeepsBounds};
ghost use Rattle.btr_super.specs.Super.{IsSuper};
ghost use Rattle.btr_engine.specs.Raise.{raised, raise_for, super_after, most_raise};
ghost use Rattle.btr_engine.specs.Travel.{IsRaised, StopsWithin, HoldsRaised, LeavesRaised};

use btr_disk::{Disk, Failed};
use btr_entry::format_of;
use btr_hist::Entry;
use btr_log::Log;
use btr_super::{Super, replace};

/// Returns the superblock that replaces the chosen one before the extent of this entry is written: one of the entry's format, if that is
/// higher.
pub(crate) fn raise_for(chosen: &Super, entry: &Entry) -> Option<Super>
    requires side { chosen.now.side ≤ 1 }
    requires seq { chosen.now.seq + 1 < 2 ^ 64 }
    ensures { result ≡ raise_for chosen.now entry.now }
{
    let format = format_of(entry);
    if chosen.format < format {
        Some(raised(chosen, format))
    } else {
        None
    }
}

/// Returns the superblock that follows the chosen one in this format. It says of the log what the chosen one says.
fn raised(chosen: &Super, format: u32) -> Super
    requires side { chosen.now.side ≤ 1 }
    requires seq { chosen.now.seq + 1 < 2 ^ 64 }
    ensures { result ≡ raised chosen.now format }
{
    Super {
        seq: chosen.seq + 1,
        side: 1 - chosen.side,
        blocks: chosen.blocks,
        tail: chosen.tail,
        checkpoint: chosen.checkpoint,
        format,
    }
}

/// Returns the superblock that is chosen after a raise, or if there was none.
pub(crate) fn super_after(chosen: &Super, raise: &Option<Super>) -> Super
    ensures { result ≡ super_after chosen.now raise.now }
{
    match raise {
        Some(next) => *next,
        None => *chosen,
    }
}

/// Replaces the superblock by `next`, if there is one. The extents of the log stay as they are.
///
/// A crash at any moment of the call leaves the history that the log holds. `Err` is that the device failed. Then the log is stopped.
///
/// It makes no call of the device, or five or seven that replace the superblock, or fewer if one of them fails. It takes no memory.
pub(crate) fn raise<D: Disk>(log: &mut Log<D>, next: &Option<Super>) -> Result<(), Failed>
    requires { IfSome next.now (IsSuper (D.size (log_device log.old))) }
    ensures kept { KeepsBounds log.old log.new }
    ensures raised { OnOk result (IsRaised next.now log.old log.new) }
    ensures failed { IfErr result (λ _. StopsWithin (most_raise next.now) log.old log.new) }
    ensures holds { OnOk result (HoldsRaised next.now log.old log.new) }
    ensures moments { LeavesRaised next.now log.old log.new }
{
    let Some(next) = next else {
        return Ok(());
    };
    if replace(&mut log.disk, next).is_err() {
        log.stop();
        return Err(Failed);
    }
    Ok(())
}

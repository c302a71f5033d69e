//! The checkpoints of a log, and whether a superblock names one of them, and the end of the log if the store is sealed.
ghost use Rattle.std.specs.Prelude.{◌≡◌, ◌↔◌, map, IsTrue};
ghost use Rattle.btr_check.specs.Whole.{HasMark, IsNamedStart, EndsAtSeal};
ghost use Rattle.btr_check.specs.Checkpoints.{mark_of};

use btr_super::{LOG_START, Super};

/// The extent of a checkpoint: its gate, and the gate after it.
#[derive(Clone, Copy)]
pub(crate) struct Checkpoint {
    pub(crate) gate: u64,
    pub(crate) next: u64,
}

/// Whether the superblock names a start of the log: its first gate, or one of these checkpoints and the gate after it.
pub(crate) fn is_named(checkpoints: &[Checkpoint], found: &Super) -> bool
    ensures { IsTrue result ↔ IsNamedStart found.now (map mark_of checkpoints.now) }
{
    if found.checkpoint == 0 && found.tail == LOG_START {
        return true;
    }
    has_checkpoint(checkpoints, found.checkpoint, found.tail)
}

/// Whether a log that ends at this gate ends where the superblock says: at its tail, if the store is sealed. The superblock of another
/// store does not say where its log ends.
pub(crate) fn ends_at_seal(found: &Super, gate: u64) -> bool
    ensures { IsTrue result ↔ EndsAtSeal found.now gate }
{
    !found.is_sealed() || found.tail == gate
}

/// Whether one of the checkpoints has this gate, and this gate after it.
fn has_checkpoint(checkpoints: &[Checkpoint], gate: u64, next: u64) -> bool
    ensures { IsTrue result ↔ HasMark (map mark_of checkpoints.now) gate next }
{
    for checkpoint in checkpoints {
        if is_at(checkpoint, gate, next) {
            return true;
        }
    }
    false
}

/// Whether the checkpoint has this gate, and this gate after it.
fn is_at(checkpoint: &Checkpoint, gate: u64, next: u64) -> bool
    ensures { IsTrue result ↔ (mark_of checkpoint.now ≡ record { gate = gate; next = next }) }
{
    checkpoint.gate == gate && checkpoint.next == next
}

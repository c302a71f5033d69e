//! What a run leaves in memory.

use btr_check::CheckRemains;
use btr_engine::Remains;

/// What a run leaves in memory beside its device. To drop it frees that memory, in time linear in the nodes of all versions of the store. A
/// program that ends with the run may forget it instead, by `std::mem::forget`: then the memory is the system's to free.
#[derive(Drop)]
pub enum RunRemains {
    /// No history was in memory at the end.
    Nothing,

    /// The history of the store.
    Store(Remains),

    /// What a check has read.
    Check(CheckRemains),
}

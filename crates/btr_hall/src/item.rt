//! The items of a hall's list.
use btr_disk::Disk;
use btr_engine::Engine;
use btr_hist::Entry;
use std::snapshot::Snapshot as State;

/// One item of the list of a hall, for contracts alone: no item has bytes. The list has an item for each entry of the history, in
/// order, and one more at its end if the device failed in a step.
#[derive(Drop)]
pub enum Item<D: Disk> {
    /// An entry that the history had when the hall began.
    Earlier,

    /// An entry that a session added, and the engine after its step.
    Added {
        entry: State<Entry>,
        engine: State<Engine<D>>,
    },

    /// The entry in whose step the device failed, and the engine after it.
    Halted {
        entry: State<Entry>,
        engine: State<Engine<D>>,
    },
}

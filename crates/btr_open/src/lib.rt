//! The opening of a store: it makes the engine of the history that a device holds.
//!
//! [`open_store`] reads a log from its beginning, or from the checkpoint that the superblock names. It makes the trees of all versions
//! from the pages that a device has, and returns an engine of the history that the device holds. `specs/Damage.antt` says which block of
//! a device breaks the format of a store.
#![tactic(auto)]

// the entry in the bytes of an extent
mod decoding;
// the test of an entry's root
mod roots;
// the test of a checkpoint
mod checkpoint;
// how far a log was read
mod place;
// the pages below the checkpoint from which a log is read
mod below;
// the walk over a log, and its start
mod log_walk;
mod start;
// the content of the checkpoint from which a log is read, its roots and their trees
mod roll_content;
mod roll_roots;
mod roll_trees;
// who judges each extent
mod judge;
// what was read so far, and one extent more
mod loading;
// the opening
mod opening;
// the reading of a whole log, with a judge
mod judged;
// a sealed store as a shelf: its opening, and its answers
mod sealed;
mod shelf;
mod shelf_rows;
// what holds of all devices
mod laws;

pub use decoding::decode_extent;
pub use judge::Judge;
pub use judged::{WholeLog, read_judged};
pub use laws::{
    empty_store_holds_nothing, held_is_sound, one_history_is_held, outline_and_points_decide,
};
pub use opening::{OpenCause, OpenFault, open_store};
pub use sealed::{SealedFault, open_sealed};
pub use shelf::Shelf;

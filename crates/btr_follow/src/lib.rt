//! A follower of a store, kept by log shipping.
//!
//! A leader ships the entries of its log as frames: [`ship`] writes those of a store, [`append_frame`] writes one, and [`read_frames`]
//! finds the frames in bytes. A [`Follower`] is an engine of a store of its own that takes the entry of a frame if it is the next one
//! and is allowed. Frames may be lost, come late, or come more than once. `specs/World.antt` has both as a machine, which [`world`]
//! plays over the lengths of the histories: whatever happens, the follower's history is a prefix of the leader's.
#![tactic(auto)]

// frames and their bytes
mod frame;
mod reading;
mod writing;
// what a follower answers
mod heard;
// the follower over an engine
mod follower;
mod taking;
// what a leader ships
mod sending;
mod shipping;
// a leader and its follower, played
mod event;
mod play;
mod playing;
// what holds of all of them
mod laws;

pub use event::{FollowEvent, Lengths};
pub use follower::Follower;
pub use frame::{EntryBytes, Frame, FrameList, Frames};
pub use heard::Heard;
pub use laws::{
    a_follower_always_follows, a_follower_never_forgets, deliveries_are_heard,
    frames_are_read_back, one_reading,
};
pub use playing::world;
pub use reading::read_frames;
pub use shipping::{ShipFault, ship, ship_counted};
pub use writing::append_frame;

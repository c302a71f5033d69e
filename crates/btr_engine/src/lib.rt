//! The engine of a store: it adds entries to the history on a device, and gives snapshots of it, which answer questions.
//!
//! A step ([`Engine::step`]) adds one entry: a crash at any moment of it leaves the history as before, or with this entry.
//! It is four calls ([`Engine::take_log`], [`Engine::stage`], [`Ready::write`], [`Engine::settle`]), between which the log is out of the
//! engine, and the engine can be asked. An entry that needs a higher format than the superblock has is written after a raise, which
//! replaces the superblock by one of that format.
//! A checkpoint ([`Engine::checkpoint`]) leaves the history as it is, and adds what an opening needs of the entries before it. A seal
//! ([`Engine::seal`]) is a last one: after it the store takes no more.
//! `specs/Holds.antt` says which history a device holds, byte by byte. The history in memory is that of the crate btr_streams. The crate
//! btr_open makes the engine of a device.
#![tactic(auto)]

// the bytes of an entry
mod extent;
mod extent_parts;
mod first_node;
mod maker;
mod streamed;
// the engine
mod checkpoint;
mod engine;
mod place;
mod raise;
mod remains;
mod step;
mod travel;

pub use btr_streams::{Alone, Board, Crew, PushFault, Receipt, Snapshot, Staged, TreeMaker};
pub use engine::Engine;
pub use maker::Maker;
pub use remains::Remains;
pub use step::StepFault;
pub use streamed::StreamedPages;
pub use travel::{Ready, Return};

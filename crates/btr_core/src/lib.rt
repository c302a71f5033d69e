//! The machine of the whole store: one history that many actors share, each with the snapshot that it was admitted to and with a
//! plan of its own.
//!
//! An actor commits an entry, is admitted to all entries so far, asks a question about those, plans the next distillate of an
//! output from those, or lands its plan. [`run`] plays any events of any actors, in any order: its replies are those of the
//! model's machine (`specs/Machine.antt` of btr_hist), and after each event every version of every output is right. The store is
//! that of BTrDB (Andersen and Culler, FAST 2016), its outputs are those of DISTIL (Andersen et al., SmartGridComm 2015).
//!
//! The crate has no device and no threads.
#![tactic(auto)]

// what happens, and what is replied
mod event;
// the machine
mod machine;
mod staging;
// all events
mod running;

pub use event::{Event, Reply, What};
pub use machine::Machine;
pub use running::run;

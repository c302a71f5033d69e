//! A file or a block device as a `Disk`, and the standard streams as `Source` and `Sink`.
//!
//! No contract says what a file, standard input or standard output holds. Each type here counts its faults: the count
//! rises at each error of the system, and a call returns `Failed` only then. The layers above state the rest for
//! devices and streams whose contents are observable.
//!
//! A call that a signal interrupts is repeated. No call on a device or a stream takes memory.
#![tactic(auto)]

mod access;
mod block_sink;
mod count;
mod file_disk;
mod in_use;
mod log_end;
mod no_disk;
mod opening;
mod renewing;
mod std_sink;
mod std_source;

pub use access::Access;
pub use file_disk::FileDisk;
pub use log_end::last_gate;
pub use no_disk::NoDisk;
pub use renewing::renew_gates;
pub use std_sink::StdSink;
pub use std_source::StdSource;

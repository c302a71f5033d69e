//! Bytes that come in and bytes that go out: the traits `Source` and `Sink`, and the loops over them.
//!
//! `read_all` returns exactly the bytes that a source had left, or the reason why not. `write_all` hands all bytes to a
//! sink, or a prefix of them and an error. A call fails exactly if the count of faults of the source or sink rises.
//!
//! Nothing is buffered between calls, no text is decoded, and no call waits for anything but the source or sink itself. The
//! calls of both traits take no memory.
#![tactic(auto)]

mod fault;
mod reading;
mod sink;
mod source;
mod writing;
// In memory.
mod calls;
mod mem_sink;
mod mem_source;

pub use fault::Failed;
pub use mem_sink::MemSink;
pub use mem_source::MemSource;
pub use reading::{ReadAllFault, read_all};
pub use sink::Sink;
pub use source::Source;
pub use writing::write_all;

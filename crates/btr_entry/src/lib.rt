//! Entries of a store's history as bytes, and back.
//!
//! An entry has one spelling, which `specs/Grammar.antt` defines apart from both directions. [`encode`] returns it, and
//! [`decode`] returns an entry exactly if the bytes are the spelling of one. All numbers are big-endian, signed numbers
//! are two's complement in eight bytes.
//!
//! | entry | bytes |
//! |---|---|
//! | `Create` | 1, then the id in 16 bytes |
//! | `Commit` | 2, then the stream in 4 bytes, the ranges, the points |
//! | `Define` | 3, then the id in 16 bytes, the spec |
//! | `Distillate` | 4, then the stream in 4 bytes, the reads, the ranges, the points |
//! | `Retire` | 5, then the stream in 4 bytes, the first version in 8 bytes |
//!
//! Ranges are their number in 8 bytes, then `from` and `to` of each. Points are their number in 8 bytes, then the time
//! and the value of each. Ranges are in order, and neither overlap nor touch. Points are in order of time and value,
//! and their times are in the domain. A commit has at least one range or point, at most
//! [`MAX_COMMIT_RANGES`](btr_base::MAX_COMMIT_RANGES) ranges and at most
//! [`MAX_COMMIT_POINTS`](btr_base::MAX_COMMIT_POINTS) points. A distillate has at most `2^34` ranges and at most `2^32`
//! points, and may have none. The first version of a retirement is 1 to [`MAX_VERSIONS`](btr_base::MAX_VERSIONS).
//!
//! A spec is the number of the kernel in 1 byte (1 `Affine`, 2 `Sum`, 3 `Mean`, 4 `Least`, 5 `Greatest`, 6 `Count`,
//! 7 `Delta`, 8 `Minus`, 9 `Angle`, 10 `Hold`, 11 `Cell`), for `Affine` `a`, `b` and `d` in 8 bytes each, for `Cell`
//! `which` and `p` in 1 byte each, the lead in 8 bytes, the grain in 1 byte, the number of inputs in 1 byte, and the
//! stream of each input in 4 bytes. It is good: see
//! [`Spec::is_good`](btr_hist::Spec::is_good). Reads are the number of inputs in 1 byte, 1 or 2, and the version of each
//! in 8 bytes, at most [`MAX_VERSIONS`](btr_base::MAX_VERSIONS). After an entry nothing follows.
//!
//! A checkpoint has ids, numbers, specs and reads with the same bytes. The functions that read and write one of them are public
//! for the crate that encodes checkpoints. After an `Err`, which means out of memory, `out` may have a part of what was appended.
#![tactic(auto)]

mod fields;
mod format;
mod lists;
mod reads_bytes;
mod spec_bytes;
// the two directions
mod decoding;
mod encoding;
// what holds of all spellings
mod laws;

pub use decoding::decode;
pub use encoding::{append_before_points, append_entry, append_points, spelling_length};
pub use fields::{put_byte, put_id, put_u32, put_u64, read_id, read_u32, read_u64};
pub use format::{format_of, spec_format};
pub use laws::one_spelling;
pub use reads_bytes::{put_reads, read_reads, reads_length};
pub use spec_bytes::{put_spec, read_spec, spec_length};

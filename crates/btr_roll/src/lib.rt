//! The content of a checkpoint as bytes, and back.
//!
//! The content of a checkpoint is a [`Roll`], which `specs/Roll.antt` defines: the number of streams in 4 bytes, then each
//! stream in order of creation. A stream is its id in 16 bytes, the number of its entry in 8 bytes, 0 in 1 byte for a plain
//! stream, or 1 and the spec for an output, the number of its versions in 8 bytes, from format 2 on the first version that is
//! not retired in 8 bytes, and each version from version 1 on. A version is the number of its entry in 8 bytes, the block of
//! its root in 8 bytes, and for an output its reads. There are at most [`MAX_STREAMS`](btr_base::MAX_STREAMS) streams, each
//! with at most `MAX_VERSIONS` versions, and their ids differ. Formats 1 and 2 have no output of aligned windows. The first version
//! that is not retired is at most the number of versions, and 0 in format 1, which does not have it. The inputs of an output are
//! streams before it. Each of its versions has read one version of each input, at most the latest, and not before the one that its
//! version before has read. After the last stream nothing follows.
#![tactic(auto)]

mod roll;
// the streams one by one
mod reading;
mod writing;
// how many bytes they have
mod lengths;
// which rolls a checkpoint can have
mod table;
// what holds of all bytes of rolls
mod laws;

pub use laws::one_roll;
pub use lengths::{first_length, has_firsts, kind_length, streams_length, versions_length};
pub use roll::{Roll, RollStream, RollVersion, decode_roll, encode_roll};

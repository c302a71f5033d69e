//! The limits of what a store holds and of what can be asked. [`crate::limits_are_these`] states them as numerals.

/// The first time of the domain, in nanoseconds: `-2^60`.
pub const FIRST: i64 = -1152921504606846976;

/// The end of the domain, in nanoseconds: `3 * 2^60`, the first time after it. The domain is `2^62` ns wide.
pub const END: i64 = 3458764513820540928;

/// The greatest number of streams.
pub const MAX_STREAMS: usize = 65536;

/// The greatest version of a stream, and so the greatest number of its commits.
pub const MAX_VERSIONS: usize = 4294967295;

/// The greatest number of points of one version.
pub const MAX_POINTS: u64 = 4294967296;

/// The greatest number of points that one commit adds.
pub const MAX_COMMIT_POINTS: usize = 65536;

/// The greatest number of ranges that one commit empties.
pub const MAX_COMMIT_RANGES: usize = 65536;

/// The greatest number of points of a leaf of the tree, and so of a bottom span.
pub const LEAF_POINTS: usize = 252;

/// The number of slots of an inner node of the tree.
pub const FAN_OUT: u8 = 64;

/// The height of the span that is the whole domain. Bottom spans have height 0.
pub const ROOT_HEIGHT: u8 = 10;

/// The width of a bottom span, the narrowest part of the domain that the tree divides, in nanoseconds.
pub const BOTTOM_WIDTH: u64 = 4;

/// The greatest `p` of the aligned windows and slots of `2^p` ns that can be asked.
pub const MAX_EXPONENT: u8 = 62;

/// The greatest width of the windows that can be asked, in nanoseconds: `2^62`.
pub const MAX_WIDTH: u64 = 4611686018427387904;

//! Points, ranges of time, bags and aggregates: the plain data of every other crate.
//!
//! A [`Bag`] is a list of points by time and value, in which equal points each count. [`Ranges`] is a set of times, kept as its
//! longest ranges. A commit removes the points inside ranges from a bag (`outside`) and adds others (`merge`). The crates above
//! say what a version of a stream holds by these two calls alone.
//!
//! [`read_decimal`] and [`read_signed_decimal`] read a whole number from text, as scripts and rows write it.
//!
//! The crate has no streams, no versions and no bytes of a device. The limits of all of them are constants here.
#![tactic(auto)]

mod limits;
mod point;
// what a commit removes
mod range;
mod ranges;
// sets of times that are united
mod cut;
// what a version holds
mod bag;
// what is asked of it
mod agg;
mod cell;
mod grid;
mod span;
mod toward;
// numbers as text
mod decimal;
// what the definitions entail
mod laws;

pub use agg::Agg;
pub use bag::{Bag, merged, parted, points_between, points_outside};
pub use cell::Cell;
pub use decimal::{MINUS, negative, read_decimal, read_signed_decimal};
pub use grid::{Grid, slot_around};
pub use laws::{limits_are_these, one_list_for_the_times};
pub use limits::{
    BOTTOM_WIDTH, END, FAN_OUT, FIRST, LEAF_POINTS, MAX_COMMIT_POINTS, MAX_COMMIT_RANGES,
    MAX_EXPONENT, MAX_POINTS, MAX_STREAMS, MAX_VERSIONS, MAX_WIDTH, ROOT_HEIGHT,
};
pub use point::{Point, are_in_domain};
pub use range::Range;
pub use ranges::{Ranges, ranges_before, ranges_from};
pub use span::Span;
pub use toward::Toward;

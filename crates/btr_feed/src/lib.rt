//! Feeds: points of one stream that are buffered until they are a commit of the size that was asked for.
//!
//! A [`Feed`] keeps the points in the order of insertion. [`Feed::insert`] accepts only what one commit can add, and reports
//! when the threshold is reached. The caller then takes the points, commits them, and puts them back if the commit fails.
//! A feed makes no commit, and knows no store.
#![tactic(auto)]

mod domain;
mod feed;

pub use feed::{Feed, FeedFault, Held};

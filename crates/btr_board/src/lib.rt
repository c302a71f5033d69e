//! Two persistent containers: a list, and a map from ids to numbers of streams.
//!
//! A change makes a new container, which shares all but a few nodes with the old one. The old one stays as it is, and any
//! thread can read it. To share a container takes constant time.
//!
//! A [`Trail`] is a list: a bit-partitioned vector trie of fan-out 32 (Bagwell, 2001; the persistent vector of Clojure). With
//! n items, [`Trail::get`] visits one node a level, and [`Trail::push`] and [`Trail::set`] copy one node of at most 32
//! pointers a level. The levels are at most log32(n) + 1: 1 for 32 items, 4 for 1,000,000 items, 13 for 2^64.
//! [`Trail::empty`], [`Trail::len`] and [`Trail::share`] take constant time.
//!
//! An [`Index`] maps ids to numbers: a hash trie (Bagwell, "Ideal Hash Trees", 2001) that splits by one bit of the hash a
//! level, over leaves of at most 16 entries. With n ids, [`Index::find`] visits, and [`Index::insert`] copies, about
//! log2(n / 8) nodes, and one leaf. Ids that were made to collide can take 128 nodes. [`Index::empty`] and
//! [`Index::share`] take constant time.
#![tactic(auto)]

mod index;
mod index_node;
mod trail;
mod trail_node;

pub use index::Index;
pub use trail::Trail;

//! What a follower answers to a frame.

/// What a follower answers to a frame. Of several causes the first in this order is returned.
#[derive(Clone, Copy, PartialEq, Eq)]
pub enum Heard {
    /// The follower has the entry already, as far as the number says: it has this number of entries.
    Stale { entries: u64 },

    /// An entry before it is missing: the follower has this number of entries.
    Early { entries: u64 },

    /// The bytes spell no entry.
    Garbled,

    /// The entry is not allowed after those of the follower: it may not follow them, or it is a distillate with another cut or other
    /// points than the definition gives. So it is not of the follower's leader.
    Foreign,

    /// The follower has the entry now, and it is durable. This is its number.
    Taken(u64),
}

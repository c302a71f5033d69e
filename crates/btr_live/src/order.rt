//! The replies of lanes, in the order of the script.
ghost use Rattle.std.specs.Prelude.{◌≡◌, ℕ, ◌≤◌, [], ◌∷◌, ◌++◌, length};
ghost use Rattle.std.specs.Vec.{vec_capacity};
ghost use Rattle.btr_text.specs.declared.reply.LineReply.TheVariants.{No};
ghost use Rattle.btr_text.specs.declared.reply.Reason.TheVariants as reasons;
ghost use Rattle.btr_live.specs.OneHistory.{of_lane};
ghost use Rattle.btr_live.specs.Parts.{feeds_of, replies_at};

use crate::part::ScriptPart;
use btr_text::{LineReply, Reason};

/// Takes the replies out of the lanes, and puts them in the order of the script, whose lines have these lanes. There is room for
/// them. If each lane has as many replies as lines, each line has the reply of its lane. A line whose lane has no reply left has
/// the reply that memory ran out. It takes constant time for each.
pub(crate) fn in_order<F>(lanes: &[u8], parts: &mut [ScriptPart<F>], replies: &mut Vec<LineReply>)
    requires empty { replies.old.items ≡ [] }
    requires room { length lanes.now ≤ vec_capacity replies.old }
    ensures each { length replies.new.items ≡ length lanes.now }
    ensures in_lanes { ((k : ℕ) → length (replies_at parts.old k) ≡ length (of_lane k lanes.now lanes.now))
        → (k : ℕ) → of_lane k lanes.now replies.new.items ≡ replies_at parts.old k }
    ensures parts { length parts.new ≡ length parts.old }
    ensures feeds { feeds_of parts.new ≡ feeds_of parts.old }
{
    for lane in lanes.iter() {
        let reply = next_reply(parts, *lane);
        replies.push_reserved(reply);
    }
}

/// Takes the next reply of a lane. If the lane has none left, or if there is no such lane, the reply is that memory ran out, and the
/// parts stay as they are.
fn next_reply<F>(parts: &mut [ScriptPart<F>], lane: u8) -> LineReply
    ensures reported { 1 ≤ length (replies_at parts.old lane)
        → (k : ℕ) → replies_at parts.old k ≡ of_lane k (lane ∷ []) (result ∷ []) ++ replies_at parts.new k }
    ensures none { replies_at parts.old lane ≡ [] → (result ≡ No reasons.Memory) × (parts.new ≡ parts.old) }
    ensures parts { length parts.new ≡ length parts.old }
    ensures feeds { feeds_of parts.new ≡ feeds_of parts.old }
{
    let place = usize::from(lane);
    if place < parts.len() && parts[place].has_reply() {
        parts[place].next_reply()
    } else {
        LineReply::No(Reason::Memory)
    }
}

//! The lines of a lane, and their replies.
ghost use Rattle.std.specs.Prelude.{◌≡◌, ◌≤◌, ◌↔◌, IsTrue, [], ◌∷◌, length, IfOk};

use btr_text::{Line, LineReply, Reason};
use std::alloc::{AllocError, Global};
use std::collections::VecDeque;
use std::marker::Model;
use std::sync::Arc;
use std::sync::atomic::AtomicU32;

/// The lines of a lane, and their replies. There is room for a reply to each line, so that no lane stops because memory runs out.
#[derive(Drop)]
pub(crate) struct LaneLines {
    pub(crate) lines: Vec<Option<Line>>,
    pub(crate) replies: VecDeque<LineReply>,

    /// How many lanes have not ended.
    pub(crate) running: Arc<AtomicU32>,
}

impl Model for LaneLines {
    ghost use Rattle.std.specs.Prelude.{◌≤◌};
    ghost use Rattle.std.specs.Vec.{vec_len};
    ghost use Rattle.std.specs.VecDeque.{deque_capacity};
    ghost use Rattle.btr_live.specs.LinesOf.{LinesValue};

    ghost Value = { LinesValue };

    ghost view = { λ l. record { lines = l.lines.items; replies = l.replies.items } };

    ghost invariant = { λ l. vec_len l.lines ≤ deque_capacity l.replies };
}

impl LaneLines {
    /// Takes the memory for the replies to lines. When the lines have run, 1 is taken from `running`.
    pub(crate) fn new(
        alloc: Global,
        lines: Vec<Option<Line>>,
        running: &Arc<AtomicU32>,
    ) -> Result<LaneLines, AllocError>
        ensures { IfOk result (λ l. l ≡ record { lines = lines.items; replies = [] }) }
    {
        let replies = VecDeque::with_capacity(alloc, lines.len())?;
        let running = Arc::try_clone(running)?;
        Ok(LaneLines {
            lines,
            replies,
            running,
        })
    }

    /// Drops the replies that are left.
    pub(crate) fn drop_replies(&mut self)
        ensures lines { self.new.lines ≡ self.old.lines }
        ensures replies { self.new.replies ≡ [] }
    {
        self.replies.clear();
    }

    /// Whether a reply is left.
    pub(crate) fn has_reply(&self) -> bool
        ensures { IsTrue result ↔ (1 ≤ length self.now.replies) }
    {
        !self.replies.is_empty()
    }

    /// Takes the first reply that is left. There is one. It takes no memory.
    pub(crate) fn next_reply(&mut self) -> LineReply
        requires there { 1 ≤ length self.old.replies }
        ensures { self.old.replies ≡ result ∷ self.new.replies }
    {
        match self.replies.pop_front() {
            Some(reply) => reply,
            None => LineReply::No(Reason::Memory),
        }
    }
}

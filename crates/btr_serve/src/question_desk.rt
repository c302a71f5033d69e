//! The desk of questions: it answers them from one snapshot of a store.
ghost use Rattle.std.specs.Prelude.{◌≡◌, [], OnOk, OnErr};
ghost use Rattle.btr_text.specs.Text.{text as reply_text};
ghost use Rattle.btr_text.specs.declared.reply.LineReply.{LineReply as ReplySpec};
ghost use Rattle.btr_serve.specs.Questions.{AnswersReply};

use btr_engine::Snapshot;
use btr_live::answer_question;
use btr_store::{Status, status_of_reply};
use btr_talk::Desk;
use btr_text::{Line, read_question, write_reply};
use std::alloc::{AllocError, Global};
use std::marker::Sync;
use std::sync::Wait;
use std::thread::Threads;

/// Who answers questions from a snapshot of a store. A line that is no question fits no form here.
#[derive(Drop)]
pub struct QuestionDesk {
    pub(crate) alloc: Global,
    pub(crate) snapshot: Snapshot,

    /// The greatest status of the replies so far.
    pub(crate) status: Status,
}

impl Desk for QuestionDesk {
    ghost use Rattle.std.specs.Prelude.{◌≡◌};
    ghost use Rattle.std.proofs.Common.{refl, ◌∙◌};
    ghost use Rattle.btr_serve.specs.Questions.{DidAnswer};

    ghost is_ready = { λ d. Unit {0} };

    ghost did = { DidAnswer };

    ghost goes_on = { λ old new. new.snapshot ≡ old.snapshot };

    fn answer<R: Threads + Wait + Sync>(
        &mut self,
        rt: &R,
        line: &[u8],
        text: &mut Vec<u8>,
    ) -> Result<(), AllocError> {
        match read_question(self.alloc, line)? {
            None => Ok(()),
            Some(said) => self.answer_line(said.line, text),
        }
    }

    ghost stays = { λ desk. refl };

    ghost later = { λ old mid new first second. second ∙ first };
}

impl QuestionDesk {
    /// Answers a line, and appends the reply. An `Err` is that there is no memory for the text of the reply.
    fn answer_line(&mut self, line: Option<Line>, text: &mut Vec<u8>) -> Result<(), AllocError>
        requires empty { text.old.items ≡ [] }
        ensures goes { self.new.snapshot ≡ self.old.snapshot }
        ensures done { OnOk result ((reply : ReplySpec) × (text.new.items ≡ reply_text reply) × AnswersReply line reply self.old self.new) }
        ensures lost { OnErr result ((reply : ReplySpec) × AnswersReply line reply self.old self.new) }
    {
        let reply = answer_question(self.alloc, &self.snapshot, line);
        self.status = self.status.greater(status_of_reply(&reply));
        write_reply(&reply, text)
    }
}

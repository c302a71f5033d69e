//! Replies as they are written at the end of a run.
ghost use Rattle.std.specs.Prelude.{◌≡◌, [], OnOk};
ghost use Rattle.btr_store.specs.Replies.{IsTranscript, AddsReply, status_of_reply};

use crate::status::Status;
use crate::transcript::Transcript;
use btr_text::{LineReply, write_reply};
use std::alloc::{AllocError, Global};

/// Makes a transcript of no reply.
pub fn no_replies(alloc: Global) -> Transcript
    ensures { IsTranscript [] result }
{
    Transcript::new(alloc)
}

/// Adds a reply to a transcript. An `Err` is that there is no memory for its text.
pub fn add_reply(transcript: &mut Transcript, reply: &LineReply) -> Result<(), AllocError>
    ensures { OnOk result (AddsReply reply.now transcript.old transcript.new) }
{
    transcript.status = transcript.status.greater(status_of_reply(reply));
    write_reply(reply, &mut transcript.text)
}

/// Returns the status that a reply asks for.
pub fn status_of_reply(reply: &LineReply) -> Status
    ensures { result ≡ status_of_reply reply.now }
{
    match reply {
        LineReply::Done { .. } | LineReply::Held { .. } => Status::Done,
        LineReply::Ticket { .. } | LineReply::Found { .. } => Status::Done,
        LineReply::No(reason) => Status::of_reason(*reason),
    }
}

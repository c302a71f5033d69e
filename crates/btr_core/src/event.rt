//! The events of actors, and the replies to them.

use btr_hist::{Answer, Entry, Query, Rejection};
use btr_streams::Receipt;

/// Something that an actor does.
#[derive(Drop)]
pub struct Event {
    /// The actor. Each number is one: an actor that has done nothing yet is admitted to no entries, and has no plan.
    pub actor: u16,

    pub what: What,
}

/// What an actor does.
#[derive(Drop)]
pub enum What {
    /// It commits an entry. A distillate is refused: distillates are planned and landed.
    Commit(Entry),

    /// It is admitted to all entries so far.
    Admit,

    /// It asks a question about the entries that it was admitted to last.
    Ask(Query),

    /// It plans the next distillate of the stream of this number, from the entries that it was admitted to last.
    Plan(u32),

    /// It lands its plan, which uses the plan up.
    Land,
}

/// What an actor is replied.
#[derive(Drop)]
pub enum Reply {
    /// To a commit or a landing: the entry was accepted.
    Accepted(Receipt),

    /// To a commit or a landing: the entry may not follow the history.
    Rejected(Rejection),

    /// To an admission: the number of entries that the actor is admitted to.
    Admitted(u64),

    /// To a question.
    Answered(Answer),

    /// To a plan: whether there is one. There is none if the output has read the latest versions of its inputs. The actor then
    /// keeps the plan that it had.
    Planned(bool),

    /// To a plan: the stream is no output.
    NotOutput,

    /// To a landing: the output has another version since the plan was made. This is its latest version.
    Superseded { version: u64 },

    /// To a landing: the actor has no plan.
    NoPlan,
}

//! A store that stays open and answers each line at once.
//!
//! [`serve_store`] opens a store, answers the lines of a source one at a time, and closes the store. [`serve_questions`] answers questions
//! from the store as it was opened. Both are a talk ([`btr_talk::talk`]) at a desk: [`StoreDesk`] has a hall of the store, and
//! [`QuestionDesk`] a snapshot.
#![tactic(auto)]

mod course;
mod laws;
mod question_desk;
mod serve;
mod serve_snapshot;
mod store_desk;

pub use course::Course;
pub use laws::serving_is_live;
pub use question_desk::QuestionDesk;
pub use serve::{Served, serve_store};
pub use serve_snapshot::{ServedQuestions, serve_questions};
pub use store_desk::StoreDesk;

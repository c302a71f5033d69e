//! The text of a script and of its replies: what users type, and what they read.
//!
//! [`read_script`] reads bytes into lines, by the grammar in `specs/Word.antt`, `specs/Form.antt`,
//! `specs/Distiller.antt`, `specs/Cell.antt` and `specs/Input.antt`. [`write_reply`] writes a reply as `specs/Text.antt`
//! says. A new question about one stream is one more definition in `specs/Form.antt` and one more function in `form.rt`,
//! and a branch in `query_form` and `read_query`. A new kernel is one more word in `specs/Distiller.antt` and in
//! `distiller_form.rt`, a new value of aligned windows one more in `specs/Cell.antt` and in `cell_form.rt`.
#![tactic(auto)]

// what is read
mod cell_form;
mod distiller_form;
mod form;
mod input;
mod script;
mod word;
// what is written
mod reply;
mod row;
mod text;
// the bytes that mark the parts of a line
mod laws;

pub use input::{read_question, read_questions, read_script};
pub use laws::line_marks_are_these;
pub use reply::{LineReply, Reason};
pub use row::{append_agg, id_text};
pub use script::{Line, Script, ScriptLine};
pub use text::{append_line, append_reason, write_reply};
pub use word::read_unsigned;

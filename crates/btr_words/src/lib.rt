//! The words of a command line, and the command that they give.
//!
//! The words are read with `clap`. Nothing is printed, and the process does not exit: words that give no command are `None`,
//! also those that ask for help or for a version.
#![tactic(auto)]

mod command;
mod program;
mod read;
// what the definitions entail
mod laws;

pub use command::Command;
pub use laws::{
    commands_are_these, commands_of_frames_are_these, commands_of_questions_are_these,
    commands_of_rows_are_these, commands_of_serving_are_these, commands_with_a_flag_are_these,
    commands_with_groups_are_these,
};
pub use read::read_words;

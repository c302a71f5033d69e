//! The lines that a command writes, as text, with the status that they ask for.
ghost use Rattle.std.specs.Prelude.{◌≡◌, [], OnOk};
ghost use Rattle.btr_store.specs.declared.status.Status.TheVariants.{Done as DoneSpec};
ghost use Rattle.btr_store.specs.Transcript.{AddsLine, SaysLines};

use crate::report_line::ReportLine;
use crate::report_text::write_line;
use crate::status::Status;
use std::alloc::{AllocError, Global};

/// The lines or replies of a command, as they are written at the end of the run.
#[derive(Drop)]
pub struct Transcript {
    /// The status that they ask for.
    pub status: Status,

    /// Their text.
    pub text: Vec<u8>,
}

impl Transcript {
    /// Makes a transcript of no line. It takes no memory.
    pub fn new(alloc: Global) -> Transcript
        ensures status { result.status ≡ DoneSpec }
        ensures text { result.text.items ≡ [] }
    {
        Transcript {
            status: Status::Done,
            text: Vec::new(alloc),
        }
    }

    /// Adds a line. An `Err` means that there is no memory for its text.
    pub fn add(&mut self, line: &ReportLine) -> Result<(), AllocError>
        ensures { OnOk result (AddsLine line.now self.old self.new) }
    {
        self.status = self.status.greater(Status::of_line(line));
        write_line(line, &mut self.text)
    }
}

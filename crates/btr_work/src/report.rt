//! Reports: what became of each output that was to be brought up to date.
use btr_hall::LandFault;
use std::marker::Model;

/// What became of an output.
#[derive(Clone, Copy, PartialEq, Eq)]
pub enum Refreshed {
    /// A commit was planned and landed, and made this version of the output. It has read the latest versions of the inputs, as they
    /// were when it was planned.
    Landed { version: u64 },

    /// Nothing was planned, since the output had read the latest versions of its inputs. This was its latest version.
    Current { version: u64 },

    /// A commit was planned, and its landing was refused. `Want` also if the memory ran out before the landing.
    Refused(LandFault),
}

/// An output, by its number, and what became of it.
#[derive(Clone, Copy, PartialEq, Eq)]
pub struct RefreshLine {
    pub output: u32,
    pub result: Refreshed,
}

/// What became of each output, in the order in which the outputs were defined.
#[derive(Drop)]
pub struct Report {
    lines: Vec<RefreshLine>,
}

impl Model for Report {
    ghost use Rattle.std.specs.Prelude.{List};
    ghost use Rattle.btr_work.specs.declared.report.RefreshLine.{RefreshLine};

    ghost Value = { List RefreshLine };

    ghost view = { λ r. r.lines.items };
}

impl Report {
    ghost use Rattle.std.specs.Prelude.{◌≡◌};

    /// Makes a report of these lines. It takes no memory.
    pub fn from_lines(lines: Vec<RefreshLine>) -> Report
        ensures { result ≡ lines.items }
    {
        Report { lines }
    }

    /// The lines, in order.
    pub fn lines(&self) -> &[RefreshLine]
        ensures { result.now ≡ self.now }
    {
        self.lines.as_slice()
    }

    /// Takes the lines out. It takes no memory.
    pub fn into_lines(self) -> Vec<RefreshLine>
        ensures { result.items ≡ self }
    {
        let Report { lines } = self;
        lines
    }
}

ghost use Rattle.std.specs.Prelude.{◌≡◌};

use btr_base::Bag;
use btr_hist::{Kernel, StreamQuery};
use std::marker::Model;

/// A line that fits a form, with the values of its words. Times are in nanoseconds.
#[derive(Drop)]
pub enum Line {
    /// `create ID`: a new stream.
    Create {
        id: u128,
    },

    /// `insert ID T V [T V ..]`: one commit that adds these points.
    Insert {
        id: u128,
        added: Bag,
    },

    /// `delete ID S E`: one commit that removes the points with `from <= time < to`.
    Delete {
        id: u128,
        from: i64,
        to: i64,
    },

    /// `feed ID T V [T V ..]`: these points wait in the feed of the stream until they are a commit.
    Feed {
        id: u128,
        added: Bag,
    },

    /// `flush ID`: one commit that adds the points of the feed.
    Flush {
        id: u128,
    },

    /// `discard ID`: the points of the feed are dropped.
    Discard {
        id: u128,
    },

    /// `distiller ID KERNEL LEAD GRAIN ID [ID]`: a new output, the points that the kernel computes from its one or two inputs.
    /// A kernel is `affine A B D`, `sum`, `mean`, `least`, `greatest`, `count`, `delta`, `minus`, `angle` or `hold`.
    /// Or `cell ID WHICH P GRAIN ID`: a new output by [`Kernel::Cell`], with a lead of 0 and one input. WHICH is `sum`, `mean`,
    /// `least`, `greatest` or `count`.
    Distiller {
        id: u128,
        kernel: Kernel,
        lead: u64,
        grain: u8,
        first: u128,
        second: Option<u128>,
    },

    /// `refresh ID`: one commit that brings an output up to date with its inputs, or nothing if it is.
    Refresh {
        id: u128,
    },

    /// `retire ID FIRST`: the versions of the stream before this one cannot be asked any more.
    Retire {
        id: u128,
        first: u64,
    },

    /// `range`, `nearest`, `aligned`, `windows`, `changes` or `info`, then ID and the words of the question: a question
    /// about one stream.
    Ask {
        id: u128,
        query: StreamQuery,
    },

    /// `streams`: all streams.
    Streams,
}

/// A line that has a reply.
#[derive(Drop)]
pub struct ScriptLine {
    /// The lane of the line, from 0 to 7.
    pub lane: u8,

    /// What it says, or `None` if it fits no form.
    pub line: Option<Line>,
}

/// The lines of a script that have a reply, in order.
#[derive(Drop)]
pub struct Script {
    lines: Vec<ScriptLine>,
}

impl Model for Script {
    ghost use Rattle.std.specs.Prelude.{List};
    ghost use Rattle.btr_text.specs.declared.script.ScriptLine.{ScriptLine};

    ghost Value = { List ScriptLine };

    ghost view = { λ s. s.lines.items };
}

impl Script {
    /// Makes a script of these lines. It takes no memory.
    pub fn from_lines(lines: Vec<ScriptLine>) -> Script
        ensures { result ≡ lines.items }
    {
        Script { lines }
    }

    /// Returns the lines, in order.
    pub fn as_slice(&self) -> &[ScriptLine]
        ensures { result.now ≡ self.now }
    {
        self.lines.as_slice()
    }

    /// Returns the lines as a list, in order. It takes no memory.
    pub fn into_lines(self) -> Vec<ScriptLine>
        ensures { result.items ≡ self }
    {
        let Script { lines } = self;
        lines
    }
}
